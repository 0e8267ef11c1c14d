//! The digest of all rows, in either form.

ghost use Rattle.std.specs.Prelude.{◌≡◌, IfOk, string_bytes};
ghost use Rattle.row_text.specs.Kept.{AreKept};
ghost use Rattle.row_text.specs.Merge.{ShowsAll};
ghost use Rattle.row_text.specs.Partitions.{digested_text};
ghost use Rattle.row_text.specs.Texts.{digest};

use crate::form::DigestForm;
use crate::kept::KeptDigests;
use crate::partitions::partition_text_digest;
use crate::rows_in_order::row_text_digest;
use catalogue::Catalogue;
use std::alloc::{AllocError, Global};
use workspace::RowView;

// rule: report.rows
/// The digest of the rows of a view that shows every name: of their row text, or of their partition text.
pub fn rows_digest<V: RowView>(
    alloc: Global,
    catalogue: &Catalogue,
    view: &V,
    form: DigestForm,
) -> Result<String, AllocError>
    requires tables { V.tables view.now ≡ catalogue.now }
    requires shows { ShowsAll (V.shows view.now) }
    ensures { IfOk result (λ t. string_bytes t ≡ digest (digested_text form catalogue.now (V.rows view.now))) }
{
    kept_rows_digest(alloc, catalogue, view, form, &mut KeptDigests::new(alloc))
}

/// The same, by what is kept of the digests of partitions. For the partition text only the rows of partitions of which
/// nothing is kept are looked at, and their digests are kept then.
pub fn kept_rows_digest<V: RowView>(
    alloc: Global,
    catalogue: &Catalogue,
    view: &V,
    form: DigestForm,
    kept: &mut KeptDigests,
) -> Result<String, AllocError>
    requires tables { V.tables view.now ≡ catalogue.now }
    requires shows { ShowsAll (V.shows view.now) }
    requires kept { AreKept catalogue.now (V.rows view.now) kept.old }
    ensures kept { AreKept catalogue.now (V.rows view.now) kept.new }
    ensures digest { IfOk result (λ t.
        string_bytes t ≡ digest (digested_text form catalogue.now (V.rows view.now))) }
{
    match form {
        DigestForm::Rows => row_text_digest(alloc, catalogue, view),
        DigestForm::Partitions => partition_text_digest(alloc, catalogue, view, kept),
    }
}
