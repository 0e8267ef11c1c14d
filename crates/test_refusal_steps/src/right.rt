//! Whether what came out is what was reckoned.

ghost use Rattle.std.specs.Prelude.{◌≡◌};
ghost use Rattle.std.specs.FinMap as map_of;

use crate::texts::{REPLIES, ROWS};
use row_store::{RowStore, all_is_free_with_nothing_lent};
use row_text::{DigestForm, digest_text, rows_digest};
use std::alloc::Global;

/// Whether a text has this digest.
pub fn has_digest(alloc: Global, text: &str, digest: &str) -> Option<bool> {
    let found = digest_text(alloc, text.as_bytes()).ok()?;
    Some(found.as_str() == digest)
}

/// Whether these are the reply lines of the log, and the rows that it leaves.
pub fn is_of_log(alloc: Global, lines: &str, rows: &RowStore) -> Option<bool>
    requires { rows.now.lent ≡ map_of.empty }
{
    all_is_free_with_nothing_lent();
    let found = rows_digest(alloc, rows.catalogue(), rows, DigestForm::Rows).ok()?;
    Some(found.as_str() == ROWS && has_digest(alloc, lines, REPLIES)?)
}
