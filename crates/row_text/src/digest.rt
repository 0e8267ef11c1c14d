//! Digests.

ghost use Rattle.std.specs.Prelude.{◌≡◌, ◌++◌, List, ℕ, IfOk, OnOk, string_bytes};
ghost use Rattle.sha2.specs.Hashers.{Holds256};
ghost use Rattle.row_text.specs.Texts.{digest, row_line, table_name, values_text};

use crate::values_text::push_values;
use catalogue::Catalogue;
use itoa::Buffer;
use sha2::{Digest, Sha256};
use std::alloc::{AllocError, Global};
use values::{Row, RowName, TableNo};

/// A SHA-256, as bytes.
pub(crate) type Hash = [u8; 32];

/// The SHA-256 digest of a text, in 64 lower-case hexadecimal digits. (FIPS 180-4.)
#[tactic(auto, unfolding(crate::specs::Texts::digest))]
pub fn digest_text(alloc: Global, text: &[u8]) -> Result<String, AllocError>
    ensures { IfOk result (λ t. string_bytes t ≡ digest text.now) }
{
    hex::encode(alloc, Sha256::digest(text))
}

/// A table's name; nothing for a table that the catalogue doesn't have.
pub(crate) fn table_name(catalogue: &Catalogue, table: TableNo) -> &str
    ensures { result.now ≡ table_name catalogue.now table }
{
    if table.place() < catalogue.len() {
        catalogue.table_name(table)
    } else {
        ""
    }
}

/// Appends a table's name; nothing for a table that the catalogue doesn't have.
pub fn push_table_name(
    text: &mut String,
    catalogue: &Catalogue,
    table: TableNo,
) -> Result<(), AllocError>
    ensures { OnOk result (string_bytes text.new ≡ string_bytes text.old ++ table_name catalogue.now table) }
{
    text.push_str(table_name(catalogue, table))
}

/// Appends a row line: the table's name, the key, the values, and a newline.
#[tactic(auto, unfolding(crate::specs::Texts::row_line))]
pub(crate) fn push_row_line(
    alloc: Global,
    text: &mut String,
    catalogue: &Catalogue,
    name: &RowName,
    row: &Row,
) -> Result<(), AllocError>
    ensures { OnOk result (string_bytes text.new ≡ string_bytes text.old ++ row_line catalogue.now name.now row.now) }
{
    push_table_name(text, catalogue, name.table)?;
    text.push_str(" ")?;
    text.push_str(Buffer::new().format(name.key.number()))?;
    push_values(alloc, text, row.values())?;
    text.push_str("\n")
}

/// A row line: the table's name, the key, the values, and a newline.
pub fn row_line(
    alloc: Global,
    catalogue: &Catalogue,
    name: &RowName,
    row: &Row,
) -> Result<String, AllocError>
    ensures { IfOk result (λ t. string_bytes t ≡ row_line catalogue.now name.now row.now) }
{
    let mut text = String::new(alloc);
    push_row_line(alloc, &mut text, catalogue, name, row)?;
    Ok(text)
}

/// The digest of what a hasher was fed.
#[tactic(auto, unfolding(crate::specs::Texts::digest))]
pub fn digest_of(alloc: Global, hasher: Sha256) -> Result<String, AllocError>
    ensures { (m : List ℕ) → Holds256 hasher m → IfOk result (λ t. string_bytes t ≡ digest m) }
{
    hex::encode(alloc, hasher.finalize())
}
