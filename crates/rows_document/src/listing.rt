//! A rows document on its way.

ghost use Rattle.std.specs.Prelude.{◌≡◌, ◌<◌, ◌^◌, ◌∷◌, ◌++◌, [], List, ℕ, IfOk, OnOk, codes, if◌then◌else◌};
ghost use Rattle.std.specs.List.{AllByRecursion};
ghost use Rattle.values.specs.declared.name.RowName.{RowName};
ghost use Rattle.values.specs.Database.{RowOf};
ghost use Rattle.catalogue.specs.Shapes.{TableShape};
ghost use Rattle.row_text.specs.Texts.{line_end};
ghost use Rattle.rows_document.specs.Listing.{Lists, table_head};
ghost use Rattle.rows_document.specs.Said.{IsHeld};

use crate::rows::push_row;
use std::alloc::{AllocError, Global};
use values::{Key, Row};

/// The text of the rows so far.
#[derive(Drop)]
pub(crate) struct Listing {
    text: Vec<u8>,
    // Whether there are any.
    any: bool,
}

/// Appends a comma, if there is a row before.
fn push_comma(text: &mut Vec<u8>, any: bool) -> Result<(), AllocError>
    ensures { OnOk result (text.new.items ≡ text.old.items ++ (if any then codes "," else [])) }
{
    if any {
        text.push(b',')?;
    }
    Ok(())
}

impl Listing {
    /// What is before the rows.
    pub(crate) fn new(alloc: Global) -> Result<Listing, AllocError>
        ensures { IfOk result (λ listing. (tables : List TableShape) → Lists tables [] listing) }
    {
        let text = Vec::from_slice(alloc, b"[\"rows\",1,[")?;
        Ok(Listing { text, any: false })
    }

    /// Appends a row, from what is before its key.
    pub(crate) fn push(&mut self, head: &[u8], key: Key, row: &Row) -> Result<(), AllocError>
        ensures listed { (tables : List TableShape) (table : ℕ) (rows : List (RowName × RowOf)) →
            head.now ≡ table_head tables table → Lists tables rows self.old →
            OnOk result (Lists tables (rows ++ (record { table = table; key = key }, row.now) ∷ []) self.new) }
        ensures held { OnOk result ((key < 2 ^ 63) × AllByRecursion IsHeld row.now) }
    {
        push_comma(&mut self.text, self.any)?;
        push_row(&mut self.text, head, key, row)?;
        self.any = true;
        Ok(())
    }

    /// The whole text.
    pub(crate) fn end(self) -> Result<Vec<u8>, AllocError>
        ensures { IfOk result (λ text. text.items ≡ self.text.items ++ line_end ++ codes "]]" ++ line_end) }
    {
        let mut text = self.text;
        text.extend_from_slice(b"\n]]\n")?;
        Ok(text)
    }
}
