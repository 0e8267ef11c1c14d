//! Where a value is in a document.

/// The way from the document to a value: the place of each element that is passed.
#[derive(Clone, Copy)]
pub enum Path<'a> {
    Document,
    Element(&'a Path<'a>, usize),
}
