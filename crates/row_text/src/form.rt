//! Which text of the rows is digested.

/// The text of all rows that is digested.
#[derive(Clone, Copy, Debug, PartialEq, Eq)]
pub enum DigestForm {
    /// The row text: the line of each row.
    Rows,
    /// The partition text: for each partition that has a row, a line with the digest of its row lines.
    Partitions,
}
