//! The versions of a catalogue's document.

/// A version of a catalogue's document.
#[derive(Clone, Copy)]
pub(crate) enum Version {
    /// Each table says a number of partitions.
    One,
    /// A table may say bounds in place of a number of partitions.
    Two,
}
