//! Why a catalogue could not be read.

ghost use Rattle.std.specs.Prelude.{◌≡◌};
ghost use Rattle.catalogue.specs.declared.fault.CatalogueFault.TheVariants.{Memory};

use std::alloc::{AllocError, AllocFailed};
use thiserror::Error;

/// The first rule that a catalogue's document breaks, or want of memory.
#[derive(Clone, Copy, Debug, PartialEq, Eq, Error)]
pub enum CatalogueFault {
    /// The document, a table or a column does not have its form.
    #[error("fault 1")]
    Shape,
    /// A table's name, or a column's within its table, is used by an earlier one.
    #[error("fault 2")]
    DuplicateName,
    /// A name is not 1 to 32 bytes that begin with a lower-case letter and go on with such letters, digits and `_`.
    #[error("fault 3")]
    BadName,
    /// A table has no column.
    #[error("fault 4")]
    NoColumn,
    /// There are not 1 to 64 tables, 1 to 1,024 partitions, at most 1,023 bounds, or at most 16 columns.
    #[error("fault 5")]
    Limit,
    /// The system refused memory.
    #[error("fault 6")]
    Memory,
    /// A bound is less than 1, or not above the one before it.
    #[error("fault 7")]
    BadBounds,
}

impl From<AllocError> for CatalogueFault {
    ghost from_gives = { λ _ e. e ≡ Memory };

    fn from(_error: AllocError) -> CatalogueFault {
        CatalogueFault::Memory
    }
}

impl<T: Drop> From<AllocFailed<T>> for CatalogueFault {
    ghost from_gives = { λ _ e. e ≡ Memory };

    fn from(_error: AllocFailed<T>) -> CatalogueFault {
        CatalogueFault::Memory
    }
}
