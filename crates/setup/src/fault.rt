//! Why a setup could not be read.

ghost use Rattle.std.specs.Prelude.{◌≡◌};
ghost use Rattle.setup.specs.Faults.{is_memory};
ghost use Rattle.setup.specs.declared.fault.SetupFault.TheVariants.{Memory, Catalogue, Procedure};

use catalogue::CatalogueFault;
use proclang::ProcFault;
use std::alloc::{AllocError, AllocFailed};
use thiserror::Error;
use values::NoMemory;

/// The first rule that a setup breaks, or want of memory.
#[derive(Debug, Drop, Error)]
pub enum SetupFault {
    /// The bytes are no JSON text.
    #[error("fault 41")]
    NotJson,
    /// The document, its rows or a row do not have their form.
    #[error("fault 42")]
    Shape,
    /// A row's table is not in the catalogue.
    #[error("fault 43")]
    RowTable,
    /// A row's key is negative.
    #[error("fault 44")]
    RowKey,
    /// A row does not have one value for each column, of the column's type; a text has at most 64 bytes.
    #[error("fault 45")]
    RowValue,
    /// An earlier row has the same table and key.
    #[error("fault 46")]
    RowTwice,
    /// The system refused memory.
    #[error("fault 47")]
    Memory,
    /// The catalogue breaks a rule, or allocation failed while it was read.
    #[error("{0}")]
    Catalogue(CatalogueFault),
    /// The procedures break a rule, or allocation failed while they were read.
    #[error("{0}")]
    Procedure(ProcFault),
}

impl SetupFault {
    /// Whether allocation failed while the setup, its catalogue or its procedures were read.
    pub fn is_memory(&self) -> bool
        ensures { result ≡ is_memory self.now }
    {
        matches!(
            self,
            SetupFault::Memory
                | SetupFault::Catalogue(CatalogueFault::Memory)
                | SetupFault::Procedure(ProcFault::Memory)
        )
    }
}

impl From<NoMemory> for SetupFault {
    ghost from_gives = { λ _ e. e ≡ Memory };

    fn from(_error: NoMemory) -> SetupFault {
        SetupFault::Memory
    }
}

impl From<AllocError> for SetupFault {
    ghost from_gives = { λ _ e. e ≡ Memory };

    fn from(_error: AllocError) -> SetupFault {
        SetupFault::Memory
    }
}

impl<T: Drop> From<AllocFailed<T>> for SetupFault {
    ghost from_gives = { λ _ e. e ≡ Memory };

    fn from(_error: AllocFailed<T>) -> SetupFault {
        SetupFault::Memory
    }
}

impl From<CatalogueFault> for SetupFault {
    ghost from_gives = { λ fault e. e ≡ Catalogue fault };

    fn from(fault: CatalogueFault) -> SetupFault {
        SetupFault::Catalogue(fault)
    }
}

impl From<ProcFault> for SetupFault {
    ghost from_gives = { λ fault e. e ≡ Procedure fault };

    fn from(fault: ProcFault) -> SetupFault {
        SetupFault::Procedure(fault)
    }
}
