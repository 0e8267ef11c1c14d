//! Why a run stops before its body's end.

ghost use Rattle.std.specs.Prelude.{◌≡◌};
ghost use Rattle.workspace.specs.declared.stop.Stop.TheVariants.{Memory, End};
ghost use Rattle.meaning.specs.declared.outcome.Ending.TheVariants.{Abort};

use footprint::AbortCode;
use meaning::Ending;
use std::alloc::{AllocError, AllocFailed};
use values::NoMemory;

/// Why a run stops before its body's end.
#[derive(Clone, Copy, Debug, PartialEq, Eq)]
pub enum Stop {
    /// The system refused memory.
    Memory,
    End(Ending),
}

impl From<NoMemory> for Stop {
    ghost from_gives = { λ _ stop. stop ≡ Memory };

    fn from(_: NoMemory) -> Stop {
        Stop::Memory
    }
}

impl From<AbortCode> for Stop {
    ghost from_gives = { λ code stop. stop ≡ End (Abort code) };

    fn from(code: AbortCode) -> Stop {
        Stop::End(Ending::Abort(code))
    }
}

impl From<AllocError> for Stop {
    ghost from_gives = { λ _ stop. stop ≡ Memory };

    fn from(_: AllocError) -> Stop {
        Stop::Memory
    }
}

impl<T: Drop> From<AllocFailed<T>> for Stop {
    ghost from_gives = { λ _ stop. stop ≡ Memory };

    fn from(_: AllocFailed<T>) -> Stop {
        Stop::Memory
    }
}
