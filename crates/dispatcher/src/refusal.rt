//! What the system refuses to a run of a batch.

ghost use Rattle.std.specs.Prelude.{◌≡◌};

use thiserror::Error;
use values::NoMemory;

/// What the system refused.
#[derive(Clone, Copy, Debug, PartialEq, Eq, Error)]
pub enum Refusal {
    #[error("no thread")]
    Thread,
    #[error("out of memory")]
    Memory,
}

impl From<NoMemory> for Refusal {
    ghost use Rattle.dispatcher.specs.declared.refusal.Refusal.TheVariants.{Memory};

    ghost from_gives = { λ _ refusal. refusal ≡ Memory };

    fn from(_: NoMemory) -> Refusal {
        Refusal::Memory
    }
}
