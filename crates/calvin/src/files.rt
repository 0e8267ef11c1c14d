//! The files that a command reads.

use std::alloc::Global;
use thiserror::Error;

/// Why a file was not read.
#[derive(Clone, Copy, Debug, PartialEq, Eq, Error)]
pub enum FileFault {
    /// There is no such file, or it can't be read.
    #[error("there is no such file, or it can't be read")]
    Unreadable,
    /// The system refused memory.
    #[error("out of memory")]
    NoMemory,
}

/// The files of a machine, by their paths. It tells what it may hold at a path, or claims nothing of it.
pub trait Files {
    ghost use Rattle.std.specs.Prelude.{◌≡◌, ℕ, List, Option, Some, None, Err, IfOk};

    /// What may be held at a path: bytes, or none where nothing can be read.
    ghost holds: { Self → List ℕ → Option (List ℕ) → Type 0 };

    /// The bytes of a file.
    fn read(&self, alloc: Global, path: &str) -> Result<Vec<u8>, FileFault>
        ensures bytes { IfOk result (λ v. holds self.now path.now (Some v.items)) }
        ensures unreadable { result ≡ Err FileFault.Unreadable → holds self.now path.now None };
}
