//! Why procedures could not be read.

ghost use Rattle.std.specs.Prelude.{◌≡◌, IfOk};
ghost use Rattle.proclang_expressions.specs.declared.fault.ProcFault.TheVariants.{Memory};
ghost use Rattle.proclang_expressions.specs.Paths.{places};
ghost use Rattle.proclang_expressions.specs.Faults.{IsFault};

use crate::path::Path;
use std::alloc::{AllocError, AllocFailed, Global};
use std::fmt;
use std::marker::Model;
use thiserror::Error;
use values::NoMemory;

/// The rule that is broken, each with the number that it is reported by.
#[derive(Clone, Copy, Debug, PartialEq, Eq, Error)]
pub enum FaultKind {
    /// Not the form that is wanted there, or a declared name that breaks the rule of names.
    #[error("not the form that stands there, or a name that breaks the rule of names")]
    Shape = 11,
    /// No table has that name.
    #[error("no table has that name")]
    UnknownTable = 12,
    /// The table has no column of that name.
    #[error("the table has no column of that name")]
    UnknownColumn = 13,
    /// No variable of that name is seen.
    #[error("no variable of that name is seen")]
    UnknownName = 14,
    /// The expression, or the column, has the wrong type.
    #[error("the expression or the column has the wrong type")]
    TypeMismatch = 15,
    /// The name of a procedure or of a parameter that was used before; a parameter, or the variable of a loop, that is
    /// to be changed; or the name of a loop's variable that is seen already.
    #[error("the name is used already, or its variable may not be changed")]
    DuplicateName = 16,
    /// An abort code outside 100 to 65535.
    #[error("the abort code is not from 100 to 65535")]
    AbortCode = 17,
    /// More procedures, parameters, entries, statements, values, levels or bytes of a text than there may be.
    #[error("more procedures, parameters, entries, statements, values, levels or bytes than there may be")]
    Limit = 18,
}

/// The way to a fault: the place, from 0, of each element that is passed from the document inwards. It is written
/// with `/` before each place, so that the document's own is the empty text.
#[derive(Debug, Drop)]
pub struct Places {
    places: Vec<usize>,
}

impl Model for Places {
    ghost use Rattle.std.specs.Prelude.{List, ℕ};

    ghost Value = { List ℕ };

    ghost view = { λ p. p.places.items };
}

impl Places {
    /// The places, from the document inwards; none for the document itself.
    pub fn as_slice(&self) -> &[usize]
        ensures { result.now ≡ self.now }
    {
        self.places.as_slice()
    }
}

impl fmt::Display for Places {
    fn fmt<W: fmt::Write>(&self, f: &mut fmt::Formatter<W>) -> fmt::Result {
        for place in &self.places {
            write!(f, "/{place}")?;
        }
        Ok(())
    }
}

/// The first fault of a document of procedures, or want of memory.
#[derive(Debug, Drop, Error)]
pub enum ProcFault {
    /// The system refused memory.
    #[error("fault 19")]
    Memory,
    /// The rule of that kind is broken at that place, and all that comes before it keeps its rules.
    #[error("fault {kind} at {1}", kind = *.0 as u8)]
    At(FaultKind, Places),
}

impl From<AllocError> for ProcFault {
    ghost from_gives = { λ _ e. e ≡ Memory };

    fn from(_error: AllocError) -> ProcFault {
        ProcFault::Memory
    }
}

impl<T: Drop> From<AllocFailed<T>> for ProcFault {
    ghost from_gives = { λ _ e. e ≡ Memory };

    fn from(_error: AllocFailed<T>) -> ProcFault {
        ProcFault::Memory
    }
}

impl From<NoMemory> for ProcFault {
    ghost from_gives = { λ _ e. e ≡ Memory };

    fn from(_error: NoMemory) -> ProcFault {
        ProcFault::Memory
    }
}

fn places_of(alloc: Global, path: &Path<'_>) -> Result<Vec<usize>, AllocError>
    ensures { IfOk result (λ v. v.items ≡ places path.now) }
{
    match path {
        Path::Document => Ok(Vec::new(alloc)),
        Path::Element(parent, place) => {
            let mut list = places_of(alloc, parent)?;
            list.push(*place)?;
            Ok(list)
        }
    }
}

/// A fault of that kind at that path.
pub fn fault_at(alloc: Global, kind: FaultKind, path: &Path<'_>) -> ProcFault
    ensures { IsFault kind (places path.now) result }
{
    match places_of(alloc, path) {
        Ok(places) => ProcFault::At(kind, Places { places }),
        Err(_) => ProcFault::Memory,
    }
}
