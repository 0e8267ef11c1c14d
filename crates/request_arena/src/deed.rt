//! The right to give a block of memory back.

ghost use Rattle.std.specs.Prelude.{ℕ};
ghost use denote.RawPtr.{Ptr};

use std::alloc::Allocator;
use std::marker::{Model, PhantomData};

/// The right to give back the block in which places lie.
pub(crate) struct Deed<T, A: Allocator> {
    pub(crate) of: PhantomData<T>,
    pub(crate) by: PhantomData<A>,
    ghost start: { Ptr },
    ghost places: { ℕ },
    ghost alloc: { A },
}

impl<T, A: Allocator> Model for Deed<T, A> {
    ghost use Rattle.core.specs.Mem.Slots.Ownership.{leased};

    ghost also_owns = { λ d. leased (A.dealloc_token d.alloc) T.row d.start d.places };
}
