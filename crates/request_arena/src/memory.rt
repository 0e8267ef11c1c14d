//! Blocks of raw memory. Pointers are here, and nowhere above.

ghost use Rattle.std.specs.Prelude.{◌≡◌, ◌<◌, ◌*◌, ◌^◌, IfOk};
ghost use Rattle.core.specs.Mem.{type_size};
ghost use Rattle.core.specs.Mem.Slots.{slots_len};
ghost use Rattle.request_arena.specs.Memory.{IsDeedOf};

use crate::deed::Deed;
use core::slots::Slots;
use std::alloc::{AllocError, Allocator};
use std::marker::PhantomData;
use std::mem::{align_of, size_of};

/// Takes a block for `places` values, of which none is there yet. The value only shows that there is one.
pub(crate) unsafe fn take<T, A: Allocator>(
    alloc: &A,
    places: usize,
    _like: &T,
) -> Result<(Slots<T>, Deed<T, A>), AllocError>
    requires { places * type_size T.row < 2 ^ 63 }
    ensures { IfOk result (λ taken. (slots_len taken.0 ≡ places) × IsDeedOf taken.1 taken.0 alloc.now) }
{
    match alloc.allocate(places * size_of::<T>(), align_of::<T>()) {
        Ok(block) => {
            let slots = Slots::from_raw_parts(block as *mut T, places);
            let of = PhantomData;
            let by = PhantomData;
            Ok((slots, Deed { of, by }))
        }
        Err(refused) => Err(refused),
    }
}

/// Gives a block back, with what its places hold.
pub(crate) unsafe fn give_back<T, A: Allocator>(alloc: &A, slots: Slots<T>, deed: Deed<T, A>)
    requires { IsDeedOf deed slots alloc.now }
{
    let Deed { of: _, by: _ } = deed;
    let (start, places) = slots.into_raw_parts();
    alloc.deallocate(start as *mut u8, places * size_of::<T>(), align_of::<T>());
}
