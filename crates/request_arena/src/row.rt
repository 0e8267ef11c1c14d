//! Nodes in a row, in one block of raw memory.

ghost use Rattle.std.specs.Prelude.{◌≡◌, ◌<◌, ◌++◌, ◌∷◌, [], length, slice_get, slice_set, IfOk, Some};

use crate::deed::Deed;
use crate::memory::{give_back, take};
use crate::packed::Packed;
use core::slots::Slots;
use modes::Mode;
use std::alloc::Global;
use std::marker::Model;
use values::NoMemory;

/// The most nodes that a block has room for.
const MOST: usize = isize::MAX as usize / size_of::<Packed>();

/// Nodes one after another in one block of raw memory, which is given back with them. Contracts see the nodes, and how
/// many there is room for.
pub(crate) struct Row {
    alloc: Global,
    places: Slots<Packed>,
    deed: Deed<Packed, Global>,
    len: usize,
}

impl Model for Row {
    ghost use Rattle.std.specs.Prelude.{◌≡◌, ◌≤◌, take as first};
    ghost use Rattle.core.specs.Mem.Slots.{slots_items, slots_len, slots_filled};
    ghost use Rattle.core.specs.Mem.Slots.Ownership.{Filled};
    ghost use Rattle.request_arena.specs.Memory.{IsDeedOf};
    ghost use Rattle.request_arena.specs.Rows.{RowOf, row_code};

    ghost Value = { RowOf };

    ghost coded = { row_code };

    ghost view = { λ r. record { items = first r.len (slots_items r.places); room = slots_len r.places } };

    ghost invariant = { λ r. (r.len ≤ slots_len r.places) × Filled (slots_filled r.places) 0 r.len ×
        IsDeedOf r.deed r.places r.alloc };
}

impl Row {
    /// No node, and room for `room` nodes.
    pub(crate) fn with_capacity(alloc: Global, room: usize) -> Result<Row, NoMemory>
        ensures { IfOk result (λ row. row ≡ record { items = []; room = room }) }
    {
        if room > MOST {
            return Err(NoMemory);
        }
        let blank = Packed {
            no: 0,
            next: 0,
            prev: 0,
            home: 0,
            successor: 0,
            mode: Mode::IntentionShared,
            live: false,
            leads: false,
        };
        let (places, deed) = unsafe { take(&alloc, room, &blank)? };
        Ok(Row {
            alloc,
            places,
            deed,
            len: 0,
        })
    }

    /// How many nodes there are.
    #[inline(always)]
    pub(crate) fn len(&self) -> usize
        ensures { result ≡ length self.now.items }
    {
        self.len
    }

    /// The node at an index.
    #[inline(always)]
    pub(crate) fn get(&self, index: usize) -> Packed
        requires { index < length self.now.items }
        ensures { slice_get self.now.items index ≡ Some result }
    {
        *self.places.get(index)
    }

    /// Puts a node where another was.
    #[inline(always)]
    pub(crate) fn set(&mut self, index: usize, node: Packed)
        requires { index < length self.old.items }
        ensures { self.new ≡ record self.old { items = slice_set self.old.items index node } }
    {
        self.places.put(index, node);
    }

    /// Puts a node after the others. There is room for it.
    pub(crate) fn push(&mut self, node: Packed)
        requires { length self.old.items < self.old.room }
        ensures { self.new ≡ record self.old { items = self.old.items ++ node ∷ [] } }
    {
        self.places.put(self.len, node);
        self.len += 1;
    }
}

impl Drop for Row {
    fn drop(self) {
        let Row {
            alloc,
            places,
            deed,
            len: _,
        } = self;
        unsafe { give_back(&alloc, places, deed) };
    }
}
