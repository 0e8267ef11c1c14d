//! Batches of items.

use crate::item::Item;

/// A batch of items.
pub trait Batched<Q>: Drop {
    ghost use Rattle.std.specs.Prelude.{◌≡◌, List};
    ghost use Rattle.batch_items.specs.declared.item.Item.{Item};

    /// The items of a batch.
    ghost items_of: { Self → List (Item Q) };

    /// The batch of these items, of which there are at most 4,096.
    fn of_items(items: Vec<Item<Q>>) -> Self
        ensures { items_of result ≡ items.items };
}

impl<Q: Drop> Batched<Q> for Vec<Item<Q>> {
    ghost use Rattle.std.specs.Prelude.{◌≡◌};

    ghost items_of = { λ batch. batch.items };

    fn of_items(items: Vec<Item<Q>>) -> Vec<Item<Q>>
        ensures { result.items ≡ items.items }
    {
        items
    }
}
