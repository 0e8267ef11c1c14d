//! What is in stock, by the engine's rows.

use calvin::Engine;
use row_store::all_is_free_with_nothing_lent;
use values::{Key, Value};
use workspace::RowView;

/// How many of an item are left; `None` where there is no such item, or the engine holds a batch that isn't finished.
pub(crate) fn left_of(engine: &Engine, item: i64) -> Option<i64> {
    if engine.is_busy() {
        return None;
    }
    let rows = engine.rows();
    let table = rows.catalogue().table("item")?;
    let key = Key::new(item)?;
    // proof: every row of the store is free.
    all_is_free_with_nothing_lent();
    match rows.row(table, key)?.get(1)? {
        Value::Int(left) => Some(*left),
        Value::Text(_) => None,
    }
}
