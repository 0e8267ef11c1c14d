//! Lists in tree order.

ghost use Rattle.std.specs.Prelude.{IfOk, IfErr};
ghost use Rattle.footprint.specs.InTreeOrder.{IsInTreeOrder, IsAt, IsGapFor};

use crate::resource::Resource;

/// Where the entry on a resource is in a list in tree order, or else where it would go. Entries mostly come in order,
/// so the last one is looked at first.
pub fn search<V>(entries: &[(Resource, V)], resource: &Resource) -> Result<usize, usize>
    requires { IsInTreeOrder entries.now }
    ensures found { IfOk result (IsAt entries.now resource.now) }
    ensures absent { IfErr result (IsGapFor entries.now resource.now) }
{
    match entries.last() {
        Some((last, _)) if last.cmp(resource).is_lt() => Err(entries.len()),
        _ => entries.binary_search_by_key(resource, |entry| entry.0),
    }
}
