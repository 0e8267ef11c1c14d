//! The numbers of queues.

ghost use Rattle.std.specs.Prelude.{◌≡◌, ◌<◌, [], Some, None, length, slice_get};
ghost use Rattle.request_arena.specs.Lists.{free_nodes};
ghost use Rattle.lock_tree.specs.Lines.{number_of, nodes_of, HasRoom};
ghost use Rattle.lock_tree.specs.Numbered.{IsNumbered};
ghost use Rattle.lock_tree.specs.Granted.{AreGranted};
ghost use Rattle.lock_tree.specs.Steps.{IsOpened, IsForgotten};

use crate::line::push_empty;
use crate::lines::Lines;
use crate::resource_key::ResourceKey;
use footprint::Resource;
use std::snapshot::Snapshot;

/// Takes a number that is no resource's for one: the number that became vacant last, or else the least. A node is free.
fn take(lines: &mut Lines, resource: &Resource) -> usize
    requires numbered { IsNumbered lines.old None }
    requires granted { AreGranted lines.old }
    requires free { 0 < free_nodes lines.old.nodes.held }
    ensures numbered { IsNumbered lines.new (Some result) }
    ensures granted { AreGranted lines.new }
    ensures empty { nodes_of lines.new.nodes result ≡ [] }
    ensures within { result < length lines.new.lines.items }
    ensures noted { slice_get lines.new.resources.items result ≡ Some resource.now }
    ensures nodes { lines.new.nodes ≡ lines.old.nodes }
    ensures numbers { lines.new.numbers ≡ lines.old.numbers }
{
    if let Some(number) = lines.vacant.pop() {
        lines.resources[number] = *resource;
        return number;
    }
    let number = lines.lines.len();
    push_empty(&mut lines.lines);
    lines.resources.push_reserved(*resource);
    number
}

/// Gives a resource that none asks for a number. There is room for it.
fn open(lines: &mut Lines, resource: &Resource) -> usize
    requires numbered { IsNumbered lines.old None }
    requires granted { AreGranted lines.old }
    requires free { 0 < free_nodes lines.old.nodes.held }
    requires room { HasRoom lines.old 1 }
    requires none { number_of lines.old resource.now ≡ None }
    ensures { IsOpened lines.old resource.now result lines.new }
{
    let number = take(lines, resource);
    let key = ResourceKey {
        resource: *resource,
    };
    let _ = lines.numbers.insert(key, number);
    number
}

/// The number of a resource's queue, which is open for one more request.
pub(crate) fn number_for(lines: &mut Lines, resource: &Resource) -> usize
    requires numbered { IsNumbered lines.old None }
    requires granted { AreGranted lines.old }
    requires free { 0 < free_nodes lines.old.nodes.held }
    requires room { HasRoom lines.old 1 }
    ensures { IsOpened lines.old resource.now result lines.new }
{
    match lines.number_of(resource) {
        Some(number) => number,
        None => open(lines, resource),
    }
}

/// Forgets a resource whose queue has become empty: its number is vacant.
pub(crate) fn forget_empty(lines: &mut Lines, resource: &Snapshot<Resource>, number: usize)
    requires numbered { IsNumbered lines.old (Some number) }
    requires granted { AreGranted lines.old }
    requires named { number_of lines.old resource.now.value ≡ Some number }
    ensures { IsForgotten lines.old resource.now.value number lines.new }
{
    if lines.nodes.first(number).is_none() {
        let key = ResourceKey {
            resource: lines.resources[number],
        };
        lines.numbers.remove(&key);
        lines.vacant.push_reserved(number);
    }
}
