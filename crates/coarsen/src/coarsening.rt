//! The coarsening of a footprint.

ghost use Rattle.std.specs.Prelude.{◌≡◌, IfOk, true, unwrap_or};
ghost use Rattle.std.specs.BTreeMap.{get as count_at};
ghost use Rattle.footprint.specs.Tree.{resource_cmp};
ghost use Rattle.footprint.specs.declared.resource.Resource.{Resource as AnyResource};
ghost use Rattle.coarsen.specs.Coarsening.{is_needed, needed, children, lifted, coarsened, on_database};

use crate::level::Level;
use crate::subtree::holds;
use footprint::{Footprint, Resource, Right};
use std::alloc::Global;
use std::collections::BTreeMap;
use values::NoMemory;

/// Whether no ancestor has at least the right.
fn is_needed(footprint: &Footprint, resource: &Resource, right: Right) -> bool
    ensures { result ≡ is_needed footprint.now (resource.now, right) }
{
    match resource.parent() {
        Some(parent) => !footprint.covers(&parent, right),
        None => true,
    }
}

/// The entries that no entry on an ancestor covers.
fn needed(alloc: Global, footprint: &Footprint) -> Result<Footprint, NoMemory>
    ensures { IfOk result (λ new. new ≡ needed footprint.now) }
{
    let mut new = Footprint::new(alloc);
    for (resource, right) in footprint.iter() {
        if is_needed(footprint, resource, *right) {
            new.add(*resource, *right)?;
        }
    }
    Ok(new)
}

/// How many entries of a level each resource has as its children.
fn children(
    alloc: Global,
    footprint: &Footprint,
    level: Level,
) -> Result<BTreeMap<Resource, usize>, NoMemory>
    ensures { IfOk result (λ counts. (parent : AnyResource) →
        unwrap_or (count_at resource_cmp counts parent) 0 ≡ children level footprint.now parent) }
{
    let mut counts = BTreeMap::new(alloc);
    for (resource, _) in footprint.iter() {
        if let Some(parent) = level.parent(resource) {
            let count = counts.get(&parent).copied().unwrap_or(0);
            counts.insert(parent, count + 1)?;
        }
    }
    Ok(counts)
}

/// The footprint with the entries of a level replaced by one on their parent, wherever a parent has more than the
/// threshold of them.
fn lifted(
    alloc: Global,
    footprint: &Footprint,
    level: Level,
    threshold: usize,
) -> Result<Footprint, NoMemory>
    ensures { IfOk result (λ new. new ≡ lifted level threshold footprint.now) }
{
    let counts = children(alloc, footprint, level)?;
    let mut new = Footprint::new(alloc);
    for (resource, right) in footprint.iter() {
        let place = match level.parent(resource) {
            Some(parent) if counts.get(&parent).copied().unwrap_or(0) > threshold => parent,
            _ => *resource,
        };
        new.add(place, *right)?;
    }
    Ok(new)
}

/// Whether it is seen at a glance that no entry is under another. In tree order what is under an entry comes
/// right after it, so each entry is compared with the next one alone.
fn stand_apart(footprint: &Footprint) -> bool
    ensures { result ≡ true → needed footprint.now ≡ footprint.now }
{
    let mut last: Option<Resource> = None;
    for (resource, _) in footprint.iter() {
        if let Some(above) = last {
            if holds(&above, resource) {
                return false;
            }
        }
        last = Some(*resource);
    }
    true
}

/// Whether it is seen at a glance that coarsening leaves a footprint as it is: no entry is under another, and there
/// are at most the threshold of entries in all.
fn is_coarse(footprint: &Footprint, threshold: usize) -> bool
    ensures { result ≡ true → coarsened threshold footprint.now ≡ footprint.now }
{
    footprint.iter().len() <= threshold && stand_apart(footprint)
}

/// The entries that no entry on an ancestor covers, or `None` where it is seen at a glance that these are all.
fn needed_or_same(alloc: Global, footprint: &Footprint) -> Result<Option<Footprint>, NoMemory>
    ensures { IfOk result (λ new. unwrap_or new footprint.now ≡ needed footprint.now) }
{
    if stand_apart(footprint) {
        return Ok(None);
    }
    let new = needed(alloc, footprint)?;
    Ok(Some(new))
}

/// Whether a level has at most the threshold of entries in all, so that none of them go to their parent.
fn are_few(footprint: &Footprint, level: Level, threshold: usize) -> bool
    ensures { result ≡ true → lifted level threshold footprint.now ≡ footprint.now }
{
    let mut room = threshold;
    for (resource, _) in footprint.iter() {
        match level.parent(resource) {
            None => {}
            Some(_) if room == 0 => return false,
            Some(_) => room -= 1,
        }
    }
    true
}

/// The footprint with many entries of a level replaced, or `None` where it is seen at a glance that there are none.
fn lifted_or_same(
    alloc: Global,
    footprint: &Footprint,
    level: Level,
    threshold: usize,
) -> Result<Option<Footprint>, NoMemory>
    ensures { IfOk result (λ new. unwrap_or new footprint.now ≡ lifted level threshold footprint.now) }
{
    if are_few(footprint, level, threshold) {
        return Ok(None);
    }
    let new = lifted(alloc, footprint, level, threshold)?;
    Ok(Some(new))
}

/// The footprint with few entries: none that an ancestor's covers, and at most the threshold of rows of a partition and
/// of partitions of a table. `None` where that is seen to be the footprint itself: a step that changes nothing makes
/// nothing.
pub(crate) fn coarsened(
    alloc: Global,
    footprint: &Footprint,
    threshold: usize,
) -> Result<Option<Footprint>, NoMemory>
    ensures { IfOk result (λ new. unwrap_or new footprint.now ≡ coarsened threshold footprint.now) }
{
    if is_coarse(footprint, threshold) {
        return Ok(None);
    }
    let bare = needed_or_same(alloc, footprint)?;
    let from = bare.as_ref().unwrap_or(footprint);
    let lifted = lifted_or_same(alloc, from, Level::Rows, threshold)?;
    let rows_lifted = lifted.or(bare);
    let from = rows_lifted.as_ref().unwrap_or(footprint);
    let lifted = lifted_or_same(alloc, from, Level::Partitions, threshold)?;
    let partitions_lifted = lifted.or(rows_lifted);
    let from = partitions_lifted.as_ref().unwrap_or(footprint);
    let coarse = needed_or_same(alloc, from)?;
    Ok(coarse.or(partitions_lifted))
}

/// One entry on the database, with the greatest right of all.
pub(crate) fn on_database(alloc: Global, footprint: &Footprint) -> Result<Footprint, NoMemory>
    ensures { IfOk result (λ new. new ≡ on_database footprint.now) }
{
    let mut new = Footprint::new(alloc);
    for (_, right) in footprint.iter() {
        new.add(Resource::Db, *right)?;
    }
    Ok(new)
}
