//! Going through the rows of a partition, after the own writes.

ghost use Rattle.std.specs.Prelude.{◌≡◌, true, Some};
ghost use Rattle.workspace.specs.Overlay.{applied};
ghost use Rattle.workspace.specs.Coverage.{permits_part};
ghost use Rattle.workspace.specs.Walks.{IsNextKey, IsWalk, untouched, lesser, is_second, come_to};

use crate::shown::Shown;
use crate::view::RowView;
use crate::workspace::Workspace;
use values::{Key, RowName, TableNo};

/// The first key of a partition after a key, or from the start, at which the view has a row.
#[tactic(auto, using(crate::proofs::Untouched::shows_part))]
fn next_shown<V: RowView>(
    shown: &Shown<'_, V>,
    table: TableNo,
    part: u32,
    after: Option<Key>,
) -> Option<Key>
    requires covered { permits_part shown.now.permit table part ≡ true }
    ensures { IsNextKey shown.now.permit.catalogue.now (V.rows shown.now.view.now) table part after result }
{
    match shown.view.next_row(table, part, after) {
        Some(found) => Some(found.0),
        None => None,
    }
}

/// The first key of a partition after a key, or from the start, at which the view has a row and nothing was written.
fn next_untouched<V: RowView>(
    shown: &Shown<'_, V>,
    space: &Workspace,
    table: TableNo,
    part: u32,
    after: Option<Key>,
) -> Option<Key>
    requires covered { permits_part shown.now.permit table part ≡ true }
    ensures { IsNextKey shown.now.permit.catalogue.now
        (untouched space.now.writes.entries (V.rows shown.now.view.now)) table part after result }
{
    let mut at = after;
    while let Some(key) = next_shown(shown, table, part, at) {
        let name = RowName::new(table, key);
        if !space.writes.contains_key(&name) {
            return Some(name.key);
        }
        at = Some(name.key);
    }
    None
}

/// The lesser of two keys, if there is one.
fn lesser(one: Option<Key>, two: Option<Key>) -> Option<Key>
    ensures { result ≡ lesser one two }
{
    match (one, two) {
        (None, two) => two,
        (Some(one), None) => Some(one),
        (Some(one), Some(two)) => Some(if one < two { one } else { two }),
    }
}

/// Whether the second of two keys is the lesser one.
fn is_second(one: &Option<Key>, two: &Option<Key>) -> bool
    ensures { result ≡ is_second one.now two.now }
{
    match (one, two) {
        (_, None) => false,
        (None, Some(_)) => true,
        (Some(one), Some(two)) => one >= two,
    }
}

/// A walk over a partition by ascending key: the last key that it has come to, and what comes next of the view's rows
/// at whose names nothing was written, and of the own rows.
#[derive(Drop)]
pub(crate) struct Walk {
    after: Option<Key>,
    theirs: Option<Key>,
    own: Option<Key>,
}

impl Walk {
    /// A walk from the partition's start.
    pub(crate) fn start<V: RowView>(
        shown: &Shown<'_, V>,
        space: &Workspace,
        table: TableNo,
        part: u32,
    ) -> Walk
        requires covered { permits_part shown.now.permit table part ≡ true }
        ensures walk { IsWalk shown.now.permit.catalogue.now
            space.now.writes.entries (V.rows shown.now.view.now) table part result }
        ensures start { result.after ≡ None }
    {
        Walk {
            after: None,
            theirs: next_untouched(shown, space, table, part, None),
            own: space.next_own(shown.permit.catalogue, table, part, &None),
        }
    }

    /// The key that comes next, if there is one.
    pub(crate) fn next<V: RowView>(
        &mut self,
        shown: &Shown<'_, V>,
        space: &Workspace,
        table: TableNo,
        part: u32,
    ) -> Option<Key>
        requires covered { permits_part shown.now.permit table part ≡ true }
        requires walk { IsWalk shown.now.permit.catalogue.now
            space.now.writes.entries (V.rows shown.now.view.now) table part self.old }
        ensures next { IsNextKey shown.now.permit.catalogue.now
            (applied space.now.writes.entries (V.rows shown.now.view.now)) table part self.old.after result }
        ensures walk { IsWalk shown.now.permit.catalogue.now
            space.now.writes.entries (V.rows shown.now.view.now) table part self.new }
        ensures after { self.new.after ≡ come_to self.old.after result }
    {
        let key = lesser(self.theirs, self.own)?;
        if is_second(&self.theirs, &self.own) {
            self.own = space.next_own(shown.permit.catalogue, table, part, &Some(key));
        } else {
            self.theirs = next_untouched(shown, space, table, part, Some(key));
        }
        self.after = Some(key);
        Some(key)
    }
}
