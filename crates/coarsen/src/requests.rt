//! The requests for a footprint, while they are put together.

ghost use Rattle.std.specs.Prelude.{◌≡◌, ◌≤◌, IfOk, OnOk, true, max, if◌then◌else◌};
ghost use Rattle.footprint.specs.declared.resource.Resource.{Resource as AnyResource};
ghost use Rattle.modes.specs.Rights.{rank_of};
ghost use Rattle.modes.specs.Modes.{own, subtree};
ghost use Rattle.coarsen.specs.Subtrees.{own_on, subtree_on, is_same, holds};
ghost use Rattle.coarsen.specs.Plans.{IsPlanOf};

use crate::subtree::holds;
use footprint::{Footprint, Resource, Right, search};
use modes::{Mode, join};
use std::alloc::Global;
use std::marker::Model;
use values::NoMemory;

/// The requests of a plan that is put together: one a resource, in tree order. What a request asks for in its subtree,
/// the requests on its ancestors ask for in theirs.
#[derive(Drop)]
struct Draft {
    requests: Vec<(Resource, Mode)>,
}

impl Model for Draft {
    ghost use Rattle.std.specs.Prelude.{◌≡◌, ◌≤◌, true};
    ghost use Rattle.footprint.specs.declared.resource.Resource.{Resource as AnyResource};
    ghost use Rattle.footprint.specs.InTreeOrder.{IsInTreeOrder};
    ghost use Rattle.coarsen.specs.Subtrees.{Requests, holds, subtree_on};

    ghost Value = { Requests };

    ghost view = { λ d. d.requests.items };

    ghost invariant = { λ d. IsInTreeOrder d.requests.items
        × ((above resource : AnyResource) → holds above resource ≡ true
        → subtree_on d.requests.items resource ≤ subtree_on d.requests.items above) };
}

/// The mode of an entry of the footprint: its right on the resource itself, and so in the subtree.
fn whole(right: Right) -> Mode
    ensures own { own result ≡ rank_of right }
    ensures subtree { subtree result ≡ rank_of right }
{
    match right {
        Right::Read => Mode::Shared,
        Right::Write => Mode::Exclusive,
    }
}

/// The mode that a mode needs on the ancestors.
fn intention(mode: Mode) -> Mode
    ensures own { own result ≡ 0 }
    ensures subtree { subtree result ≡ subtree mode }
{
    match mode.subtree_right() {
        Right::Read => Mode::IntentionShared,
        Right::Write => Mode::IntentionExclusive,
    }
}

/// Whether a mode asks for at least the right of another in the subtree.
fn asks_as_much(asked: Mode, mode: Mode) -> bool
    ensures { result ≡ true → subtree mode ≤ subtree asked }
{
    match mode.subtree_right() {
        Right::Read => true,
        Right::Write => asked.subtree_right() == Right::Write,
    }
}

impl Draft {
    /// Joins a mode to the request on a resource, whose ancestors' requests ask for the mode's right already.
    fn request(&mut self, resource: Resource, mode: Mode) -> Result<(), NoMemory>
        requires { (above : AnyResource) → holds above resource ≡ true
            → subtree mode ≤ max (subtree_on self.old above) (if is_same above resource then subtree mode else 0) }
        ensures own { OnOk result ((r : AnyResource) →
            own_on self.new r ≡ max (own_on self.old r) (if is_same r resource then own mode else 0)) }
        ensures subtree { OnOk result ((r : AnyResource) →
            subtree_on self.new r ≡ max (subtree_on self.old r) (if is_same r resource then subtree mode else 0)) }
    {
        match search(&self.requests, &resource) {
            Ok(place) => {
                let joined = join(self.requests[place].1, mode);
                self.requests[place] = (resource, joined);
                Ok(())
            }
            Err(place) => {
                if place == self.requests.len() {
                    self.requests.push((resource, mode))?;
                } else {
                    self.requests.insert(place, (resource, mode))?;
                }
                Ok(())
            }
        }
    }

    /// Whether it is seen at a glance that the requests on a resource and on its ancestors ask for at least a mode's
    /// right in their subtrees: the last request is in the subtree of the resource, and asks for as much.
    fn serves_below(&self, parent: &Resource, mode: Mode) -> bool
        ensures { result ≡ true → (above : AnyResource) → holds above parent.now ≡ true
            → subtree mode ≤ subtree_on self.now above }
    {
        match self.requests.last() {
            Some((last, asked)) => holds(parent, last) && asks_as_much(*asked, mode),
            None => false,
        }
    }

    /// Joins a mode's intention to the requests on the ancestors, from the top down, and the mode to the request on the
    /// resource. So, for entries in tree order, what isn't requested yet comes at the end. The climb ends where the
    /// ancestors' requests are seen to serve the mode.
    fn request_up(&mut self, resource: Resource, mode: Mode) -> Result<(), NoMemory>
        ensures own { OnOk result ((r : AnyResource) →
            own_on self.new r ≡ max (own_on self.old r) (if is_same r resource then own mode else 0)) }
        ensures subtree { OnOk result ((r : AnyResource) →
            subtree_on self.new r ≡ max (subtree_on self.old r) (if holds r resource then subtree mode else 0)) }
    {
        match resource.parent() {
            None => self.request(resource, mode),
            Some(parent) if self.serves_below(&parent, mode) => self.request(resource, mode),
            Some(parent) => {
                self.request_up(parent, intention(mode))?;
                self.request(resource, mode)?;
                Ok(())
            }
        }
    }
}

/// The requests for a footprint as it is, in tree order.
pub(crate) fn requests_for(
    alloc: Global,
    footprint: &Footprint,
) -> Result<Vec<(Resource, Mode)>, NoMemory>
    ensures { IfOk result (λ requests. IsPlanOf footprint.now requests.items) }
{
    let entries = footprint.iter();
    let room = entries.len().saturating_mul(2).saturating_add(3);
    let mut draft = Draft {
        requests: Vec::with_capacity(alloc, room)?,
    };
    for (resource, right) in entries {
        draft.request_up(*resource, whole(*right))?;
    }
    Ok(draft.requests)
}
