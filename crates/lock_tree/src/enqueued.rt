//! The transactions that are enqueued and not released.

ghost use Rattle.std.specs.Prelude.{◌≡◌, false};
ghost use Rattle.lock_tree.specs.Views.{waiting_of};

use coarsen::Plan;
use request_arena::NodeId;
use std::marker::Model;
use std::snapshot::Snapshot;

/// A transaction, and whether each of its requests is granted, in few bytes: `head` says nothing where it has no node.
/// Its number and its plan are there as clauses see them, which takes no room.
#[derive(Drop)]
pub(crate) struct Enqueued {
    no: Snapshot<u64>,
    plan: Snapshot<Plan>,
    // The node of the first request, from which a chain leads to those of the others.
    head: u32,
    has_head: bool,
    marked: bool,
    ready: bool,
}

impl Model for Enqueued {
    ghost use Rattle.std.specs.Prelude.{Some, None, if◌then◌else◌};
    ghost use Rattle.lock_tree.specs.Entered.{Enqueued as Seen, enqueued_code};

    ghost Value = { Seen };

    ghost coded = { enqueued_code };

    ghost view = { λ e. record {
      no = e.no.value;
      plan = record { value = e.plan.value };
      head = if e.has_head then Some e.head
          else None;
      marked = e.marked;
      ready = e.ready;
    } };
}

impl Enqueued {
    ghost use Rattle.lock_tree.specs.Open.{is_open};

    /// A transaction without a mark that waits.
    pub(crate) fn new(no: u64, plan: &Plan) -> Enqueued
        ensures waiting { waiting_of result ≡ record { no = no; plan = plan.now; marked = false } }
        ensures waits { result.ready ≡ false }
    {
        Enqueued {
            no: Snapshot::of(&no),
            plan: Snapshot::of(plan),
            head: 0,
            has_head: false,
            marked: false,
            ready: false,
        }
    }

    /// The node of the first request, from which a chain leads to those of the others.
    pub(crate) fn head(&self) -> Option<NodeId>
        ensures { result ≡ self.now.head }
    {
        if self.has_head {
            Some(NodeId::of(self.head))
        } else {
            None
        }
    }

    pub(crate) fn set_head(&mut self, head: Option<NodeId>)
        ensures { self.new ≡ record self.old { head = head } }
    {
        match head {
            Some(node) => {
                self.head = node.number();
                self.has_head = true;
            }
            None => self.has_head = false,
        }
    }

    pub(crate) fn set_mark(&mut self, mark: bool)
        ensures { self.new ≡ record self.old { marked = mark } }
    {
        self.marked = mark;
    }

    pub(crate) fn set_ready(&mut self, ready: bool)
        ensures { self.new ≡ record self.old { ready = ready } }
    {
        self.ready = ready;
    }

    /// Whether each of its requests is granted.
    pub(crate) fn is_ready(&self) -> bool
        ensures { result ≡ self.now.ready }
    {
        self.ready
    }

    /// Whether it is ready and not marked.
    pub(crate) fn is_open(&self) -> bool
        ensures { result ≡ is_open self.now }
    {
        !self.marked && self.ready
    }
}
