//! The queues of resources.

ghost use Rattle.std.specs.Prelude.{◌≡◌, [], IfOk, OnOk};
ghost use Rattle.footprint.specs.declared.resource.Resource.{Resource as AnyResource};
ghost use Rattle.request_arena.specs.Lists.{free_nodes};
ghost use Rattle.lock_tree.specs.Entered.{Enqueued as AnyEnqueued};
ghost use Rattle.lock_tree.specs.Lines.{line, number_of, HasRoom};
ghost use Rattle.lock_tree.specs.Numbered.{IsNumbered};
ghost use Rattle.lock_tree.specs.Granted.{AreGranted};
ghost use Rattle.lock_tree.specs.Chained.{IsChained};

use crate::line::Line;
use crate::resource_key::ResourceKey;
use footprint::Resource;
use request_arena::Queues;
use std::alloc::Global;
use std::collections::HashMap;
use values::NoMemory;

/// The requests on each resource, in order: each is a node of a queue, and of the chain of its transaction. A resource
/// that anyone asks for has the number of a queue; the number of a queue that became empty is vacant.
#[derive(Drop)]
pub(crate) struct Lines {
    pub(crate) nodes: Queues,
    // Found by a hash whose seed is fixed: who picks the keys can make this slow, but no answer depends on it.
    pub(crate) numbers: HashMap<ResourceKey, usize>,
    // By the queue's number: its resource, and what is granted.
    pub(crate) resources: Vec<Resource>,
    pub(crate) lines: Vec<Line>,
    pub(crate) vacant: Vec<usize>,
}

impl Lines {
    /// Room for `arena` requests, and none yet.
    pub(crate) fn new(alloc: Global, arena: usize) -> Result<Lines, NoMemory>
        ensures numbered { IfOk result (λ lines. IsNumbered lines None) }
        ensures granted { IfOk result AreGranted }
        ensures empty { IfOk result (λ lines. (r : AnyResource) → line lines r ≡ []) }
        ensures free { IfOk result (λ lines. free_nodes lines.nodes.held ≡ arena) }
    {
        let nodes = Queues::with_capacity(alloc, arena, arena)?;
        // proof: there are fewer nodes than numbers for them.
        nodes.nodes_are_few();
        Ok(Lines {
            nodes,
            numbers: HashMap::new(alloc),
            resources: Vec::with_capacity(alloc, arena)?,
            lines: Vec::with_capacity(alloc, arena)?,
            vacant: Vec::with_capacity(alloc, arena)?,
        })
    }

    /// Makes room for the numbers of `count` more resources.
    pub(crate) fn make_room(&mut self, count: usize) -> Result<(), NoMemory>
        requires numbered { IsNumbered self.old None }
        requires granted { AreGranted self.old }
        ensures numbered { IsNumbered self.new None }
        ensures granted { AreGranted self.new }
        ensures same { (other : AnyResource) → line self.new other ≡ line self.old other }
        ensures free { free_nodes self.new.nodes.held ≡ free_nodes self.old.nodes.held }
        ensures room { OnOk result (HasRoom self.new count) }
        ensures chained { (entry : AnyEnqueued) → IsChained self.old entry → IsChained self.new entry }
    {
        self.numbers.reserve(count)?;
        Ok(())
    }

    /// The number of a resource's queue, if anyone asks for the resource.
    pub(crate) fn number_of(&self, resource: &Resource) -> Option<usize>
        ensures { result ≡ number_of self.now resource.now }
    {
        let key = ResourceKey {
            resource: *resource,
        };
        self.numbers.get(&key).copied()
    }
}
