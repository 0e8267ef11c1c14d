//! Room for requests.

ghost use Rattle.std.specs.Prelude.{◌≡◌, ◌+◌, length};
ghost use Rattle.request_arena.specs.Lists.{free_nodes, live_nodes};

use crate::queues::Queues;

impl Queues {
    /// How many nodes are free. With the live ones they are all that there are.
    pub fn free(&self) -> usize
        ensures free { result ≡ free_nodes self.now.held }
        ensures whole { result + live_nodes self.now.held ≡ length self.now.held }
    {
        self.free
    }
}
