//! What is granted of a queue.

ghost use Rattle.std.specs.Prelude.{◌≡◌, ◌<◌, [], ◌∷◌, ◌++◌};
ghost use Rattle.std.specs.Vec.{vec_len, vec_capacity};
ghost use Rattle.lock_tree.specs.declared.line.Line.{Line as AnyLine};
ghost use Rattle.lock_tree.specs.Granted.{IsEmpty};

use crate::held::Held;
use request_arena::NodeId;

/// How many requests of a queue are granted from the front on, how many of these in each
/// mode, and the first of those that wait.
#[derive(Clone, Copy)]
pub(crate) struct Line {
    pub(crate) granted: u32,
    pub(crate) held: Held,
    pub(crate) waiting: Option<NodeId>,
}

/// Puts the line of an empty queue after the others. There is room for it.
pub(crate) fn push_empty(lines: &mut Vec<Line>)
    requires { vec_len lines.old < vec_capacity lines.old }
    ensures lines { (line : AnyLine) × (lines.new.items ≡ lines.old.items ++ line ∷ []) × IsEmpty line }
    ensures capacity { vec_capacity lines.new ≡ vec_capacity lines.old }
{
    let waiting: Option<NodeId> = None;
    lines.push_reserved(Line {
        granted: 0,
        held: Held::none(),
        waiting,
    });
}
