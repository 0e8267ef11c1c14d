//! What lies in a lane, what a seat knows, and the rule that ties the two.

ghost use Rattle.std.specs.Prelude.{◌≡◌};

use crate::state::Note;
use atomic_table::{Seat, Table, TableRule};
use std::alloc::{Allocator, Global};
use std::collections::LinkedList;
use std::marker::PhantomData;

/// What it is for a `D` to come of a `J`.
pub trait Work<J, D> {
    ghost comes_of: { J → D → Type 0 };
}

/// What lies in the slot of a lane.
#[derive(Drop)]
pub enum Load<J, D> {
    /// A job that waits.
    Job(J),
    /// What came of a job.
    Done(D),
}

/// What the scheduler knows of a lane.
pub enum Known<J> {
    /// It has no job.
    Idle,
    /// The scheduler is putting a job there.
    Filling,
    /// This job was put there and isn't collected.
    Put(J),
    /// What came of this job is being collected.
    Draining(J),
}

/// A claim: the number of the put, from 0, the lane, and the job.
pub struct Claim<J> {
    pub put: u64,
    pub lane: usize,
    pub job: J,
}

/// What a seat knows. No value of it is made.
pub struct View<J> {
    /// Whether it is the scheduler's.
    pub schedules: bool,
    /// What the scheduler knows of each lane.
    pub known: LinkedList<Known<J>>,
    /// All that the scheduler put: the lanes, each with its job, in order.
    pub puts: LinkedList<(usize, J)>,
    /// At each lane the job that a worker claimed there and hasn't delivered.
    pub claimed: LinkedList<Option<J>>,
    /// All that a worker claimed, in order.
    pub claims: LinkedList<Claim<J>>,
    /// The lanes that were looked at for a job or a result, in order.
    pub notes: LinkedList<Note>,
}

/// The rule of the lanes.
pub struct LaneRule<W> {
    work: PhantomData<W>,
}

impl<J, D, W: Work<J, D>> TableRule<Option<Load<J, D>>, View<J>, usize> for LaneRule<W> {
    ghost use Rattle.hand_off.specs.Rule.{Laned};
    ghost use Rattle.hand_off.specs.Views.{opened};

    ghost holds = { λ _. Laned W.comes_of };

    ghost first = { opened };
}

// It is apart from the alias below, since a struct imports all that its file's ghost members name.
/// A table of as many words as slots, under a rule.
#[derive(Drop)]
pub struct LaneTable<S, V, Q: TableRule<S, V, usize>, A: Allocator> {
    pub table: Table<S, V, usize, Q, A>,
    pub count: usize,
    ghost counted: { (table.shared.table_id.words ≡ count) × (table.shared.table_id.slots ≡ count) },
}

/// Lanes for jobs `J`, of which `D` comes as `W` says.
pub type Lanes<J, D, W, A = Global> = LaneTable<Option<Load<J, D>>, View<J>, LaneRule<W>, A>;

/// A seat of lanes, the scheduler's or a worker's. It has no bytes.
pub type LaneSeat<J, D> = Seat<Option<Load<J, D>>, View<J>>;
