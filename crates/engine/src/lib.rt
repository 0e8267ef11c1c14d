//! The engine: runs batches of calls, one after another, on the rows of a database.
//!
//! Proved, by one contract of `Engine::execute`, `execute_in` and `run_alone`, whatever the settings, the threads'
//! order and the choices of events: the replies are those of the batch's attempts one by one on the rows before it,
//! carried requests first, with numbers, clients and first attempts; the rows are theirs; carried on are exactly the
//! stale requests with fewer earlier attempts than allowed. A batch comes back exactly from a busy engine or where the
//! log would pass 2^48 transactions. If a thread is refused or allocation fails the engine holds the batch with all
//! that was carried, and the rows before it, and no job is out; if it was a thread, nothing has run. `resume`,
//! `resume_in` and `resume_alone` go on, and give the replies of the whole batch; what was settled stays settled.
//! `QuietEngine::execute`, `execute_by` and `resume`: the same on the calling thread, without a tally; they have no
//! leave to wait, so they return. `repartition`: over other splits rows and promises stay; an error, `Busy` or
//! `Different`, comes exactly where it should, and changes nothing.
//!
//! The last published tally counts the settled transactions, by how they ended, and one was published for each.
//! `watch`: one published tally, whole, never below what that watcher has read or was told. `tell`: what a watcher had
//! seen begins the engine's list.
//!
//! Tested only: that jobs run at the same time and each passes a gate that isn't open once; many lists of choices
//! beside a plain program; watchers in threads while 1,000 calls run. Not proved: that calls return, except of
//! `QuietEngine`; that a `WorkerPool` keeps its threads and ends them; when a tally is seen; that memory or a thread
//! was refused.
#![tactic(auto)]

mod batch_engine;
mod beginning;
mod configuration;
mod ending;
mod engine;
mod fault;
mod pooled;
mod publishing;
mod quiet;
mod repartition;
mod replies;
mod side_by_side;
mod stage;
mod threadless;
mod working;

pub use batch_engine::BatchEngine;
pub use dispatcher::{
    BadSetting, Gate, HeadSeat, OpenGate, Settings, WorkerPool, Workplace,
    settled_transactions_are_counted, tallies_add_up,
};
pub use engine::Engine;
pub use fault::ExecFault;
pub use progress::{Tally, Watcher};
pub use quiet::QuietEngine;
pub use repartition::RepartFault;
pub use replies::{BatchDone, Reply};
pub use sequencer::{Batch, BatchFault, Item};
