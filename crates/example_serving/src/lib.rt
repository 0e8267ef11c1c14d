//! A server in small: clients in threads of their own submit calls by the names of procedures, and one owner draws
//! them, makes requests of them, executes these on workers and answers each client.
//!
//! Proved, by `run_clients`, which can't run out of memory: each client has submitted its log, whole, in order, and
//! nothing else. `take_in`: the requests that procedures make of drawn calls, in order, and for each call who asked and
//! why it is no request, if it is none. `serve`, however it ends: there is one list of calls, in which each client's
//! are numbered from 0 in order, each once, and are its log; a first part of it was answered, in batches; what was told
//! is what the serial run of that part answers, in its order, each attempt under its own client and number, and the
//! engine's rows are those that it leaves. After `Ok` that part is the whole list, the engine holds no batch, and
//! nothing is carried. After `LogFull` it holds no batch, and the calls that come next would pass 2^48 transactions;
//! after `Spawn` it holds their requests, after `NoMemory` those or nothing. `told_by_client` is exact. Law:
//! `nothing_is_said_again_without_retries`.
//!
//! Tested only, by `test_serving_and_watching`: four clients of 1,000 calls each beside a plain program. Not proved:
//! that `run_clients` and `serve` return; how the list is cut in batches; that memory or a thread was refused.
#![tactic(auto)]

mod answering;
mod by_client;
mod call;
mod client;
mod clients;
mod laws;
mod owner;
mod service;
mod taking_in;
mod told;

pub use by_client::told_by_client;
pub use call::{CallItem, ClientCall};
pub use clients::run_clients;
pub use laws::nothing_is_said_again_without_retries;
pub use service::serve;
pub use taking_in::{Asked, take_in};
pub use told::{Answer, ServeFault, Told};
