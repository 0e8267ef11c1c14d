//! The bank whose calls are tried: its setup, the text of the log, and what is made of them.

ghost use Rattle.std.specs.Prelude.{◌≡◌, ◌≤◌, IfSome, length};
ghost use Rattle.std.specs.List.{AllByRecursion};
ghost use Rattle.sequencer.specs.Batches.{items_of, AreOver};

use crate::texts::{FIRST_CALLS, SECOND_CALLS};
use batch_log::{LogReader, ReadSource};
use requests::{Procs, Request};
use sequencer::Batch;
use setup::{Setup, read_setup};
use std::alloc::{AllocError, Global};

/// A setup with each kind of statement. `renew` does what `turn` does, and has its footprint found.
pub const BANK: &str = r#"["setup",1,
["catalogue",1,[["acct",2,[["bal","int"]]],["note",1,[["of","int"],["s","text"]]]]],
["procs",1,[
["pay",[["a","int"],["b","int"],["n","int"]],
 ["declared",["row","w","acct","a"],["row","w","acct","b"]],
 [["get","x","acct","a","bal"],["get","y","acct","b","bal"],
  ["if",["<","x","n"],[["abort",100]],[]],
  ["put","acct","a","bal",["-","x","n"]],
  ["put","acct","b","bal",["+","y","n"]],
  ["reply",["-","x","n"]]]],
["peek",[["k","int"]],["declared",["row","r","acct","k"]],
 [["get","x","acct","k","bal"],["reply","x"]]],
["turn",[["s","text"]],["declared",["table","w","note"]],
 [["let","c",0],
  ["each","k","note",0,[["get","n","note","k","of"],["let","c",["+","c","n"]],["delete","note","k"]]],
  ["for","i",1,2,[["insert","note","i",[["*","i",10],"s"]]]],
  ["if",["exists","note",9],[["abort",101]],[["put","note",1,"of",["+","c",1]]]],
  ["reply","c",["count","note",0],["sum","note",0,"of"],"s"]]],
["renew",[["s","text"]],["recon"],
 [["let","c",0],
  ["each","k","note",0,[["get","n","note","k","of"],["let","c",["+","c","n"]],["delete","note","k"]]],
  ["for","i",1,2,[["insert","note","i",[["*","i",10],"s"]]]],
  ["if",["exists","note",9],[["abort",101]],[["put","note",1,"of",["+","c",1]]]],
  ["reply","c",["count","note",0],["sum","note",0,"of"],"s"]]]]],
["rows",1,[["acct",1,[100]],["acct",2,[100]],["acct",3,[100]],["acct",4,[100]],["acct",5,[100]],["acct",6,[100]],
 ["note",7,[1,"paid"]],["note",8,[2,""]]]]]"#;

/// The text of the log, with a text between its halves.
pub fn log_text(alloc: Global, between: &str) -> Result<String, AllocError> {
    format!(in alloc; "{FIRST_CALLS}{between}{SECOND_CALLS}")
}

/// The bank's setup.
pub fn bank(alloc: Global) -> Option<Setup> {
    Some(read_setup(alloc, BANK.as_bytes()).ok()?.setup)
}

/// The requests of the first batch of a log; `None` where it has none, or allocation fails.
fn requests_in(alloc: Global, procs: &Procs, log: &str) -> Option<Vec<Request>>
    ensures tables { IfSome result (λ requests.
        AllByRecursion (λ request. request.proc.tables ≡ procs.now.tables) requests.items) }
    ensures few { IfSome result (λ requests. length requests.items ≤ 4096) }
{
    let mut source = ReadSource::new(log.as_bytes());
    let mut reader = LogReader::new(&mut source, 0);
    reader.next_batch(alloc, procs).ok()?
}

/// The batch of these requests.
pub fn batch_of(alloc: Global, _procs: &Procs, requests: Vec<Request>) -> Option<Batch>
    requires { AllByRecursion (λ request. request.proc.tables ≡ _procs.now.tables) requests.items }
    ensures { IfSome result (λ batch. AreOver _procs.now.tables (items_of batch)) }
{
    match Batch::of(alloc, requests) {
        Ok(batch) => Some(batch),
        Err(_) => None,
    }
}

/// The first batch of a log; `None` where it has none, or allocation fails.
pub fn batch_in(alloc: Global, procs: &Procs, log: &str) -> Option<Batch>
    ensures { IfSome result (λ batch. AreOver procs.now.tables (items_of batch)) }
{
    let requests = requests_in(alloc, procs, log)?;
    batch_of(alloc, procs, requests)
}

/// The batch of the log, with the calls of a text between its halves.
pub fn batch_with(alloc: Global, procs: &Procs, between: &str) -> Option<Batch>
    ensures { IfSome result (λ batch. AreOver procs.now.tables (items_of batch)) }
{
    let log = log_text(alloc, between).ok()?;
    batch_in(alloc, procs, log.as_str())
}

/// The batch of the log.
pub fn batch(alloc: Global, procs: &Procs) -> Option<Batch>
    ensures { IfSome result (λ batch. AreOver procs.now.tables (items_of batch)) }
{
    batch_with(alloc, procs, "")
}
