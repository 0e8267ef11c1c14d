//! The bank's tables, and procedures that declare what the tests ask for.

use catalogue::Catalogue;
use coarsen::Plan;
use interp::Entry;
use proclang::{Request, read_procs};
use row_store::{RowStore, all_is_free_with_nothing_lent};
use sequencer::{Batch, prepare};
use serde_json::Value as Json;
use std::alloc::Global;
use std::test::Fail;
use values::Value;

const BANK: &str = r#"["catalogue",1,[["acct",2,[["bal","int"]]],["ref",1,[["to","int"]]]]]"#;

/// Procedures without bodies. Those of one number, which is a key or a partition, are for clashes.
const PROCS: &str = r#"["procs",1,[
["pay",[["a","int"],["b","int"]],["declared",["row","w","acct","a"],["row","w","acct","b"]],[]],
["sum",[["a","int"],["b","int"]],["declared",["row","w","acct",["+","a","b"]],["row","w","acct","b"]],[]],
["in_part",[["p","int"],["k","int"]],["declared",["part","r","acct","p"],["row","w","acct","k"]],[]],
["then_write",[["p","int"]],["declared",["part","r","acct","p"],["part","w","acct","p"]],[]],
["then_read",[["p","int"]],["declared",["part","w","acct","p"],["part","r","acct","p"]],[]],
["write_read",[],["declared",["row","w","acct",2],["row","r","acct",4]],[]],
["mix",[],["declared",["part","r","acct",0],["row","w","acct",2]],[]],
["rows_of_table",[],["declared",["table","r","acct"],["row","r","acct",2],["row","w","acct",4]],[]],
["parts",[],["declared",["part","w","acct",0],["part","r","acct",1],["row","r","acct",3]],[]],
["all",[],["declared",["db","r"],["table","w","acct"]],[]],
["hop",[],["declared",["row","w","acct",2],["row","r","ref",1]],[]],
["none",[],["declared"],[]],
["read_row",[["n","int"]],["declared",["row","r","acct","n"]],[]],
["write_row",[["n","int"]],["declared",["row","w","acct","n"]],[]],
["read_part",[["n","int"]],["declared",["part","r","acct","n"]],[]],
["write_part",[["n","int"]],["declared",["part","w","acct","n"]],[]],
["read_table",[["n","int"]],["declared",["table","r","acct"]],[]],
["write_table",[["n","int"]],["declared",["table","w","acct"]],[]],
["read_ref",[["n","int"]],["declared",["row","r","ref","n"]],[]],
["write_ref",[["n","int"]],["declared",["row","w","ref","n"]],[]],
["write_refs",[["n","int"]],["declared",["table","w","ref"]],[]],
["read_db",[["n","int"]],["declared",["db","r"]],[]],
["write_db",[["n","int"]],["declared",["db","w"]],[]]
]]"#;

/// The tables of the bank.
pub(crate) fn bank(alloc: Global) -> Result<Catalogue, Fail> {
    Ok(Catalogue::read(alloc, &Json::from_str(alloc, BANK)?)?)
}

/// The entries of a batch of one call.
pub(crate) fn entries(alloc: Global, name: &str, numbers: &[i64]) -> Result<Vec<Entry>, Fail> {
    let catalogue = bank(alloc)?;
    let procs = read_procs(alloc, &Json::from_str(alloc, PROCS)?, &catalogue)?;
    let mut values = Vec::new(alloc);
    for number in numbers {
        values.push(Value::Int(*number))?;
    }
    let request = Request::new(&procs, name, values)?;
    let batch = Batch::of(alloc, vec![in alloc; request]?)?;
    let store = RowStore::new(alloc, &catalogue, Vec::new(alloc))?;
    all_is_free_with_nothing_lent();
    Ok(prepare(alloc, &batch, &catalogue, &procs, &store)?)
}

/// The plan of a call, with this threshold and `most` requests at most.
pub(crate) fn plan(
    alloc: Global,
    (name, numbers): (&str, &[i64]),
    threshold: usize,
    most: usize,
) -> Result<Plan, Fail> {
    let entries = entries(alloc, name, numbers)?;
    let entry = entries.first().ok_or("an entry")?;
    let footprint = entry.footprint().ok_or("a footprint")?;
    if most == 0 {
        return Err(Fail::from("no request"));
    }
    Ok(Plan::new(alloc, footprint, threshold, most)?)
}
