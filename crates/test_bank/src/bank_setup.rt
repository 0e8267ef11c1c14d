//! The bank.

use setup::{Setup, SetupFault, read_setup};
use std::alloc::Global;

/// What the bodies of the bank's procedures are like.
#[derive(Clone, Copy, Debug, PartialEq, Eq)]
pub enum Bodies {
    /// Few statements without a loop: where the gate is open, an engine runs such a call on the thread that called it.
    Brief,
    /// The same after a loop of one turn in which nothing is done, and whose last number is a sum: how many turns it
    /// has is not known before, so the call isn't brief. The replies are the same.
    Looping,
    /// `peek` has such a loop, and no other.
    LoopingPeek,
}

impl Bodies {
    /// What the body of `peek` begins with, and what each other one does.
    fn beginnings(self) -> (&'static str, &'static str) {
        match self {
            Bodies::Brief => ("", ""),
            Bodies::Looping => (LOOP, LOOP),
            Bodies::LoopingPeek => (LOOP, ""),
        }
    }
}

/// A loop of one turn in which nothing is done. Its last number is a sum.
const LOOP: &str = r#"["for","once",1,["+",0,1],[]],"#;

/// The setup, with a `%` where the body of `peek` begins, and an `@` where each other one does.
const BANK: &str = r#"["setup",1,
["catalogue",1,[["acct",2,[["bal","int"]]],["ref",1,[["to","int"]]]]],
["procs",1,[
["pay",[["a","int"],["b","int"],["n","int"]],
 ["declared",["row","w","acct","a"],["row","w","acct","b"]],
 [@["get","x","acct","a","bal"],["get","y","acct","b","bal"],
  ["if",["<","x","n"],[["abort",100]],[]],
  ["put","acct","a","bal",["-","x","n"]],
  ["put","acct","b","bal",["+","y","n"]],
  ["reply",["-","x","n"]]]],
["peek",[["k","int"]],["declared",["row","r","acct","k"]],
 [%["get","x","acct","k","bal"],["reply","x"]]],
["ins",[["k","int"],["v","int"]],["declared",["row","w","acct","k"]],
 [@["insert","acct","k",["v"]]]],
["cnt",[],["declared",["part","r","acct",0]],
 [@["reply",["count","acct",0]]]],
["set",[["k","int"],["v","int"]],["declared",["row","w","ref","k"]],
 [@["put","ref","k","to","v"]]],
["hop",[["k","int"]],["recon"],
 [@["get","t","ref","k","to"],["get","x","acct","t","bal"],
  ["put","acct","t","bal",["+","x",1]],["reply","t"]]],
["bad5",[],["declared",["row","r","acct",1],["row","r","acct",3]],
 [@["get","x","acct",5,"bal"],["reply","x"]]]]],
["rows",1,[["acct",1,[100]],["acct",2,[100]],["ref",1,[2]]]]]"#;

/// The bank: the accounts 1 and 2 with 100 each, and procedures with such bodies.
pub fn bank(alloc: Global, bodies: Bodies) -> Result<Setup, SetupFault> {
    let (peek, others) = bodies.beginnings();
    let text = BANK.replace(alloc, "%", peek)?;
    let text = text.replace(alloc, "@", others)?;
    Ok(read_setup(alloc, text.as_bytes())?.setup)
}
