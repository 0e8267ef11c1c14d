//! The lock tree and the plain program on the same steps.

ghost use Rattle.std.specs.Prelude.{◌+◌, ◌<◌, ℕ};
ghost use Rattle.lock_tree.specs.Enqueues.{AreBelow};

use crate::chance::Chance;
use crate::plain_locks::Plain;
use coarsen::Plan;
use footprint::{Footprint, InPart, InTable, Resource};
use lock_tree::{EnqueueFault, LockTree};
use proclang_types::Right;
use std::alloc::Global;
use std::process::Abort;
use std::test::Fail;
use values::TableNo;

/// Something in a partition of a table.
fn in_part(part: u32, below: InPart) -> Resource {
    Resource::Table(TableNo::new(0), InTable::Part(part, below))
}

/// A row seven times of ten, else a partition, the table or the database.
fn some_resource(chance: &mut Chance) -> Resource {
    match chance.below(20) {
        0 => Resource::Db,
        1 | 2 => Resource::Table(TableNo::new(0), InTable::WholeTable),
        3 => in_part(0, InPart::WholePart),
        4 | 5 => in_part(1, InPart::WholePart),
        _ => {
            let key = chance.below(6);
            in_part((key % 2) as u32, InPart::Row(key))
        }
    }
}

fn some_plan(alloc: Global, chance: &mut Chance) -> Result<Plan, Fail> {
    let mut footprint = Footprint::new(alloc);
    let rights = chance.below(4);
    for _ in 0..rights {
        let resource = some_resource(chance);
        let right = if chance.below(3) == 0 {
            Right::Write
        } else {
            Right::Read
        };
        footprint.add(resource, right)?;
    }
    Ok(Plan::new(alloc, &footprint, 3, 12)?)
}

/// Enqueues a transaction in both.
#[tactic(auto, using(crate::proofs::Less::next, crate::proofs::Less::appended))]
fn add(
    rt: &impl Abort,
    alloc: Global,
    tree: &mut LockTree,
    plain: &mut Plain,
    no: u64,
    plan: &Plan,
) -> Result<(), Fail>
    requires { AreBelow no tree.old.waiting }
    ensures { AreBelow (no + 1) tree.new.waiting }
{
    match tree.enqueue(no, plan) {
        Ok(()) => assert!(rt; plain.enqueue(alloc, no, plan)?),
        Err(EnqueueFault::Full) => assert!(rt; !plain.enqueue(alloc, no, plan)?),
        Err(EnqueueFault::NoMemory) => return Err(Fail::from("out of memory")),
    }
    Ok(())
}

/// Marks, unmarks or releases a ready transaction in both.
#[tactic(auto, using(lock_tree::proofs::Below::ready_there, crate::proofs::Less::marked, crate::proofs::Less::removed))]
fn change(tree: &mut LockTree, plain: &mut Plain, no: u64, kind: u64)
    ensures { (above : ℕ) → AreBelow above tree.old.waiting → AreBelow above tree.new.waiting }
{
    if !tree.is_ready(no) {
        return;
    }
    if kind == 0 {
        tree.mark(no);
        plain.set_mark(no, true);
    } else if kind == 1 {
        tree.unmark(no);
        plain.set_mark(no, false);
    } else {
        tree.release(no);
        plain.release(no);
    }
}

/// The same of the next ready transaction.
fn change_next(tree: &mut LockTree, plain: &mut Plain, kind: u64)
    ensures { (above : ℕ) → AreBelow above tree.old.waiting → AreBelow above tree.new.waiting }
{
    if let Some(ready) = plain.next_ready() {
        change(tree, plain, ready, kind);
    }
}

/// Ten thousand steps: a transaction comes, and one of the last ones is marked, unmarked or released if it is ready, as
/// is mostly the next ready one.
#[test]
fn queues_and_one_list_agree(rt: HostRuntime) -> Result<(), Fail> {
    let alloc = rt.alloc();
    let mut tree = LockTree::new(alloc, 40)?;
    let mut plain = Plain::new(alloc, 40);
    let mut chance = Chance(2026);
    'steps: for no in 0..10_000u64 {
        let plan = some_plan(alloc, &mut chance)?;
        add(&rt, alloc, &mut tree, &mut plain, no, &plan)?;
        let other = no.saturating_sub(chance.below(24));
        assert_eq!(rt; tree.is_ready(other), plain.is_ready(other));
        let kind = chance.below(4);
        change(&mut tree, &mut plain, other, kind);
        assert_eq!(rt; tree.next_ready(), plain.next_ready());
        let kind = chance.below(3);
        change_next(&mut tree, &mut plain, kind);
        assert_eq!(rt; tree.next_ready(), plain.next_ready());
    }
    Ok(())
}
