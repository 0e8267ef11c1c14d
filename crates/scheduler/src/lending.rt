//! Lending rows to a transaction, and taking them back.

ghost use Rattle.std.specs.Prelude.{◌≡◌, true, false, if◌then◌else◌, Some, IfOk, OnOk, OnErr, IsSome};
ghost use Rattle.std.specs.FinMap as map;
ghost use Rattle.values.specs.declared.name.RowName.{RowName as Name};
ghost use Rattle.proclang_types.specs.declared.right.Right.{Right};
ghost use Rattle.coarsen.specs.Clashes.{locks_row};
ghost use Rattle.meaning.specs.Frame.{touches};
ghost use Rattle.interp.specs.Entries.{entry_shape};
ghost use Rattle.lock_tree.specs.Locks.{plan_of, with_mark, without};
ghost use Rattle.lock_tree.specs.Ready.{ready};
ghost use Rattle.scheduler.specs.Lending.{CanBeLent, IsJobFor};

use crate::job::Job;
use coarsen::Plan;
use interp::Entry;
use lock_tree::LockTree;
use row_store::RowStore;
use std::alloc::Global;
use values::NoMemory;

/// Whether a transaction is ready. The least of those that are open is, without a look for it.
pub(crate) fn is_ready(locks: &LockTree, no: u64) -> bool
    ensures { result ≡ ready locks.now.waiting no }
{
    match locks.next_ready() {
        Some(least) if least == no => true,
        _ => locks.is_ready(no),
    }
}

/// The job of a transaction: the rows that its plan locks are lent to it, and it is marked.
/// On an error nothing has changed.
pub(crate) fn lend_to(
    alloc: Global,
    store: &mut RowStore,
    locks: &mut LockTree,
    no: u64,
    entry: &Entry,
    plan: &Plan,
) -> Result<Job, NoMemory>
    requires tables { entry.now.request.proc.tables ≡ store.old.tables }
    requires locks { (name : Name) (right : Right) → touches (entry_shape entry.now) name right ≡ true →
        locks_row store.old.tables plan.now name right ≡ true }
    requires can { CanBeLent store.old no plan.now }
    requires there { IsSome (plan_of locks.old.waiting no) }
    ensures tables { store.new.tables ≡ store.old.tables }
    ensures rows { store.new.rows ≡ store.old.rows }
    ensures lent { OnOk result (store.new.lent ≡ map.insert store.old.lent no plan.now) }
    ensures marked { OnOk result (locks.new ≡ record locks.old { waiting = with_mark no true locks.old.waiting }) }
    ensures err { OnErr result ((store.new ≡ store.old) × (locks.new ≡ locks.old)) }
    ensures job { IfOk result (IsJobFor store.old no entry.now plan.now) }
{
    let entry = entry.clone()?;
    let loan = store.lend(no, plan)?;
    match Job::new(alloc, no, entry, loan) {
        Ok(job) => {
            locks.mark(no);
            Ok(job)
        }
        Err(loan) => {
            store.give_back(no, loan);
            Err(NoMemory)
        }
    }
}

/// Puts what a transaction left into the store, and takes its requests out of the lock tree.
pub(crate) fn give_back(store: &mut RowStore, locks: &mut LockTree, no: u64, job: Job)
    requires lent { map.get store.old.lent no ≡ Some job.loan.plan }
    requires tables { job.loan.tables ≡ store.old.tables }
    requires there { IsSome (plan_of locks.old.waiting no) }
    ensures tables { store.new.tables ≡ store.old.tables }
    ensures rows { (name : Name) →
        map.get store.new.rows name ≡ (if locks_row job.loan.tables job.loan.plan name Right.Write
        then map.get job.loan.rows name else map.get store.old.rows name) }
    ensures lent { store.new.lent ≡ map.remove store.old.lent no }
    ensures released { locks.new ≡ record locks.old { waiting = without no locks.old.waiting } }
{
    store.give_back(no, job.into_loan());
    locks.release(no);
}

/// Puts the rows of a job that was not run back into the store, and takes the mark off its transaction.
pub(crate) fn take_back(store: &mut RowStore, locks: &mut LockTree, no: u64, job: Job)
    requires lent { map.get store.old.lent no ≡ Some job.loan.plan }
    requires tables { job.loan.tables ≡ store.old.tables }
    requires there { IsSome (plan_of locks.old.waiting no) }
    ensures tables { store.new.tables ≡ store.old.tables }
    ensures rows { (name : Name) →
        map.get store.new.rows name ≡ (if locks_row job.loan.tables job.loan.plan name Right.Write
        then map.get job.loan.rows name else map.get store.old.rows name) }
    ensures lent { store.new.lent ≡ map.remove store.old.lent no }
    ensures unmarked { locks.new ≡ record locks.old { waiting = with_mark no false locks.old.waiting } }
{
    store.give_back(no, job.into_loan());
    locks.unmark(no);
}
