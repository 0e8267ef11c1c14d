//! What is granted.

ghost use Rattle.std.specs.Prelude.{◌≡◌, None};
ghost use Rattle.std.specs.List.{list_all};
ghost use Rattle.lock_tree.specs.Lines.{line};
ghost use Rattle.lock_tree.specs.Known.{granted_in};
ghost use Rattle.lock_tree.specs.Numbered.{IsNumbered};
ghost use Rattle.lock_tree.specs.Granted.{AreGranted, admits};
ghost use Rattle.lock_tree.specs.Chained.{IsChained};

use crate::enqueued::Enqueued;
use crate::granting::is_granted;
use crate::lines::Lines;
use footprint::Resource;
use modes::Mode;

/// Whether each request of a transaction, which has that number, is granted.
pub(crate) fn are_granted(lines: &Lines, entry: &Enqueued, no: u64) -> bool
    requires numbered { IsNumbered lines.now None }
    requires granted { AreGranted lines.now }
    requires chained { IsChained lines.now entry.now }
    requires owner { entry.now.no ≡ no }
    ensures { result ≡ granted_in (line lines.now) entry.now.no entry.now.plan.value }
{
    let mut head = entry.head();
    while let Some(node) = head {
        if !is_granted(lines, lines.nodes.queue_of(node), no) {
            return false;
        }
        head = lines.nodes.successor(node);
    }
    true
}

/// Whether one more request on a resource would be granted at once.
fn admits(lines: &Lines, resource: &Resource, mode: Mode) -> bool
    requires numbered { IsNumbered lines.now None }
    requires granted { AreGranted lines.now }
    ensures { result ≡ admits (line lines.now resource.now) mode }
{
    match lines.number_of(resource) {
        Some(number) => {
            let line = lines.lines[number];
            line.waiting.is_none() && line.held.fits(mode)
        }
        None => true,
    }
}

/// Whether one more request on each resource of a plan would be granted at once.
pub(crate) fn admit_all(lines: &Lines, plan: &[(Resource, Mode)]) -> bool
    requires numbered { IsNumbered lines.now None }
    requires granted { AreGranted lines.now }
    ensures { result ≡ list_all (λ e. admits (line lines.now e.0) e.1) plan.now }
{
    plan.iter()
        .all(|(resource, mode)| admits(lines, resource, *mode))
}
