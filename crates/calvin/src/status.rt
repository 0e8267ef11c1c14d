//! The exit statuses of the program.

ghost use Rattle.std.specs.Prelude.{◌≡◌, Ok};
ghost use Rattle.calvin.specs.CommandEnds.{fault_status, filter_status, setup_status};

use batch_log::LogFaultKind;
use running::RunFault;
use setup::SetupFault;

/// The command was done.
pub(crate) const DONE: u8 = 0;
/// The setup or the log breaks a rule, or a table that is asked for isn't there.
pub(crate) const REFUSED_INPUT: u8 = 1;
/// The words are no command line that is served.
pub(crate) const COMMAND_LINE: u8 = 2;
/// The system refused memory.
pub(crate) const MEMORY: u8 = 3;
/// A device failed, a thread was refused, or a file can't be read.
pub(crate) const DEVICE: u8 = 4;
/// The reports differ.
pub(crate) const DIFFERENT: u8 = 5;
/// A feed that was followed has ended.
pub(crate) const FEED_ENDED: u8 = 6;

/// The status of a setup that was not read.
pub(crate) fn setup_status(fault: &SetupFault) -> u8
    ensures { result ≡ setup_status fault.now }
{
    if fault.is_memory() {
        MEMORY
    } else {
        REFUSED_INPUT
    }
}

/// The status where a log was filtered, by whether each line was copied.
pub(crate) fn filter_status(all_copied: bool) -> u8
    ensures { result ≡ filter_status (Ok all_copied) }
{
    if all_copied { DONE } else { REFUSED_INPUT }
}

/// The status of a run that did not come to its end.
pub(crate) fn run_status(fault: RunFault) -> u8
    ensures { result ≡ fault_status fault }
{
    match fault {
        RunFault::Log(fault) => match fault.kind {
            LogFaultKind::Io => DEVICE,
            LogFaultKind::Memory => MEMORY,
            _ => REFUSED_INPUT,
        },
        RunFault::Spawn { .. } => DEVICE,
    }
}
