//! The whole program, but for the world that it is given.

ghost use Rattle.std.specs.Prelude.{map, string_bytes};
ghost use Rattle.calvin.specs.CommandEnds.{IsProgram};
ghost use Rattle.running.specs.Runs.{device_with};

use crate::commands::command;
use crate::files::Files;
use crate::process::Process;
use crate::status::{COMMAND_LINE, MEMORY};
use batch_log::{Sink, Source, say, write_all};
use command_line::{LineFault, read_line};
use std::alloc::Global;
use std::sync::Wait;
use std::thread::Threads;

// rule: command.help
/// Reads a command line from the words after the program's name, does what it asks for, and gives the exit status:
/// those of `command`; 2 where the words are no command line that is served, with a text for the user on `err`; 3 where
/// allocation failed meanwhile.
pub fn program<R: Threads + Wait + Sync, F: Files, S: Source, K: Sink, E: Sink + Send>(
    rt: &R,
    alloc: Global,
    words: &[String],
    process: Process,
    files: &F,
    source: &mut S,
    out: &mut K,
    err: &mut E,
) -> u8
    ensures { IsProgram (F.holds files.now) (map string_bytes words.now)
        (device_with (S.left source.old) (S.failed source.old))
        (device_with (S.left source.new) (S.failed source.new))
        (device_with (K.taken out.old) (K.broken out.old))
        (device_with (K.taken out.new) (K.broken out.new)) result }
{
    match read_line(alloc, words) {
        Ok(line) => command(rt, alloc, &line, process, files, source, out, err),
        Err(LineFault::Refused(text)) => {
            let _ = write_all(err, text.as_bytes());
            COMMAND_LINE
        }
        Err(LineFault::NoMemory) => {
            say(alloc, err, &"fault 37 line 0");
            MEMORY
        }
    }
}
