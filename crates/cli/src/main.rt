//! The program `calvin`: hands the library the words after its name, the files of the machine, and the standard
//! streams.
#![tactic(auto)]

ghost use Rattle.std.specs.Prelude.{⊤};

use calvin::{FileFault, Files, Process, ReadSource, WriteSink, program};
use std::alloc::Global;
use std::io::{self, ErrorKind, IsTerminal};
use std::process::ExitCode;
use std::{env, fs, rt};

/// The files of the machine that the program runs on.
#[derive(Drop)]
struct Machine<'a, R> {
    rt: &'a R,
}

impl<R: rt::Files + AllocGlobal> Files for Machine<'_, R> {
    ghost holds = { λ _ _ _. ⊤ };

    fn read(&self, _alloc: Global, path: &str) -> Result<Vec<u8>, FileFault> {
        match fs::read(self.rt, path) {
            Ok(bytes) => Ok(bytes),
            Err(error) if error.kind() == ErrorKind::OutOfMemory => Err(FileFault::NoMemory),
            Err(_) => Err(FileFault::Unreadable),
        }
    }
}

/// The status where the words can't be read for want of memory.
const MEMORY: u8 = 3;

/// The words that the program was started with.
fn words<R: env::Env + AllocGlobal>(rt: &R) -> io::Result<Vec<String>> {
    Ok(env::args(rt)?.collect(rt.alloc())?)
}

fn main(rt: HostRuntime) -> io::Result<ExitCode> {
    let alloc = rt.alloc();
    let words = match words(&rt) {
        Ok(words) => words,
        Err(error) if error.kind() == ErrorKind::OutOfMemory => {
            let _ = eprintln!(rt; "fault 37 line 0");
            return Ok(ExitCode::from(MEMORY));
        }
        // A word that isn't text is no command line that is served, and no words are none either.
        Err(_) => Vec::new(alloc),
    };
    let process = Process {
        err_is_terminal: rt.stderr().is_terminal(),
        ends: true,
    };
    let status = program(
        &rt,
        alloc,
        words.get(1..).unwrap_or(&[]),
        process,
        &Machine { rt: &rt },
        &mut ReadSource::new(rt.stdin()),
        &mut WriteSink::new(rt.stdout()),
        &mut WriteSink::new(rt.stderr()),
    );
    Ok(ExitCode::from(status))
}
