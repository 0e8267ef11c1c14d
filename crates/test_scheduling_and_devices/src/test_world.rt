//! What the tests run: the bank, its logs and reports, and files and devices in memory.

ghost use Rattle.std.specs.Prelude.{None, ⊤};

use calvin::{
    DeviceFailed, FileFault, Files, OpenGate, Process, Settings, Sink, Source, command, program,
    read_line, read_setup, run_text,
};
use std::alloc::{AllocError, Global};
use std::sync::Wait;
use std::test::Fail;
use std::thread::Threads;

pub(crate) const BANK: &str = r#"["setup",1,
["catalogue",1,[["acct",2,[["bal","int"]]],["ref",1,[["to","int"]]]]],
["procs",1,[
["pay",[["a","int"],["b","int"],["n","int"]],
 ["declared",["row","w","acct","a"],["row","w","acct","b"]],
 [["get","x","acct","a","bal"],["get","y","acct","b","bal"],
  ["if",["<","x","n"],[["abort",100]],[]],
  ["put","acct","a","bal",["-","x","n"]],
  ["put","acct","b","bal",["+","y","n"]],
  ["reply",["-","x","n"]]]],
["peek",[["k","int"]],["declared",["row","r","acct","k"]],
 [["get","x","acct","k","bal"],["reply","x"]]],
["ins",[["k","int"],["v","int"]],["declared",["row","w","acct","k"]],
 [["insert","acct","k",["v"]]]]]],
["rows",1,[["acct",1,[100]],["acct",2,[100]],["ref",1,[2]]]]]"#;

pub(crate) const NO_ROWS: &str = r#"["setup",1,
["catalogue",1,[["acct",1,[["bal","int"]]]]],["procs",1,[]],["rows",1,[]]]"#;

pub(crate) const TWO_BATCHES: &str =
    "[\"call\",\"pay\",[1,2,30]]\n[\"cut\"]\n[\"call\",\"pay\",[1,2,30]]\n";

/// The report of a payment of 30, a cut, and a second one.
pub(crate) const TWO_BATCH_REPORT: &str = "0 commit 70\n\
batch 1 rows 77c71e7158ef9dd1261c616d96297a3d25f0173baf33c35fd2218de6651ebb95 replies \
4f17b80d79bfc3a75492ce18b44b1eb844398e49ff0351065af95b282b90c2b2\n\
1 commit 40\n\
batch 2 rows 68ac09305eca49a274f3934804070e0de76ae55d440e16f99225b50e2aa7c15b replies \
253441159e755f09fa35091eaab27292e3f5c910f51fd0e926a22bfe6ea9eeea\n\
end 2 rows 68ac09305eca49a274f3934804070e0de76ae55d440e16f99225b50e2aa7c15b replies \
7ad580324160126f3415a69928b5ccf43101d2e9b7929b6b688c5241878f5de6\n";

/// The report of the first batch of it.
pub(crate) const ONE_BATCH: &str = "0 commit 70\n\
batch 1 rows 77c71e7158ef9dd1261c616d96297a3d25f0173baf33c35fd2218de6651ebb95 replies \
4f17b80d79bfc3a75492ce18b44b1eb844398e49ff0351065af95b282b90c2b2\n";

/// The report of an empty log on no rows.
pub(crate) const NOTHING: &str =
    "end 0 rows e3b0c44298fc1c149afbf4c8996fb92427ae41e4649b934ca495991b7852b855 replies \
e3b0c44298fc1c149afbf4c8996fb92427ae41e4649b934ca495991b7852b855\n";

/// The files `bank.json` and `report.txt`, or a machine without memory to read them.
#[derive(Drop)]
pub(crate) struct Folder<'a> {
    pub(crate) setup: &'a str,
    pub(crate) report: &'a str,
    pub(crate) is_full: bool,
}

impl Files for Folder<'_> {
    ghost holds = { λ _ _ _. ⊤ };

    fn read(&self, alloc: Global, path: &str) -> Result<Vec<u8>, FileFault> {
        let text = match path {
            "bank.json" => self.setup,
            "report.txt" => self.report,
            _ => return Err(FileFault::Unreadable),
        };
        if self.is_full {
            return Err(FileFault::NoMemory);
        }
        match text.as_bytes().to_vec(alloc) {
            Ok(bytes) => Ok(bytes),
            Err(_) => Err(FileFault::NoMemory),
        }
    }
}

/// Gives a byte a call, and fails at its `failing`th call, which for 0 never comes.
#[derive(Drop)]
pub(crate) struct Slow<'a> {
    bytes: &'a [u8],
    call: u64,
    failing: u64,
    pub(crate) failed: bool,
}

impl<'a> Slow<'a> {
    pub(crate) fn new(bytes: &'a [u8], failing: u64) -> Slow<'a> {
        Slow {
            bytes,
            call: 0,
            failing,
            failed: false,
        }
    }
}

impl Source for Slow<'_> {
    ghost left = { λ s. None };

    ghost failed = { λ s. s.failed };

    fn read(&mut self, buf: &mut [u8]) -> Result<usize, DeviceFailed> {
        self.call = self.call.saturating_add(1);
        if self.call == self.failing {
            self.failed = true;
            return Err(DeviceFailed);
        }
        let count = buf.len().min(self.bytes.len()).min(1);
        let (first, rest) = self.bytes.split_at(count);
        buf[..count].copy_from_slice(first);
        self.bytes = rest;
        Ok(count)
    }
}

/// Takes a byte a call, and once it has taken `room` bytes it fails, or takes 0.
#[derive(Drop)]
pub(crate) struct Narrow {
    pub(crate) taken: Vec<u8>,
    room: usize,
    takes_none: bool,
    failed: bool,
}

impl Narrow {
    pub(crate) fn new(alloc: Global, room: usize, takes_none: bool) -> Narrow {
        Narrow {
            taken: Vec::new(alloc),
            room,
            takes_none,
            failed: false,
        }
    }
}

impl Sink for Narrow {
    ghost taken = { λ s. None };

    ghost broken = { λ s. s.failed };

    fn write(&mut self, piece: &[u8]) -> Result<usize, DeviceFailed> {
        let count = piece.len().min(self.room).min(1);
        if count == 0 && !piece.is_empty() {
            self.failed = true;
            return if self.takes_none {
                Ok(0)
            } else {
                Err(DeviceFailed)
            };
        }
        if self.taken.extend_from_slice(&piece[..count]).is_err() {
            self.failed = true;
            return Err(DeviceFailed);
        }
        self.room -= count;
        Ok(count)
    }
}

/// What a program left: its exit status, its standard output and its error output.
#[derive(Drop)]
pub(crate) struct Left {
    pub(crate) status: u8,
    pub(crate) out: Vec<u8>,
    pub(crate) err: Vec<u8>,
}

impl Left {
    pub(crate) fn is(&self, status: u8, out: &[u8], err: &[u8]) -> bool {
        self.status == status && self.out.as_slice() == out && self.err.as_slice() == err
    }
}

fn words_of(alloc: Global, line: &str) -> Result<Vec<String>, AllocError> {
    let mut words = Vec::new(alloc);
    for word in line.split_whitespace() {
        words.push(String::from_str(alloc, word)?)?;
    }
    Ok(words)
}

/// What the program leaves with the words of a line, these files, this source, this output and this error output, which
/// may be a terminal.
pub(crate) fn left_on<R: Threads + Wait + Sync + AllocGlobal>(
    rt: &R,
    line: &str,
    files: &Folder<'_>,
    source: &mut Slow<'_>,
    mut out: Narrow,
    mut err: Narrow,
    err_is_terminal: bool,
) -> Result<Left, Fail> {
    let alloc = rt.alloc();
    let words = words_of(alloc, line)?;
    let process = Process {
        err_is_terminal,
        ends: false,
    };
    let status = program(
        rt, alloc, &words, process, files, source, &mut out, &mut err,
    );
    Ok(Left {
        status,
        out: out.taken,
        err: err.taken,
    })
}

/// What a command leaves that the words of a line ask for.
fn left_by_command<R: Threads + Wait + Sync + AllocGlobal>(
    rt: &R,
    line: &str,
    files: &Folder<'_>,
    source: &mut Slow<'_>,
    mut out: Narrow,
) -> Result<Left, Fail> {
    let alloc = rt.alloc();
    let line = read_line(alloc, &words_of(alloc, line)?)?;
    let mut err = Narrow::new(alloc, 1000, false);
    let process = Process {
        err_is_terminal: false,
        ends: false,
    };
    let status = command(rt, alloc, &line, process, files, source, &mut out, &mut err);
    Ok(Left {
        status,
        out: out.taken,
        err: err.taken,
    })
}

/// What the run of the log leaves, with the status and the line of its fault that the program would leave.
fn left_by_run_text<R: Threads + Wait + Sync + AllocGlobal>(
    rt: &R,
    files: &Folder<'_>,
    source: &mut Slow<'_>,
    mut out: Narrow,
) -> Result<Left, Fail> {
    let alloc = rt.alloc();
    let document = read_setup(alloc, files.setup.as_bytes())?;
    let settings = Settings::new(1, 8, 64, 65_536)?;
    let mut err = Vec::new(alloc);
    let mut status = 0;
    if let Err(fault) = run_text(rt, alloc, document, settings, &OpenGate, source, &mut out) {
        err.extend_from_slice(format!(in alloc; "{fault}\n")?.as_bytes())?;
        status = 4;
    }
    Ok(Left {
        status,
        out: out.taken,
        err,
    })
}

/// The call that is tried.
#[derive(Clone, Copy, Debug)]
pub(crate) enum Tried {
    RunText,
    Command,
    Program,
}

pub(crate) const EACH: [Tried; 3] = [Tried::RunText, Tried::Command, Tried::Program];

impl Tried {
    /// Whether it does what a line asks for.
    pub(crate) fn serves(self, line: &str) -> bool {
        match self {
            Tried::RunText => line.starts_with("run ") && !line.contains("--alone"),
            Tried::Command | Tried::Program => true,
        }
    }

    /// What it leaves with the words of a line, these files, this source and this output.
    pub(crate) fn leaves<R: Threads + Wait + Sync + AllocGlobal>(
        self,
        rt: &R,
        line: &str,
        files: &Folder<'_>,
        source: &mut Slow<'_>,
        out: Narrow,
    ) -> Result<Left, Fail> {
        match self {
            Tried::RunText => left_by_run_text(rt, files, source, out),
            Tried::Command => left_by_command(rt, line, files, source, out),
            Tried::Program => {
                let err = Narrow::new(rt.alloc(), 1000, false);
                left_on(rt, line, files, source, out, err, false)
            }
        }
    }
}
