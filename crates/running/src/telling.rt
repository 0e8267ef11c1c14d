//! Telling on standard error how far a run is.

ghost use Rattle.std.specs.Prelude.{◌≡◌, ◌++◌, true, false, IfOk, OnOk, None, Some, string_bytes};
ghost use Rattle.devices.specs.Devices.{AppendsFront};
ghost use Rattle.running.specs.declared.telling.Lines.TheVariants.{Below, Over};
ghost use Rattle.running.specs.ProgressLines.{before, line_ending, line_text, tally_text};

use batch_log::{Sink, write_all};
use engine::{Engine, Tally, Watcher};
use std::alloc::{AllocError, Global};
use std::sync::Wait;
use std::sync::atomic::{AtomicBool, Ordering};
use std::thread::Parker;
use std::time::Duration;

/// For how many milliseconds a line stays before the next one comes.
const LINE_STANDS: u64 = 500;

/// How the lines follow one another.
#[derive(Clone, Copy, Debug, PartialEq, Eq)]
pub enum Lines {
    /// One below the other.
    Below,
    /// Each over the last one, as on a terminal.
    Over,
}

/// How the lines of a run follow one another, where it is asked for any.
pub fn lines_of(progress: bool, on_terminal: bool) -> Option<Lines>
    ensures unasked { progress ≡ false → result ≡ None }
    ensures terminal { progress ≡ true → on_terminal ≡ true → result ≡ Some Over }
    ensures elsewhere { progress ≡ true → on_terminal ≡ false → result ≡ Some Below }
{
    match (progress, on_terminal) {
        (false, _) => None,
        (true, true) => Some(Lines::Over),
        (true, false) => Some(Lines::Below),
    }
}

/// What is in a line before its words.
fn before(lines: Lines) -> &'static str
    ensures { result.now ≡ before lines }
{
    match lines {
        Lines::Below => "",
        Lines::Over => "\r",
    }
}

/// What comes after the words of a line, which may be the last one.
fn line_ending(lines: Lines, is_last: bool) -> &'static str
    ensures { result.now ≡ line_ending lines is_last }
{
    match (lines, is_last) {
        (Lines::Over, false) => "",
        (Lines::Over, true) | (Lines::Below, _) => "\n",
    }
}

/// Appends the words of a tally.
fn push_tally(text: &mut String, tally: Tally) -> Result<(), AllocError>
    ensures { OnOk result (string_bytes text.new ≡ string_bytes text.old ++ tally_text tally) }
{
    let Tally {
        settled,
        committed,
        aborted,
        stale,
    } = tally;
    write!(
        text,
        "{settled} settled, {committed} committed, {aborted} aborted, {stale} stale"
    )
}

/// The line of a tally, which may be the last one.
fn line_text(alloc: Global, lines: Lines, tally: Tally, is_last: bool) -> Result<String, AllocError>
    ensures { IfOk result (λ text. string_bytes text ≡ line_text lines is_last tally) }
{
    let mut text = String::new(alloc);
    text.push_str(before(lines))?;
    push_tally(&mut text, tally)?;
    text.push_str(line_ending(lines, is_last))?;
    Ok(text)
}

// rule: command.progress
/// Writes the line of a tally. A write that fails is passed over, and so is want of memory for the line.
pub(crate) fn tell<E: Sink>(alloc: Global, lines: Lines, tally: Tally, is_last: bool, err: &mut E)
    ensures { AppendsFront (E.taken err.old) (E.taken err.new) (line_text lines is_last tally) }
{
    if let Ok(text) = line_text(alloc, lines, tally, is_last) {
        let _ = write_all(err, text.as_bytes());
    }
}

/// Writes the line of what an engine published last. It may wait.
pub(crate) fn tell_engine<R: Wait, E: Sink>(
    rt: &R,
    alloc: Global,
    lines: Lines,
    engine: &mut Engine,
    is_last: bool,
    err: &mut E,
)
    ensures { engine.new ≡ engine.old }
{
    if let Ok(mut watcher) = engine.watcher(rt) {
        let tally = watcher.watch(rt);
        tell(alloc, lines, tally, is_last, err);
    }
}

/// Says to a thread that tells of a run that the run has ended.
#[derive(Drop)]
pub(crate) struct RunEnd {
    has_come: AtomicBool,
    teller: Parker,
}

impl RunEnd {
    /// The end of a run that goes on.
    pub(crate) fn new() -> RunEnd {
        RunEnd {
            has_come: AtomicBool::new(false),
            teller: Parker::new(),
        }
    }

    /// The run has ended: who waits for it goes on at once.
    pub(crate) fn come(&self) {
        self.has_come.store(true, Ordering::SeqCst);
        self.teller.unpark();
    }

    /// Waits for the end, for so long at most, and answers whether it has come.
    fn wait<R: Wait>(&self, rt: &R, most: Duration) -> bool {
        self.teller.park_timeout(rt, most);
        self.has_come.load(Ordering::SeqCst)
    }
}

/// Writes a line about twice a second until the run has ended, and then the last one. It may wait.
pub(crate) fn tell_until<R: Wait, E: Sink>(
    rt: &R,
    alloc: Global,
    lines: Lines,
    watcher: &mut Watcher,
    end: &RunEnd,
    err: &mut E,
) {
    for _ in rt.forever() {
        let is_last = end.wait(rt, Duration::from_millis(LINE_STANDS));
        let tally = watcher.watch(rt);
        tell(alloc, lines, tally, is_last, err);
        if is_last {
            return;
        }
    }
}
