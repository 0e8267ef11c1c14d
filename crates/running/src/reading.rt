//! Reading a log, which may be a feed, from a source, and running it on an engine.

ghost use Rattle.std.specs.Prelude.{◌≡◌, is_some, IfErr};
ghost use Rattle.devices.specs.LineReader.{left_for};
ghost use Rattle.batch_log.specs.Reader.{has_ended, origin_of, source_of, unread, IsUnread};
ghost use Rattle.running.specs.Executors.{core_of, Executes, HasAnswered};
ghost use Rattle.running.specs.Stops.{IfOfThread};
ghost use Rattle.running.specs.EngineRuns.{IsEngineRun, IsFresh};

use crate::log::run_reader;
use crate::run_fault::RunFault;
use batch_log::{LogReader, Sink, Source};
use engine::{Batch, BatchDone, Engine, ExecFault};
use setup::DigestForm;
use std::alloc::Global;
use std::sync::Wait;

/// How a log is read, and of which text of the rows the digests in its report are.
#[derive(Clone, Copy, Debug, PartialEq, Eq)]
pub struct Reading {
    /// Of which text of the rows digests are.
    pub digest: DigestForm,
    /// The log is a feed: where its source has nothing left, more is to come at any time.
    pub feed: bool,
}

/// How the run of a log has ended.
#[derive(Drop)]
pub struct Ended {
    /// The number of transactions, or the fault that ended the run.
    pub result: Result<u64, RunFault>,
    /// Where the log is a feed of which nothing more had come: the line that was begun last, or 0 where none was.
    pub feed: Option<u64>,
}

/// A reader that has read nothing of a log, or of one that is a feed.
fn reader_of<S: Source>(source: &mut S, retries: u8, feed: bool) -> LogReader<'_, S>
    ensures same { origin_of result ≡ record { name = source.entry.ghost_name; is_feed = feed } }
    ensures source { source_of result ≡ source.old }
    ensures unread { unread S.left result ≡ left_for feed (S.left source.old) }
    ensures nothing { IsUnread retries result }
{
    if feed {
        LogReader::follow(source, retries)
    } else {
        LogReader::new(source, retries)
    }
}

/// The line that was begun last, or 0 where none was, if the log is a feed that has ended.
fn feed_end<S: Source>(reader: &LogReader<'_, S>) -> Option<u64>
    ensures { is_some result ≡ has_ended reader.now }
{
    if reader.has_ended() {
        Some(reader.last_line())
    } else {
        None
    }
}

/// Runs the log that a source gives on an engine that has run none, by a call that executes batches.
pub(crate) fn run_source<
    R: Wait,
    X: Fn(&mut Engine, Batch) -> Result<BatchDone, ExecFault>,
    S: Source,
    K: Sink,
>(
    rt: &R,
    alloc: Global,
    executor: &X,
    engine: &mut Engine,
    reading: Reading,
    source: &mut S,
    sink: &mut K,
) -> Ended
    requires executes { Executes core_of X.Fn executor.now }
    requires fresh { IsFresh engine.old.core }
    ensures run { IsEngineRun S.left S.failed K.taken K.broken reading engine.old.core engine.new.core
        source.old source.new sink.old sink.new result }
    ensures threads { IfErr result.result (λ e. IfOfThread e (HasAnswered X.Fn executor.now ExecFault.Spawn)) }
{
    let mut reader = reader_of(source, engine.retries(), reading.feed);
    let result = run_reader(
        rt,
        alloc,
        executor,
        engine,
        reading.digest,
        &mut reader,
        sink,
    );
    let feed = feed_end(&reader);
    let _source = reader.into_source();
    Ended { result, feed }
}
