//! The program's calls: reports of logs.

use crate::jobs::if_jobs;
use calvin::{
    DigestForm, LogFault, LogFaultKind, ReadSource, RunFault, Settings, SetupDocument, WriteSink,
    run_text,
};
use std::sync::Wait;
use std::thread::Threads;
use test_bank::CountingGate;
use test_refusal_steps::{Answer, CALLS, REPORT, Refusal, bank, log_text};

/// A log of `calls` calls is run on a setup document, through a gate, and its report is written.
pub(crate) fn try_report<R: Threads + Wait + Sync + AllocGlobal>(
    rt: &R,
    refusal: &mut Refusal,
    document: SetupDocument,
    settings: Settings,
    [log, report]: [&str; 2],
    calls: u64,
    gate: &CountingGate,
) -> Option<Answer> {
    let alloc = rt.alloc();
    let mut source = ReadSource::new(log.as_bytes());
    // (room for all of the report, so that a write takes no memory)
    let mut out = WriteSink::new(Vec::with_capacity(alloc, 65_536).ok()?);
    refusal.approach();
    let ended = run_text(rt, alloc, document, settings, gate, &mut source, &mut out);
    refusal.pass();
    let written = out.into_inner();
    let answer = match ended {
        Ok(count) => {
            Answer::Right.if_right(count == calls && written.as_slice() == report.as_bytes())
        }
        Err(
            RunFault::Spawn { .. }
            | RunFault::Log(
                LogFault {
                    kind: LogFaultKind::Memory,
                    ..
                },
            ),
        ) => Answer::Refused,
        Err(_) => Answer::Wrong,
    };
    let answer = if_jobs(answer, gate, calls);
    Some(answer.if_right(report.as_bytes().starts_with(&written)))
}

/// The log is run, as two batches, each call as a job, and its report is written.
pub(crate) fn try_text<R: Threads + Wait + Sync + AllocGlobal>(
    rt: &R,
    refusal: &mut Refusal,
) -> Option<Answer> {
    let alloc = rt.alloc();
    let document = SetupDocument {
        setup: bank(alloc)?,
        digest: DigestForm::Rows,
    };
    let settings = Settings::new(2, 8, 64, 65_536).ok()?;
    let log = log_text(alloc, "[\"cut\"]\n").ok()?;
    let gate = CountingGate::new(false);
    try_report(
        rt,
        refusal,
        document,
        settings,
        [log.as_str(), REPORT],
        CALLS,
        &gate,
    )
}
