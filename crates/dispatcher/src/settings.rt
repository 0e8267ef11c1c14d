//! The settings of a run.

ghost use Rattle.std.specs.Prelude.{◌≡◌, ◌≤◌, ◌↔◌, IfOk, IsOk, IsErr};
ghost use Rattle.dispatcher.specs.Ranges.{AreInRange, IsOneOutOfRange};

use thiserror::Error;

/// The settings of a run, each in its range. None of them changes what a run answers.
#[derive(Clone, Copy, Debug, PartialEq, Eq)]
pub struct Settings {
    /// Worker threads, 1 to 16.
    pub workers: usize,
    /// Lanes between the scheduler and the workers, 1 to 64.
    pub lanes: usize,
    /// How many entries below one parent are locked apart before the parent is locked in their place, 0 to 65,535.
    pub threshold: usize,
    /// Lock requests that are held or wait at a time, 1 to 1,048,576.
    pub arena: usize,
    ghost some_workers: { 1 ≤ workers },
    ghost few_workers: { workers ≤ 16 },
    ghost some_lanes: { 1 ≤ lanes },
    ghost few_lanes: { lanes ≤ 64 },
    ghost few_entries: { threshold ≤ 65535 },
    ghost some_requests: { 1 ≤ arena },
    ghost few_requests: { arena ≤ 1048576 },
}

/// A setting is outside its range.
#[derive(Clone, Copy, Debug, PartialEq, Eq, Error)]
#[error("a setting is outside its range")]
pub struct BadSetting;

impl Settings {
    /// The settings, or `BadSetting` exactly where one of them is outside its range.
    pub fn new(
        workers: usize,
        lanes: usize,
        threshold: usize,
        arena: usize,
    ) -> Result<Settings, BadSetting>
        ensures same { IfOk result (λ s. (s.workers ≡ workers) × (s.lanes ≡ lanes) × (s.threshold ≡ threshold) ×
            (s.arena ≡ arena)) }
        ensures accepted { IsOk result ↔ AreInRange workers lanes threshold arena }
        ensures refused { IsErr result ↔ IsOneOutOfRange workers lanes threshold arena }
    {
        if workers < 1 || workers > 16 || lanes < 1 || lanes > 64 {
            return Err(BadSetting);
        }
        if threshold > 65_535 || arena < 1 || arena > 1_048_576 {
            return Err(BadSetting);
        }
        Ok(Settings {
            workers,
            lanes,
            threshold,
            arena,
        })
    }
}
