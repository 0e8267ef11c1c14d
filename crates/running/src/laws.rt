//! What an engine's batches are in the serial run of batches.

ghost use Rattle.std.specs.Prelude.{◌≡◌, List, map};
ghost use Rattle.requests.specs.Requests.{Call};
ghost use Rattle.sequencer.specs.Batches.{items_from, items_of};
ghost use Rattle.sequencer.specs.declared.batch.Batch.{Batch};
ghost use Rattle.engine.specs.declared.replies.BatchDone.{BatchDone};
ghost use Rattle.engine.specs.Batches.{next_attempts};
ghost use Rattle.engine.specs.Engines.{EngineParts};
ghost use Rattle.engine.specs.Executions.{IsExecutionOf};
ghost use Rattle.engine.specs.Replies.{reply_of};
ghost use Rattle.retries.specs.Standings.{after_batch, replies_at};
ghost use Rattle.running.specs.Standings.{standing_of};

/// An engine that has run a batch of calls is where the serial run is after a batch of these calls: it has the same
/// next number, the same rows and the same carried requests. The replies are those of the serial run too.
pub fn engine_goes_on_as_the_serial_run()
    ensures standing { (old new : EngineParts) (batch : Batch) (run : BatchDone) (calls : List Call) →
        items_of batch ≡ items_from 0 calls → IsExecutionOf old new (next_attempts old batch) run →
        standing_of new ≡ after_batch old.retries (standing_of old) calls }
    ensures replies { (old new : EngineParts) (batch : Batch) (run : BatchDone) (calls : List Call) →
        items_of batch ≡ items_from 0 calls → IsExecutionOf old new (next_attempts old batch) run →
        map reply_of run.replies.items ≡ replies_at (standing_of old) calls }
{}
