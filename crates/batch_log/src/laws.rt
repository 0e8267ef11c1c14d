//! What the definitions of a log's lines and batches amount to.

ghost use Rattle.std.specs.Prelude.{List, ℕ};
ghost use Rattle.proclang_types.specs.Procedures.{ProcParts};
ghost use Rattle.batch_log.specs.CutLaws.{BatchesAreReadBack, EndIsACut, FaultIsNoCut};
ghost use Rattle.batch_log.specs.Filters.{FilteredHasNoFault, WholeLinesAreTheLines};
ghost use Rattle.batch_log.specs.LineRules.{LineIsExact};

/// Does nothing. Its contract says of the batches of a log that batches with a cut after each are
/// read back, that calls after the last cut are a batch where the log ends with them, and that
/// they are none where a fault comes after them, whatever comes after it.
pub fn batches_end_at_cuts()
    ensures back { BatchesAreReadBack }
    ensures end { EndIsACut }
    ensures fault { FaultIsNoCut }
{}

/// Does nothing. Its contract says of each line of a log that what is read of it is what it says,
/// that what it says is read, and that its fault is the first rule that it breaks.
pub fn lines_are_exact()
    ensures { (procs : List ProcParts) (line : List ℕ) → LineIsExact procs line }
{}

/// Does nothing. Its contract says that the lines of a text with their newlines are the text, and that without them
/// they are its lines.
pub fn whole_lines_are_the_lines()
    ensures { (text : List ℕ) → WholeLinesAreTheLines text }
{}

/// Does nothing. Its contract says that a run of what was filtered of a log has no fault of a line, but that a batch
/// may be too long.
pub fn filtered_has_no_fault()
    ensures { FilteredHasNoFault }
{}
