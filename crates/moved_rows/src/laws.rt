//! Laws of the rows that a log's run leaves.

ghost use Rattle.std.specs.Prelude.{◌≡◌, ◌++◌, List, ℕ, [], None, Ok};
ghost use Rattle.std.specs.FinMap.{empty};
ghost use Rattle.std.specs.List.{AllByRecursion};
ghost use Rattle.values.specs.Database.{Database};
ghost use Rattle.catalogue.specs.Shapes.{TableShape};
ghost use Rattle.proclang_types.specs.Syntax.{block_of};
ghost use Rattle.proclang_types.specs.Typing.{ProcFits};
ghost use Rattle.requests.specs.ProcLists.{AreOver};
ghost use Rattle.requests.specs.Requests as requests;
ghost use Rattle.meaning.specs.Entries.{EntryShape};
ghost use Rattle.meaning.specs.Serial.{serial_end};
ghost use Rattle.sequencer.specs.Entries.{prepared};
ghost use Rattle.batch_log.specs.declared.line.LogLine.TheVariants.{Call};
ghost use Rattle.batch_log.specs.Lines.{line_said};
ghost use Rattle.batch_log.specs.Places.{batches_said};
ghost use Rattle.row_text.specs.Calls.{AreCallsOver, IsCallOver};
ghost use Rattle.shelves.specs.Rows.{with_rows};
ghost use Rattle.setup.specs.declared.document.SetupDocument.{SetupDocument};
ghost use Rattle.setup.specs.Setups.{SetupShape, setup_view};
ghost use Rattle.setup.specs.WithRows.{SaysSetupWithRows};
ghost use Rattle.running.specs.Reports.{calls_in_turn, log_fault, report_of, rows_after};
ghost use Rattle.running.specs.Standings.{standing_after};
ghost use Rattle.running.specs.Starts.{Start, start_in};
ghost use Rattle.rows_document.specs.Said.{AreRowsIn};
ghost use Rattle.rows_document.specs.Texts.{rows_document};
ghost use Rattle.moved_rows.specs.CutLogs.{EndsWithCut};
ghost use Rattle.moved_rows.specs.GoingOn.{AreOneRun, GoesOnFrom, on_rows, outcomes_of, with_rows_of};
ghost use Rattle.moved_rows.specs.Starts.{IsSaidSetup, IsStartOf, rows_left};
ghost use Rattle.moved_rows.specs.Stored.{AllStoreValues, IsValueCall};

use catalogue::one_catalogue_is_said;
use proclang::one_list_of_procedures_is_said;
use retries::{a_log_goes_on_from_its_rows, nothing_is_left_at_the_end};
use row_text::every_row_left_by_calls_has_its_line;
use rows_document::{rows_are_read_as_written, setup_starts_from_written_rows};

/// Calls leave rows of the tables, from rows of the tables, where their procedures fit the tables, and their arguments
/// and the literals that they store are values that columns can hold.
pub fn calls_leave_rows_of_the_tables()
    ensures { (tables : List TableShape) (calls : List EntryShape) (db : Database) → AreCallsOver tables calls →
        AllByRecursion IsValueCall calls → AreRowsIn tables db → AreRowsIn tables (serial_end calls db) }
{
    // proof: the rows that are left have the columns' types.
    every_row_left_by_calls_has_its_line();
}

/// The starting rows that texts say are rows of the setup's tables, and the procedures fit these tables and store no
/// literals but values that columns can hold.
pub fn said_setups_have_rows_of_their_tables()
    ensures rows { (text : List ℕ) (s : SetupShape) → IsSaidSetup text s →
        AreRowsIn s.tables (with_rows empty s.rows) }
    ensures procedures { (text : List ℕ) (s : SetupShape) → IsSaidSetup text s →
        AllByRecursion (λ proc. ProcFits s.tables proc × AllStoreValues (block_of proc.body)) s.procs }
{}

/// The call that a line of a log says is, on any database, a call of a procedure that fits the setup's tables, and its
/// arguments and the literals that it stores are values that columns can hold.
pub fn said_calls_are_of_the_tables()
    ensures over { (text : List ℕ) (s : SetupShape) (start : Start) (line : List ℕ) (call : requests.Call)
        (db : Database) → IsSaidSetup text s → IsStartOf s start → line_said start.procs.procs line ≡ Ok (Call call) →
        IsCallOver s.tables (prepared db call) }
    ensures values { (text : List ℕ) (s : SetupShape) (start : Start) (line : List ℕ) (call : requests.Call)
        (db : Database) → IsSaidSetup text s → IsStartOf s start → line_said start.procs.procs line ≡ Ok (Call call) →
        IsValueCall (prepared db call) }
{}

/// What is read of a setup's text starts the run of the setup that the text says: `read_setup` and
/// `read_setup_with_rows` ensure that its procedures are over its catalogue.
pub fn documents_start_their_setups()
    ensures { (document : SetupDocument) → AreOver document.setup.catalogue document.setup.procs.procs →
        IsStartOf (setup_view document) (start_in document) }
{}

/// The rows that a log's run leaves are rows of the setup's tables: each is of one of the tables, with a key below 2^63
/// and one value for each column, of its type, a number in the signed 64-bit range or a text in UTF-8 of at most 64
/// bytes. So are the rows after any beginning of the run's batches, and after any beginning of the batches that the log
/// says, of which the last may lack its cut. This holds whatever bytes the log has, with a fault or without.
pub fn rows_of_a_run_are_of_the_tables()
    ensures whole { (text : List ℕ) (s : SetupShape) (start : Start) (log : List ℕ) → IsSaidSetup text s →
        IsStartOf s start → AreRowsIn s.tables (rows_after start log) }
    ensures batches { (text : List ℕ) (s : SetupShape) (start : Start) (log : List ℕ)
        (before later : List (List requests.Call)) → IsSaidSetup text s → IsStartOf s start →
        calls_in_turn start log ≡ before ++ later → AreRowsIn s.tables (rows_left start before) }
    ensures cuts { (text : List ℕ) (s : SetupShape) (start : Start) (log : List ℕ)
        (before later : List (List requests.Call)) → IsSaidSetup text s → IsStartOf s start →
        batches_said start.procs start.retries log ≡ before ++ later → AreRowsIn s.tables (rows_left start before) }
{
    calls_leave_rows_of_the_tables();
}

/// A run goes on from written rows: where nothing is carried after a beginning of a log's batches, the setup's text and
/// the rows document of the rows then say a setup, from which later batches have the replies, and leave the rows, that
/// they have and leave after those batches. So it is at the end of each log without a fault, and at each cut of a log
/// after which nothing is carried.
pub fn a_run_goes_on_from_written_rows()
    ensures whole { (text : List ℕ) (s : SetupShape) (start : Start) (log : List ℕ) → IsSaidSetup text s →
        IsStartOf s start → log_fault start log ≡ None →
        GoesOnFrom text s start (calls_in_turn start log) }
    ensures batches { (text : List ℕ) (s : SetupShape) (start : Start) (log : List ℕ)
        (before later : List (List requests.Call)) → IsSaidSetup text s → IsStartOf s start →
        calls_in_turn start log ≡ before ++ later → (standing_after start before).carried ≡ [] →
        GoesOnFrom text s start before }
    ensures cuts { (text : List ℕ) (s : SetupShape) (start : Start) (log : List ℕ)
        (before later : List (List requests.Call)) → IsSaidSetup text s → IsStartOf s start →
        batches_said start.procs start.retries log ≡ before ++ later →
        (standing_after start before).carried ≡ [] → GoesOnFrom text s start before }
{
    rows_of_a_run_are_of_the_tables();
    rows_are_read_as_written();
    setup_starts_from_written_rows();
    a_log_goes_on_from_its_rows();
    // proof: a log without a fault is closed.
    nothing_is_left_at_the_end();
}

/// A log goes on after a cut: where a log without a fault has a beginning that ends with a cut, neither the beginning
/// nor the rest has a fault. Where nothing is carried after the beginning's batches, the batches of the log's run are
/// those of the beginning's, and then those of the rest's from the rows that the beginning leaves; and batch by batch
/// the rest has from there the same replies, and leaves the same rows, as in the log.
pub fn a_log_goes_on_after_a_cut()
    ensures faults { (start : Start) (first rest : List ℕ) → EndsWithCut start.procs.procs first →
        log_fault start (first ++ rest) ≡ None →
        (log_fault start first ≡ None) × (log_fault start rest ≡ None) }
    ensures batches { (start : Start) (first rest : List ℕ) → EndsWithCut start.procs.procs first →
        log_fault start (first ++ rest) ≡ None →
        (standing_after start (batches_said start.procs start.retries first)).carried ≡ [] →
        calls_in_turn start (first ++ rest)
        ≡ calls_in_turn start first ++ calls_in_turn (on_rows start (rows_after start first)) rest }
    ensures outcomes { (start : Start) (first rest : List ℕ) → EndsWithCut start.procs.procs first →
        log_fault start (first ++ rest) ≡ None →
        (standing_after start (batches_said start.procs start.retries first)).carried ≡ [] →
        outcomes_of start (first ++ rest)
        ≡ outcomes_of start first ++ outcomes_of (on_rows start (rows_after start first)) rest }
    ensures rows { (start : Start) (first rest : List ℕ) → EndsWithCut start.procs.procs first →
        log_fault start (first ++ rest) ≡ None →
        (standing_after start (batches_said start.procs start.retries first)).carried ≡ [] →
        rows_after start (first ++ rest) ≡ rows_after (on_rows start (rows_after start first)) rest }
{}

/// One setup has one run: on each log, starts of one setup give the same report, the same first fault, the same rows,
/// and batch by batch the same replies and rows. Starts differ at most in how the code keeps their procedures.
pub fn one_setup_has_one_run()
    ensures fault { (s : SetupShape) (a b : Start) (log : List ℕ) → IsStartOf s a → IsStartOf s b →
        log_fault a log ≡ log_fault b log }
    ensures report { (s : SetupShape) (a b : Start) (log : List ℕ) → IsStartOf s a → IsStartOf s b →
        report_of a log ≡ report_of b log }
    ensures rows { (s : SetupShape) (a b : Start) (log : List ℕ) → IsStartOf s a → IsStartOf s b →
        rows_after a log ≡ rows_after b log }
    ensures outcomes { (s : SetupShape) (a b : Start) (log : List ℕ) → IsStartOf s a → IsStartOf s b →
        outcomes_of a log ≡ outcomes_of b log }
{}

/// A setup's text and a rows' text say one setup, and no other.
pub fn one_setup_is_said_with_rows()
    ensures { (text rows : List ℕ) (s t : SetupShape) → SaysSetupWithRows text rows s →
        SaysSetupWithRows text rows t → s ≡ t }
{
    // proof: the same laws of the parts of a setup.
    one_catalogue_is_said();
    one_list_of_procedures_is_said();
}

/// A second run goes on with a log where a first one ended. The log has no fault, and a beginning of it ends with a cut
/// after which nothing is carried; the first run is that of this beginning, from any start of the setup that a text
/// says. With the rows document of the rows that it leaves the text says a setup, and one only. From any start of that
/// setup, such as another process reads of the two texts, the rest of the log goes as it goes in the whole log: the run
/// begins with those rows and has no fault, and each batch has the same replies and leaves the same rows, and so has
/// the same digest of rows. That what is read is such a start says `documents_start_their_setups`.
pub fn a_second_run_goes_on_with_the_log()
    ensures says { (text : List ℕ) (s : SetupShape) (start : Start) (first : List ℕ) → IsSaidSetup text s →
        IsStartOf s start → log_fault start first ≡ None →
        SaysSetupWithRows text (rows_document s.tables (rows_after start first))
        (with_rows_of s (rows_after start first)) }
    ensures one { (text : List ℕ) (s : SetupShape) (start : Start) (first rest : List ℕ) (t : SetupShape)
        (again : Start) → IsSaidSetup text s → IsStartOf s start → EndsWithCut start.procs.procs first →
        log_fault start (first ++ rest) ≡ None →
        (standing_after start (batches_said start.procs start.retries first)).carried ≡ [] →
        SaysSetupWithRows text (rows_document s.tables (rows_after start first)) t → IsStartOf t again →
        AreOneRun start first again rest }
{
    a_run_goes_on_from_written_rows();
    a_log_goes_on_after_a_cut();
    one_setup_is_said_with_rows();
    one_setup_has_one_run();
}
