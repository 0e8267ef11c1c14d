//! The command `rows`: the rows that a log leaves.

ghost use Rattle.std.specs.Prelude.{◌≡◌, ◌<◌, ℕ, List, Option, None, IfErr, IfOk, IfSome, false, length, option_map, string_bytes};
ghost use Rattle.setup.specs.declared.document.SetupDocument.{SetupDocument as AnyDocument};
ghost use Rattle.dispatcher.specs.declared.settings.Settings.{Settings};
ghost use Rattle.running.specs.EngineRuns.{IsFresh, engine_on};
ghost use Rattle.calvin.specs.CommandEnds.{AreRowsOf, IsRowsCommand, IsWritten};
ghost use Rattle.calvin.specs.Inputs.{paths_of};
ghost use Rattle.calvin.specs.Listings.{text_at, IsNotThere, IsPlaceOf};
ghost use Rattle.engine.specs.Engines.{is_busy, tables_of};
ghost use Rattle.running.specs.Runs.{device_with};

use crate::feeds::feed_ended;
use crate::files::Files;
use crate::inputs::{print_bytes, refused, setup_at};
use crate::status::{DONE, REFUSED_INPUT};
use batch_log::{DeviceFailed, LogFaultKind, Sink, Source, say};
use catalogue::Catalogue;
use command_line::{Input, Listing};
use engine::Engine;
use row_store::all_is_free_with_nothing_lent;
use row_text::{rows_text, table_text};
use rows_document::{document_text, table_document};
use running::{Reading, RunFault, RunOptions, engine_on, let_go, run_engine};
use setup::SetupDocument;
use std::alloc::{AllocError, Global};
use std::sync::Wait;
use std::thread::Threads;
use values::TableNo;

/// Takes a report, and keeps nothing of it.
#[derive(Drop)]
struct NoReport;

impl Sink for NoReport {
    ghost taken = { λ _. None };

    ghost broken = { λ _. false };

    fn write(&mut self, piece: &[u8]) -> Result<usize, DeviceFailed> {
        Ok(piece.len())
    }
}

/// Which rows are printed, and how: of all tables or of the one in a place.
#[derive(Clone, Copy)]
struct Printing {
    place: Option<TableNo>,
    /// As a rows document, and not as row lines.
    document: bool,
}

/// The place of the table that is asked for, if one is; or says that there is no such table, and gives the exit status.
fn place_of<E: Sink>(
    alloc: Global,
    catalogue: &Catalogue,
    table: &Option<String>,
    err: &mut E,
) -> Result<Option<TableNo>, u8>
    ensures place { IfOk result (IsPlaceOf catalogue.now (option_map string_bytes table.now)) }
    ensures status { IfErr result (λ status.
        (status ≡ 1) × IsNotThere catalogue.now (option_map string_bytes table.now)) }
{
    let Some(name) = table else {
        return Ok(None);
    };
    match catalogue.table(name) {
        Some(place) => Ok(Some(place)),
        None => {
            say(alloc, err, &format_args!("no table {name}"));
            Err(REFUSED_INPUT)
        }
    }
}

// rule: command.document
/// The text of the rows of an engine between batches.
fn text_of(alloc: Global, engine: &Engine, printing: Printing) -> Result<Vec<u8>, AllocError>
    requires idle { is_busy engine.now.core ≡ false }
    requires place { IfSome printing.place (λ table. table < length (tables_of engine.now.core)) }
    ensures { IfOk result (λ text. text.items
        ≡ text_at printing.document printing.place (tables_of engine.now.core) engine.now.core.rows) }
{
    let rows = engine.rows();
    let catalogue = rows.catalogue();
    // proof: with nothing lent each row is shown.
    all_is_free_with_nothing_lent();
    match (printing.place, printing.document) {
        (None, false) => rows_text(alloc, catalogue, rows),
        (None, true) => document_text(alloc, catalogue, rows),
        (Some(table), false) => table_text(alloc, catalogue, rows, table),
        (Some(table), true) => table_document(alloc, catalogue, rows, table),
    }
}

/// Prints the rows of an engine between batches, or says why not and gives the exit status.
fn print_rows<K: Sink, E: Sink>(
    alloc: Global,
    engine: &Engine,
    printing: Printing,
    out: &mut K,
    err: &mut E,
) -> u8
    requires idle { is_busy engine.now.core ≡ false }
    requires place { IfSome printing.place (λ table. table < length (tables_of engine.now.core)) }
    ensures { IsWritten (text_at printing.document printing.place (tables_of engine.now.core) engine.now.core.rows)
        (device_with (K.taken out.old) (K.broken out.old))
        (device_with (K.taken out.new) (K.broken out.new)) 0 result }
{
    let Ok(text) = text_of(alloc, engine, printing) else {
        return refused(alloc, err, RunFault::at(LogFaultKind::Memory, 0));
    };
    match print_bytes(alloc, out, err, &text) {
        Ok(()) => DONE,
        Err(status) => status,
    }
}

/// Prints the rows after the last cut of a feed, says how many requests are carried then, if any are, and that the feed
/// has ended, with the line that was begun last.
fn print_followed<K: Sink, E: Sink>(
    alloc: Global,
    engine: &Engine,
    line: u64,
    printing: Printing,
    out: &mut K,
    err: &mut E,
) -> u8
    requires idle { is_busy engine.now.core ≡ false }
    requires place { IfSome printing.place (λ table. table < length (tables_of engine.now.core)) }
    ensures { IsWritten (text_at printing.document printing.place (tables_of engine.now.core) engine.now.core.rows)
        (device_with (K.taken out.old) (K.broken out.old))
        (device_with (K.taken out.new) (K.broken out.new)) 6 result }
{
    let status = print_rows(alloc, engine, printing, out, err);
    if status != DONE {
        return status;
    }
    let carried = engine.carried();
    if carried > 0 {
        say(alloc, err, &format_args!("carried {carried}"));
    }
    feed_ended(alloc, line, err)
}

/// Runs the log on an engine that has run none, and prints the rows that it leaves.
fn list_on<R: Threads + Wait + Sync, S: Source, K: Sink, E: Sink + Send>(
    rt: &R,
    alloc: Global,
    options: &RunOptions,
    engine: &mut Engine,
    reading: Reading,
    printing: Printing,
    source: &mut S,
    out: &mut K,
    err: &mut E,
) -> u8
    requires fresh { IsFresh engine.old.core }
    requires place { IfSome printing.place (λ table. table < length (tables_of engine.old.core)) }
    ensures { (document : AnyDocument) (settings : Settings) (table : Option (List ℕ)) →
        engine.old.core ≡ engine_on document.setup settings → reading.digest ≡ document.digest →
        IsPlaceOf document.setup.catalogue table printing.place →
        AreRowsOf (printing.document, table) options.now.alone reading.feed document
        (device_with (S.left source.old) (S.failed source.old))
        (device_with (S.left source.new) (S.failed source.new))
        (device_with (K.taken out.old) (K.broken out.old))
        (device_with (K.taken out.new) (K.broken out.new)) result }
{
    let mut report = NoReport;
    let ended = run_engine(
        rt,
        alloc,
        options,
        engine,
        reading,
        source,
        &mut report,
        err,
    );
    if let Some(line) = ended.feed {
        return print_followed(alloc, engine, line, printing, out, err);
    }
    match ended.result {
        Ok(_) => print_rows(alloc, engine, printing, out, err),
        Err(fault) => refused(alloc, err, fault),
    }
}

/// Runs the log on a setup, and prints the rows that it leaves.
fn list<R: Threads + Wait + Sync, S: Source, K: Sink, E: Sink + Send>(
    rt: &R,
    alloc: Global,
    options: &RunOptions,
    document: SetupDocument,
    printing: Printing,
    source: &mut S,
    out: &mut K,
    err: &mut E,
) -> u8
    requires place { IfSome printing.place (λ table. table < length document.setup.catalogue) }
    ensures { (table : Option (List ℕ)) → IsPlaceOf document.setup.catalogue table printing.place →
        AreRowsOf (printing.document, table) options.now.alone options.now.feed document
        (device_with (S.left source.old) (S.failed source.old))
        (device_with (S.left source.new) (S.failed source.new))
        (device_with (K.taken out.old) (K.broken out.old))
        (device_with (K.taken out.new) (K.broken out.new)) result }
{
    let SetupDocument { setup, digest } = document;
    let mut engine = match engine_on(alloc, setup, options.settings) {
        Ok(engine) => engine,
        Err(fault) => return refused(alloc, err, fault),
    };
    let reading = Reading {
        digest,
        feed: options.feed,
    };
    let status = list_on(
        rt,
        alloc,
        options,
        &mut engine,
        reading,
        printing,
        source,
        out,
        err,
    );
    let_go(engine, options.process_ends);
    status
}

// rule: command.rows
/// Prints the rows that the log leaves on the setup of an input: of a feed those after its last cut. Where the table
/// that is asked for isn't there nothing is run.
pub(crate) fn rows<R: Threads + Wait + Sync, F: Files, S: Source, K: Sink, E: Sink + Send>(
    rt: &R,
    alloc: Global,
    options: &RunOptions,
    input: &Input,
    listing: &Listing,
    files: &F,
    source: &mut S,
    out: &mut K,
    err: &mut E,
) -> u8
    ensures { IsRowsCommand (listing.now.document, option_map string_bytes listing.now.table) options.now.alone
        options.now.feed (F.holds files.now) (paths_of input.now)
        (device_with (S.left source.old) (S.failed source.old))
        (device_with (S.left source.new) (S.failed source.new))
        (device_with (K.taken out.old) (K.broken out.old))
        (device_with (K.taken out.new) (K.broken out.new)) result }
{
    let document = match setup_at(alloc, files, input, err) {
        Ok(document) => document,
        Err(status) => return status,
    };
    let place = match place_of(alloc, &document.setup.catalogue, &listing.table, err) {
        Ok(place) => place,
        Err(status) => return status,
    };
    let printing = Printing {
        place,
        document: listing.document,
    };
    list(rt, alloc, options, document, printing, source, out, err)
}
