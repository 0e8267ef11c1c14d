//! Reading a command line.

ghost use Rattle.std.specs.Prelude.{◌≡◌, codes, map, option_map, None, IfErr, IfOk, IfSome, IsNone, string_bytes};
ghost use Rattle.clap.specs.Words.{first_of, found_of, kind_of, rows_of, subcommand_rows_of};
ghost use Rattle.command_line.specs.CommandLine.{AreSettings, AsksFor, IsAskedFor, IsCommand, IsInput, IsListing, IsRefused, IsRunning};
ghost use Rattle.command_line.specs.declared.command.Command.{Command};
ghost use Rattle.command_line.specs.declared.command.Line.{Line};
ghost use Rattle.command_line.specs.declared.line.LineFault.TheVariants.{NoMemory};
ghost use Rattle.dispatcher.specs.declared.settings.Settings.{Settings};

use crate::command::{Command, Input, Line, Listing, Running};
use crate::parser::calvin_command;
use clap::error::ErrorKind;
use clap::{ArgMatches, Error};
use dispatcher::Settings;
use std::alloc::{AllocError, Global};

/// Why a command line was not read.
#[derive(Debug, Drop, PartialEq, Eq, thiserror::Error)]
pub enum LineFault {
    /// The words ask for nothing that is served, or for help. The text says so to the user, in
    /// whole lines.
    #[error("{0}")]
    Refused(String),
    /// Allocation failed.
    #[error("out of memory")]
    NoMemory,
}

impl From<AllocError> for LineFault {
    ghost from_gives = { λ _ fault. fault ≡ NoMemory };

    fn from(_error: AllocError) -> LineFault {
        LineFault::NoMemory
    }
}

// What represents an error of the parser.
fn fault_in(alloc: Global, error: &Error) -> LineFault
    ensures { kind_of error.now ≡ ErrorKind.OutOfMemory → result ≡ LineFault.NoMemory }
{
    if error.kind() == ErrorKind::OutOfMemory {
        return LineFault::NoMemory;
    }
    match error.to_string(alloc) {
        Ok(text) => LineFault::Refused(text),
        Err(AllocError) => LineFault::NoMemory,
    }
}

// The settings, where the options are numbers in their ranges.
fn settings_of(matches: &ArgMatches<'_>) -> Option<Settings>
    ensures some { IfSome result (AreSettings (rows_of (found_of matches.now))) }
    ensures none { IsNone result → (settings : Settings) → ¬ AreSettings (rows_of (found_of matches.now)) settings }
{
    let workers = matches.get_one::<usize>("workers")?;
    let lanes = matches.get_one::<usize>("lanes")?;
    let threshold = matches.get_one::<usize>("coarsen")?;
    let arena = matches.get_one::<usize>("arena")?;
    Settings::new(workers, lanes, threshold, arena).ok()
}

// The text of an option, where it is given.
fn text_of(
    alloc: Global,
    matches: &ArgMatches<'_>,
    name: &str,
) -> Result<Option<String>, AllocError>
    ensures { IfOk result (λ text.
        first_of name.now (rows_of (found_of matches.now)) ≡ option_map string_bytes text) }
{
    match matches.get_str(name) {
        Some(text) => Ok(Some(String::from_str(alloc, text)?)),
        None => Ok(None),
    }
}

// Where the setup is, and the rows in place of its own; `None` where the words name no setup.
fn input_of(alloc: Global, matches: &ArgMatches<'_>) -> Result<Option<Input>, AllocError>
    ensures some { IfOk result (λ o. IfSome o (IsInput (rows_of (found_of matches.now)))) }
    ensures none { IfOk result (λ o. IsNone o → first_of (codes "setup") (rows_of (found_of matches.now)) ≡ None) }
{
    let setup = text_of(alloc, matches, "setup")?;
    let rows = text_of(alloc, matches, "rows")?;
    match setup {
        Some(setup) => Ok(Some(Input { setup, rows })),
        None => Ok(None),
    }
}

// How a log is run.
fn running_of(matches: &ArgMatches<'_>) -> Running
    ensures { IsRunning (rows_of (found_of matches.now)) result }
{
    let alone = matches.get_flag("alone");
    let progress = matches.get_flag("progress");
    let follow = matches.get_flag("follow");
    Running {
        alone,
        progress,
        follow,
    }
}

// Which rows are printed, and how.
fn listing_of(alloc: Global, matches: &ArgMatches<'_>) -> Result<Listing, AllocError>
    ensures { IfOk result (IsListing (rows_of (found_of matches.now))) }
{
    let table = text_of(alloc, matches, "table")?;
    let document = matches.get_flag("document");
    Ok(Listing { table, document })
}

// The command `run`, by its arguments.
fn run_of(alloc: Global, matches: &ArgMatches<'_>) -> Result<Option<Command>, AllocError>
    ensures some { IfOk result (λ o. IfSome o (IsCommand (codes "run") (rows_of (found_of matches.now)))) }
    ensures none { IfOk result (λ o. IsNone o → (command : Command) →
        ¬ IsCommand (codes "run") (rows_of (found_of matches.now)) command) }
{
    match input_of(alloc, matches)? {
        Some(input) => {
            let running = running_of(matches);
            Ok(Some(Command::Run { input, running }))
        }
        None => Ok(None),
    }
}

// The command `rows`, by its arguments.
fn rows_command_of(alloc: Global, matches: &ArgMatches<'_>) -> Result<Option<Command>, AllocError>
    ensures some { IfOk result (λ o. IfSome o (IsCommand (codes "rows") (rows_of (found_of matches.now)))) }
    ensures none { IfOk result (λ o. IsNone o → (command : Command) →
        ¬ IsCommand (codes "rows") (rows_of (found_of matches.now)) command) }
{
    let running = running_of(matches);
    let listing = listing_of(alloc, matches)?;
    match input_of(alloc, matches)? {
        Some(input) => Ok(Some(Command::Rows {
            input,
            running,
            listing,
        })),
        None => Ok(None),
    }
}

// The command `filter`, by its arguments.
fn filter_of(alloc: Global, matches: &ArgMatches<'_>) -> Result<Option<Command>, AllocError>
    ensures some { IfOk result (λ o. IfSome o (IsCommand (codes "filter") (rows_of (found_of matches.now)))) }
    ensures none { IfOk result (λ o. IsNone o → (command : Command) →
        ¬ IsCommand (codes "filter") (rows_of (found_of matches.now)) command) }
{
    match text_of(alloc, matches, "setup")? {
        Some(setup) => Ok(Some(Command::Filter { setup })),
        None => Ok(None),
    }
}

// The command `locks`, by its arguments.
fn locks_of(alloc: Global, matches: &ArgMatches<'_>) -> Result<Option<Command>, AllocError>
    ensures some { IfOk result (λ o. IfSome o (IsCommand (codes "locks") (rows_of (found_of matches.now)))) }
    ensures none { IfOk result (λ o. IsNone o → (command : Command) →
        ¬ IsCommand (codes "locks") (rows_of (found_of matches.now)) command) }
{
    match input_of(alloc, matches)? {
        Some(input) => Ok(Some(Command::Locks { input })),
        None => Ok(None),
    }
}

// The command `check`, by its arguments.
fn check_of(alloc: Global, matches: &ArgMatches<'_>) -> Result<Option<Command>, AllocError>
    ensures some { IfOk result (λ o. IfSome o (IsCommand (codes "check") (rows_of (found_of matches.now)))) }
    ensures none { IfOk result (λ o. IsNone o → (command : Command) →
        ¬ IsCommand (codes "check") (rows_of (found_of matches.now)) command) }
{
    match input_of(alloc, matches)? {
        Some(input) => Ok(Some(Command::Check { input })),
        None => Ok(None),
    }
}

// The command `replicas`, by its arguments.
fn replicas_of(alloc: Global, matches: &ArgMatches<'_>) -> Result<Option<Command>, AllocError>
    ensures some { IfOk result (λ o. IfSome o (IsCommand (codes "replicas") (rows_of (found_of matches.now)))) }
    ensures none { IfOk result (λ o. IsNone o → (command : Command) →
        ¬ IsCommand (codes "replicas") (rows_of (found_of matches.now)) command) }
{
    let Some(input) = input_of(alloc, matches)? else {
        return Ok(None);
    };
    let Some(report) = text_of(alloc, matches, "report")? else {
        return Ok(None);
    };
    let progress = matches.get_flag("progress");
    Ok(Some(Command::Replicas {
        input,
        progress,
        report,
    }))
}

// The command of a name, by its arguments.
fn command_of(
    alloc: Global,
    name: &str,
    matches: &ArgMatches<'_>,
) -> Result<Option<Command>, AllocError>
    ensures some { IfOk result (λ o. IfSome o (IsCommand name.now (rows_of (found_of matches.now)))) }
    ensures none { IfOk result (λ o. IsNone o → (command : Command) →
        ¬ IsCommand name.now (rows_of (found_of matches.now)) command) }
{
    match name {
        "run" => run_of(alloc, matches),
        "rows" => rows_command_of(alloc, matches),
        "filter" => filter_of(alloc, matches),
        "locks" => locks_of(alloc, matches),
        "check" => check_of(alloc, matches),
        "replicas" => replicas_of(alloc, matches),
        _ => Ok(None),
    }
}

// What a parse asks for.
fn line_of(alloc: Global, matches: &ArgMatches<'_>) -> Result<Option<Line>, AllocError>
    ensures some { IfOk result (λ o. IfSome o (AsksFor (subcommand_rows_of matches.now))) }
    ensures none { IfOk result (λ o. IsNone o → (line : Line) → ¬ AsksFor (subcommand_rows_of matches.now) line) }
{
    let Some((name, found)) = matches.subcommand() else {
        return Ok(None);
    };
    let Some(settings) = settings_of(found) else {
        return Ok(None);
    };
    let Some(command) = command_of(alloc, name, found)? else {
        return Ok(None);
    };
    Ok(Some(Line { command, settings }))
}

// rule: option.range
/// Reads a command line, the words after the program's name. Where an option is left out, there
/// are 4 workers, 8 lanes, 64 entries before coarsening and room for 65,536 requests.
///
/// Words that ask for no line are `Refused`, with the text that `clap` answers in place of a line;
/// a call for help is refused with the help. `NoMemory` is answered where allocation failed.
pub fn read_line(alloc: Global, words: &[String]) -> Result<Line, LineFault>
    ensures line { IfOk result (IsAskedFor (map string_bytes words.now)) }
    ensures refused { IfErr result (λ fault. IsRefused fault → (line : Line) →
        ¬ IsAskedFor (map string_bytes words.now) line) }
{
    let command = calvin_command(alloc)?;
    let matches = match command.try_get_matches_from(words) {
        Ok(matches) => matches,
        Err(error) => return Err(fault_in(alloc, &error)),
    };
    match line_of(alloc, &matches)? {
        Some(line) => Ok(line),
        None => Err(unserved(alloc)),
    }
}

// Represents what the parser lets through and no line answers: no words are known that lead here.
fn unserved(alloc: Global) -> LineFault {
    match String::from_str(alloc, "error: the command is not served\n") {
        Ok(text) => LineFault::Refused(text),
        Err(AllocError) => LineFault::NoMemory,
    }
}
