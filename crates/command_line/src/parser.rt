//! The command line as `clap` parses it, with its help.

ghost use Rattle.std.specs.Prelude.{◌≡◌, codes, IfOk, false, true};
ghost use Rattle.clap.specs.Simple.{on_top};
ghost use Rattle.clap.specs.Words.{app_of, new_app, rule_of};
ghost use Rattle.clap.specs.declared.builder.command.Command.TheViews.{out-Command as fields_of};
ghost use Rattle.command_line.specs.Words.{calvin_app, check_app, filter_app, flag_rule, locks_app, number_rule, replicas_app, rows_app, run_app, text_rule, with_input, with_running, with_settings, word_rule};

use crate::help::{
    ABOUT, ALONE_HELP, ARENA_HELP, CHECK_ABOUT, CHECK_EXAMPLE, COARSEN_HELP, DOCUMENT_HELP,
    EXAMPLE, FILTER_ABOUT, FILTER_EXAMPLE, FOLLOW_HELP, LANES_HELP, LOCKS_ABOUT, LOCKS_EXAMPLE,
    PROGRESS_HELP, REPLICAS_ABOUT, REPLICAS_EXAMPLE, REPORT_HELP, ROWS_ABOUT, ROWS_EXAMPLE,
    ROWS_HELP, RUN_ABOUT, RUN_EXAMPLE, SETUP_HELP, TABLE_HELP, VERSION, WORKERS_HELP,
};
use clap::builder::ValueParser;
use clap::{Arg, ArgAction, Command};
use std::alloc::{AllocError, Global};

/// An option whose value is a number from `least` to `most`, which help calls by a letter.
fn number_option<'a>(
    alloc: Global,
    name: &'a str,
    letter: &'a str,
    least: u64,
    most: u64,
    default: &'a str,
    help: &'a str,
) -> Arg<'a>
    ensures rule { rule_of result ≡ number_rule name.entry.now least most default.entry.now }
    ensures local { result.global ≡ false }
{
    Arg::new(alloc, name)
        .long(name)
        .value_name(letter)
        .action(ArgAction::Set)
        .value_parser(ValueParser::unsigned(least, most))
        .default_value(default)
        .help(help)
}

/// An option without a value.
fn flag_option<'a>(alloc: Global, name: &'a str, help: &'a str) -> Arg<'a>
    ensures rule { rule_of result ≡ flag_rule name.entry.now }
    ensures local { result.global ≡ false }
{
    Arg::new(alloc, name)
        .long(name)
        .action(ArgAction::SetTrue)
        .help(help)
}

fn progress_option<'a>(alloc: Global) -> Arg<'a>
    ensures rule { rule_of result ≡ flag_rule (codes "progress") }
    ensures local { result.global ≡ false }
{
    flag_option(alloc, "progress", PROGRESS_HELP)
}

/// An option whose value is a text, which help calls by its `value_name`.
fn text_option<'a>(alloc: Global, name: &'a str, value_name: &'a str, help: &'a str) -> Arg<'a>
    ensures rule { rule_of result ≡ text_rule name.entry.now }
    ensures local { result.global ≡ false }
{
    Arg::new(alloc, name)
        .long(name)
        .value_name(value_name)
        .action(ArgAction::Set)
        .help(help)
}

/// A word that must be there, which help calls by its `value_name`.
fn required_word<'a>(alloc: Global, name: &'a str, value_name: &'a str, help: &'a str) -> Arg<'a>
    ensures rule { rule_of result ≡ word_rule name.entry.now }
    ensures local { result.global ≡ false }
{
    Arg::new(alloc, name)
        .value_name(value_name)
        .required(true)
        .action(ArgAction::Set)
        .help(help)
}

fn workers_option<'a>(alloc: Global) -> Arg<'a>
    ensures rule { rule_of result ≡ number_rule (codes "workers") 1 16 (codes "4") }
    ensures local { result.global ≡ false }
{
    number_option(alloc, "workers", "N", 1, 16, "4", WORKERS_HELP)
}

fn lanes_option<'a>(alloc: Global) -> Arg<'a>
    ensures rule { rule_of result ≡ number_rule (codes "lanes") 1 64 (codes "8") }
    ensures local { result.global ≡ false }
{
    number_option(alloc, "lanes", "N", 1, 64, "8", LANES_HELP)
}

fn coarsen_option<'a>(alloc: Global) -> Arg<'a>
    ensures rule { rule_of result ≡ number_rule (codes "coarsen") 0 65535 (codes "64") }
    ensures local { result.global ≡ false }
{
    number_option(alloc, "coarsen", "K", 0, 65_535, "64", COARSEN_HELP)
}

fn arena_option<'a>(alloc: Global) -> Arg<'a>
    ensures rule { rule_of result ≡ number_rule (codes "arena") 1 1048576 (codes "65536") }
    ensures local { result.global ≡ false }
{
    number_option(alloc, "arena", "C", 1, 1_048_576, "65536", ARENA_HELP)
}

/// The command with the options of the settings.
fn with_settings<'a>(alloc: Global, command: Command<'a>) -> Result<Command<'a>, AllocError>
    requires { (fields_of command).has_globals ≡ false }
    ensures app { IfOk result (λ r. app_of r ≡ with_settings (app_of command.entry)) }
    ensures local { IfOk result (λ r. (fields_of r).has_globals ≡ false) }
{
    let workers = workers_option(alloc);
    let lanes = lanes_option(alloc);
    let coarsen = coarsen_option(alloc);
    let arena = arena_option(alloc);
    command.arg(workers)?.arg(lanes)?.arg(coarsen)?.arg(arena)
}

/// The command with the words and options of its setup and of the rows in place of the setup's.
fn with_input<'a>(alloc: Global, command: Command<'a>) -> Result<Command<'a>, AllocError>
    requires { (fields_of command).has_globals ≡ false }
    ensures app { IfOk result (λ r. app_of r ≡ with_input (app_of command.entry)) }
    ensures local { IfOk result (λ r. (fields_of r).has_globals ≡ false) }
{
    let setup = required_word(alloc, "setup", "SETUP", SETUP_HELP);
    let rows = text_option(alloc, "rows", "FILE", ROWS_HELP);
    command.arg(setup)?.arg(rows)
}

/// The command with the options of a run.
fn with_running<'a>(alloc: Global, command: Command<'a>) -> Result<Command<'a>, AllocError>
    requires { (fields_of command).has_globals ≡ false }
    ensures app { IfOk result (λ r. app_of r ≡ with_running (app_of command.entry)) }
    ensures local { IfOk result (λ r. (fields_of r).has_globals ≡ false) }
{
    let alone = flag_option(alloc, "alone", ALONE_HELP);
    let progress = progress_option(alloc);
    let follow = flag_option(alloc, "follow", FOLLOW_HELP);
    command.arg(alone)?.arg(progress)?.arg(follow)
}

/// A command with its help, and without arguments.
fn bare_command<'a>(alloc: Global, name: &'a str, about: &'a str, example: &'a str) -> Command<'a>
    ensures app { app_of result ≡ new_app name.entry.now }
    ensures local { (fields_of result).has_globals ≡ false }
{
    Command::new(alloc, name).about(about).after_help(example)
}

/// The command `run`.
fn run_command<'a>(alloc: Global) -> Result<Command<'a>, AllocError>
    ensures app { IfOk result (λ r. app_of r ≡ run_app) }
    ensures local { IfOk result (λ r. (fields_of r).has_globals ≡ false) }
{
    let command = bare_command(alloc, "run", RUN_ABOUT, RUN_EXAMPLE);
    let command = with_input(alloc, command)?;
    let command = with_running(alloc, command)?;
    with_settings(alloc, command)
}

/// The command `rows`.
fn rows_command<'a>(alloc: Global) -> Result<Command<'a>, AllocError>
    ensures app { IfOk result (λ r. app_of r ≡ rows_app) }
    ensures local { IfOk result (λ r. (fields_of r).has_globals ≡ false) }
{
    let table = text_option(alloc, "table", "NAME", TABLE_HELP);
    let document = flag_option(alloc, "document", DOCUMENT_HELP);
    let command = bare_command(alloc, "rows", ROWS_ABOUT, ROWS_EXAMPLE);
    let command = with_input(alloc, command)?;
    let command = with_running(alloc, command)?.arg(table)?.arg(document)?;
    with_settings(alloc, command)
}

/// The command `filter`.
fn filter_command<'a>(alloc: Global) -> Result<Command<'a>, AllocError>
    ensures app { IfOk result (λ r. app_of r ≡ filter_app) }
    ensures local { IfOk result (λ r. (fields_of r).has_globals ≡ false) }
{
    let setup = required_word(alloc, "setup", "SETUP", SETUP_HELP);
    let command = bare_command(alloc, "filter", FILTER_ABOUT, FILTER_EXAMPLE);
    with_settings(alloc, command.arg(setup)?)
}

/// The command `locks`.
fn locks_command<'a>(alloc: Global) -> Result<Command<'a>, AllocError>
    ensures app { IfOk result (λ r. app_of r ≡ locks_app) }
    ensures local { IfOk result (λ r. (fields_of r).has_globals ≡ false) }
{
    let command = bare_command(alloc, "locks", LOCKS_ABOUT, LOCKS_EXAMPLE);
    let command = with_input(alloc, command)?;
    with_settings(alloc, command)
}

/// The command `check`.
fn check_command<'a>(alloc: Global) -> Result<Command<'a>, AllocError>
    ensures app { IfOk result (λ r. app_of r ≡ check_app) }
    ensures local { IfOk result (λ r. (fields_of r).has_globals ≡ false) }
{
    let command = bare_command(alloc, "check", CHECK_ABOUT, CHECK_EXAMPLE);
    let command = with_input(alloc, command)?;
    with_settings(alloc, command)
}

/// The command `replicas`.
fn replicas_command<'a>(alloc: Global) -> Result<Command<'a>, AllocError>
    ensures app { IfOk result (λ r. app_of r ≡ replicas_app) }
    ensures local { IfOk result (λ r. (fields_of r).has_globals ≡ false) }
{
    let report = required_word(alloc, "report", "REPORT", REPORT_HELP);
    let progress = progress_option(alloc);
    let command = bare_command(alloc, "replicas", REPLICAS_ABOUT, REPLICAS_EXAMPLE);
    let command = with_input(alloc, command)?.arg(report)?.arg(progress)?;
    with_settings(alloc, command)
}

/// The program's name, what it is for, and its version.
fn described<'a>(alloc: Global) -> Result<Command<'a>, AllocError>
    ensures app { IfOk result
        (λ r. app_of r ≡ on_top (λ s. record s { has_version = true }) (new_app (codes "calvin"))) }
    ensures local { IfOk result (λ r. (fields_of r).has_globals ≡ false) }
{
    let command = Command::new(alloc, "calvin").bin_name("calvin")?;
    Ok(command.about(ABOUT).version(VERSION).after_help(EXAMPLE))
}

/// The whole command line, without the program's name.
pub(crate) fn calvin_command<'a>(alloc: Global) -> Result<Command<'a>, AllocError>
    ensures { IfOk result (λ r. app_of r ≡ calvin_app) }
{
    let run = run_command(alloc)?;
    let rows = rows_command(alloc)?;
    let filter = filter_command(alloc)?;
    let replicas = replicas_command(alloc)?;
    let locks = locks_command(alloc)?;
    let check = check_command(alloc)?;
    described(alloc)?
        .no_binary_name(true)
        .subcommand_required(true)
        .arg_required_else_help(true)
        .subcommand(run)?
        .subcommand(rows)?
        .subcommand(filter)?
        .subcommand(replicas)?
        .subcommand(locks)?
        .subcommand(check)
}
