//! Reads the command line.
ghost use Rattle.std.specs.Prelude.{◌≡◌, IfNone, IfOk, IfSome, codes, false, option_map};
ghost use Rattle.clap.specs.Words.{FailsBy, app_of, first_of, found_of, kind_of, rows_of, rule_of};
ghost use Rattle.clap.specs.Words.{subcommand_of, subcommand_rows_of};
ghost use Rattle.clap.specs.declared.builder.command.Command.TheViews.{out-Command as fields_of};
ghost use Rattle.evc_cli.specs.CommandLine.{IsOneOf, NamesTask, ReadsPlainLines, ReadsTurns};
ghost use Rattle.evc_cli.specs.CommandLine.{bare_app, command_app, command_names, evc_app};
ghost use Rattle.evc_cli.specs.CommandLine.{faults_in, file_in, file_rule, name_of, run_app};
ghost use Rattle.evc_cli.specs.CommandLine.{status_by, texts_of, trace_app, turns_text};
ghost use Rattle.evc_cli.specs.Turns.{HasTurnsInRange, HasTurnsOf, IsInRange, IsTurnsOf};
ghost use Rattle.evc_cli.specs.Turns.{PassTurns, turns_rule};

use crate::choice::{Request, Task};
use crate::help;
use clap::error::ErrorKind;
use clap::{Arg, ArgAction, ArgMatches, Command, Error, value_parser};
use std::alloc::{AllocError, Global};

/// The most turns of each worker of `run`, if the command line doesn't say.
const DEFAULT_TURNS: u64 = 10_000;

/// Returns the argument that names a file.
fn file_argument<'a>(alloc: Global, help: &'a str) -> Arg<'a>
    ensures rule { rule_of result ≡ file_rule }
    ensures local { result.global ≡ false }
{
    Arg::new(alloc, "file")
        .value_name("FILE")
        .help(help)
        .action(ArgAction::Set)
}

/// Returns the command of this name, which takes a file. The texts are its help.
fn file_command<'a>(
    alloc: Global,
    name: &'a str,
    about: &'a str,
    long_about: &'a str,
    file: &'a str,
) -> Result<Command<'a>, AllocError>
    ensures app { IfOk result (λ c. app_of c ≡ command_app name.now) }
    ensures local { IfOk result (λ c. (fields_of c).has_globals ≡ false) }
{
    let file = file_argument(alloc, file);
    Command::new(alloc, name)
        .about(about)
        .long_about(long_about)
        .arg(file)
}

/// Returns the option that says how many turns each worker has.
fn turns_argument<'a>(alloc: Global) -> Arg<'a>
    ensures rule { rule_of result ≡ turns_rule }
    ensures local { result.global ≡ false }
{
    Arg::new(alloc, "turns")
        .long("turns")
        .value_name("N")
        .help(help::TURNS)
        .action(ArgAction::Set)
        .value_parser(value_parser!(u64).range(1..=1_000_000))
}

/// Returns the command `run`.
fn run_command<'a>(alloc: Global) -> Result<Command<'a>, AllocError>
    ensures app { IfOk result (λ c. app_of c ≡ run_app) }
    ensures local { IfOk result (λ c. (fields_of c).has_globals ≡ false) }
{
    let (about, text) = (help::RUN_ABOUT, help::RUN_LONG_ABOUT);
    let turns = turns_argument(alloc);
    file_command(alloc, "run", about, text, help::SCRIPT_FILE)?.arg(turns)
}

/// Returns the program without its commands.
fn bare_command<'a>(alloc: Global) -> Command<'a>
    ensures { app_of result ≡ bare_app }
{
    Command::new(alloc, "evc")
        .about(help::ABOUT)
        .long_about(help::LONG_ABOUT)
        .after_help(help::AFTER_HELP)
        .version(help::VERSION)
        .subcommand_required(true)
}

/// Returns the program with the commands that read traces.
fn trace_command<'a>(alloc: Global) -> Result<Command<'a>, AllocError>
    ensures { IfOk result (λ c. app_of c ≡ trace_app) }
{
    let (about, text) = (help::CHECK_ABOUT, help::CHECK_LONG_ABOUT);
    let check = file_command(alloc, "check", about, text, help::TRACE_FILE)?;
    let (about, text) = (help::AUDIT_ABOUT, help::AUDIT_LONG_ABOUT);
    let audit = file_command(alloc, "audit", about, text, help::TRACE_FILE)?;
    let (about, text) = (help::UPGRADE_ABOUT, help::UPGRADE_LONG_ABOUT);
    let upgrade = file_command(alloc, "upgrade", about, text, help::TRACE_FILE)?;
    bare_command(alloc)
        .subcommand(check)?
        .subcommand(audit)?
        .subcommand(upgrade)
}

/// Returns the program with its commands.
fn evc_command<'a>(alloc: Global) -> Result<Command<'a>, AllocError>
    ensures { IfOk result (λ c. app_of c ≡ evc_app) }
{
    let (about, text) = (help::SIM_ABOUT, help::SIM_LONG_ABOUT);
    let sim = file_command(alloc, "sim", about, text, help::SCRIPT_FILE)?;
    let run = run_command(alloc)?;
    trace_command(alloc)?.subcommand(sim)?.subcommand(run)
}

/// Returns what clap finds in the words.
fn matches_in<'a>(alloc: Global, words: &'a [String]) -> Result<ArgMatches<'a>, Error>
    ensures found { IfOk result (λ m. subcommand_rows_of m
        ≡ subcommand_of evc_app (texts_of words.now)) }
    ensures faults { FailsBy (faults_in (texts_of words.now)) result }
{
    evc_command(alloc)?.try_get_matches_from(words)
}

/// Returns the number that was given for `--turns`, from what clap found after `run`.
fn turns_option(found: &ArgMatches<'_>) -> u64
    requires { PassTurns (rows_of (found_of found.now)) }
    ensures given { IsTurnsOf (first_of (codes "turns") (rows_of (found_of found.now))) result }
    ensures range { IsInRange result }
{
    found.get_one::<u64>("turns").unwrap_or(DEFAULT_TURNS)
}

/// Returns the task of a command, `None` if there is no command of this name.
fn task_by_name(name: &str, found: &ArgMatches<'_>) -> Option<Task>
    requires { name.now ≡ codes "run" → PassTurns (rows_of (found_of found.now)) }
    ensures found { IfSome result (λ t. name_of t ≡ name.now) }
    ensures turns { IfSome result
        (HasTurnsOf (first_of (codes "turns") (rows_of (found_of found.now)))) }
    ensures range { IfSome result HasTurnsInRange }
    ensures unknown { IfNone result (¬ IsOneOf command_names name.now) }
{
    match name {
        "check" => Some(Task::Check),
        "audit" => Some(Task::Audit),
        "upgrade" => Some(Task::Upgrade),
        "sim" => Some(Task::Sim),
        "run" => Some(Task::Run(turns_option(found))),
        _ => None,
    }
}

/// Returns the file that clap found after a command.
fn file_value<'a>(found: &ArgMatches<'a>) -> Option<&'a str>
    ensures { option_map (λ f. f.now) result
        ≡ first_of (codes "file") (rows_of (found_of found.now)) }
{
    found.get_str("file")
}

/// Reads the command line, whose first word is the program's name.
///
/// An `Err` that is not out of memory says what is wrong with the words, or is the help or the
/// version that they ask for. `Error::print` writes it to standard error or standard output.
pub fn request<'a>(alloc: Global, words: &'a [String]) -> Result<Request<'a>, Error>
    ensures names { IfOk result (λ r. NamesTask (texts_of words.now) r.task) }
    ensures turns { IfOk result (λ r. HasTurnsOf (turns_text (texts_of words.now)) r.task) }
    ensures range { IfOk result (λ r. HasTurnsInRange r.task) }
    ensures file { IfOk result (λ r. option_map (λ f. f.now) r.file
        ≡ file_in (texts_of words.now)) }
    ensures faults { FailsBy (faults_in (texts_of words.now)) result }
{
    let matches = matches_in(alloc, words)?;
    let Some((name, found)) = matches.subcommand() else {
        unreachable!()
    };
    let Some(task) = task_by_name(name, found) else {
        unreachable!()
    };
    Ok(Request {
        task,
        file: file_value(found),
    })
}

/// Returns the exit status for a command line that gives no request.
pub fn status_of(error: &Error) -> u8
    ensures { result ≡ status_by (kind_of error.now) }
{
    match error.kind() {
        ErrorKind::DisplayHelp | ErrorKind::DisplayVersion => 0,
        ErrorKind::OutOfMemory => 4,
        _ => 2,
    }
}

/// States that the plainest command lines mean what a user expects.
#[tactic(auto, using(crate::proofs::PlainLines::plain_lines_are_read))]
pub fn plain_lines()
    ensures { ReadsPlainLines }
{}

/// States that `run --turns N` is right for exactly the numbers from 1 to 1000000, and gives that
/// many turns.
#[tactic(auto, using(crate::proofs::AnyTurns::turns_are_read))]
pub fn turns_lines()
    ensures { ReadsTurns }
{}
