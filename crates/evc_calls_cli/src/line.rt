//! Reads the command line.
ghost use Rattle.std.specs.Prelude.{◌≡◌, IfOk, codes, false, option_map};
ghost use Rattle.clap.specs.Words.{FailsBy, app_of, first_of, found_of, kind_of, new_app};
ghost use Rattle.clap.specs.Words.{rows_of, rule_of, subcommand_of, subcommand_rows_of};
ghost use Rattle.clap.specs.declared.builder.command.Command.TheViews.{out-Command as fields_of};
ghost use Rattle.evc_calls_cli.specs.CommandLine.{file_rule, command_app, bare_app, program_app};
ghost use Rattle.evc_calls_cli.specs.CommandLine.{judging_app, texts_of, action_of, action_in};
ghost use Rattle.evc_calls_cli.specs.CommandLine.{file_in, faults_in, status_by, ReadsPlainLines};

use crate::choice::{Action, Task};
use crate::help;
use clap::error::ErrorKind;
use clap::{Arg, ArgAction, ArgMatches, Command, Error};
use std::alloc::{AllocError, Global};

/// Returns the argument that names a file.
fn file_argument<'a>(alloc: Global, help: &'a str) -> Arg<'a>
    ensures rule { rule_of result ≡ file_rule }
    ensures local { result.global ≡ false }
{
    Arg::new(alloc, "file")
        .value_name("FILE")
        .help(help)
        .action(ArgAction::Set)
}

/// Returns the command of this name, which takes a file. The texts are its help.
fn file_command<'a>(
    alloc: Global,
    name: &'a str,
    about: &'a str,
    long_about: &'a str,
    file: &'a str,
) -> Result<Command<'a>, AllocError>
    ensures app { IfOk result (λ c. app_of c ≡ command_app name.now) }
    ensures local { IfOk result (λ c. (fields_of c).has_globals ≡ false) }
{
    let file = file_argument(alloc, file);
    Command::new(alloc, name)
        .about(about)
        .long_about(long_about)
        .arg(file)
}

/// Returns the program without its commands.
fn bare_command<'a>(alloc: Global) -> Command<'a>
    ensures { app_of result ≡ bare_app }
{
    Command::new(alloc, "evc-calls")
        .about(help::ABOUT)
        .long_about(help::LONG_ABOUT)
        .after_help(help::AFTER_HELP)
        .version(help::VERSION)
        .subcommand_required(true)
}

/// Returns the program with the commands that judge histories.
fn judging_program<'a>(alloc: Global) -> Result<Command<'a>, AllocError>
    ensures { IfOk result (λ c. app_of c ≡ judging_app) }
{
    let (about, text) = (help::CHECK_ABOUT, help::CHECK_LONG_ABOUT);
    let check = file_command(alloc, "check", about, text, help::FILE)?;
    let (about, text) = (help::WATCH_ABOUT, help::WATCH_LONG_ABOUT);
    let watch = file_command(alloc, "watch", about, text, help::FILE)?;
    bare_command(alloc).subcommand(check)?.subcommand(watch)
}

/// Returns the program with its commands.
fn program<'a>(alloc: Global) -> Result<Command<'a>, AllocError>
    ensures { IfOk result (λ c. app_of c ≡ program_app) }
{
    let (about, text) = (help::OF_ABOUT, help::OF_LONG_ABOUT);
    let of = file_command(alloc, "of", about, text, help::TRACE_FILE)?;
    let (about, text) = (help::TRACE_ABOUT, help::TRACE_LONG_ABOUT);
    let trace = file_command(alloc, "trace", about, text, help::HISTORY_FILE)?;
    judging_program(alloc)?.subcommand(of)?.subcommand(trace)
}

/// Returns what clap finds in the words.
fn matches_in<'a>(alloc: Global, words: &'a [String]) -> Result<ArgMatches<'a>, Error>
    ensures found { IfOk result (λ m. subcommand_rows_of m
        ≡ subcommand_of program_app (texts_of words.now)) }
    ensures faults { FailsBy (faults_in (texts_of words.now)) result }
{
    program(alloc)?.try_get_matches_from(words)
}

/// Returns the action of a command.
fn action_by_name(name: &str) -> Action
    ensures { result ≡ action_of name.now }
{
    match name {
        "watch" => Action::Watch,
        "of" => Action::Of,
        "trace" => Action::Trace,
        _ => Action::Check,
    }
}

/// Returns the file that clap found after a command.
fn file_value<'a>(found: &ArgMatches<'a>) -> Option<&'a str>
    ensures { option_map (λ f. f.now) result
        ≡ first_of (codes "file") (rows_of (found_of found.now)) }
{
    found.get_str("file")
}

/// Reads the command line, whose first word is the program's name.
///
/// An `Err` is out of memory, or says what is wrong with the words. If they ask for the help or the
/// version, it is that text. `Error::print` writes it to the stream where it belongs.
pub fn task<'a>(alloc: Global, words: &'a [String]) -> Result<Task<'a>, Error>
    ensures action { IfOk result (λ t. t.action ≡ action_in (texts_of words.now)) }
    ensures file { IfOk result (λ t. option_map (λ f. f.now) t.file ≡ file_in (texts_of words.now)) }
    ensures faults { FailsBy (faults_in (texts_of words.now)) result }
{
    let matches = matches_in(alloc, words)?;
    let Some((name, found)) = matches.subcommand() else {
        return Ok(Task {
            action: Action::Check,
            file: None,
        });
    };
    Ok(Task {
        action: action_by_name(name),
        file: file_value(found),
    })
}

/// Returns the exit status of a program whose command line gave no task.
pub fn status_of(error: &Error) -> u8
    ensures { result ≡ status_by (kind_of error.now) }
{
    match error.kind() {
        ErrorKind::DisplayHelp | ErrorKind::DisplayVersion => 0,
        ErrorKind::OutOfMemory => 4,
        _ => 2,
    }
}

/// States that the plainest command lines mean what a user expects.
#[tactic(auto, using(crate::proofs::PlainLines::plain_lines_are_read))]
pub fn plain_lines()
    ensures { ReadsPlainLines }
{}
