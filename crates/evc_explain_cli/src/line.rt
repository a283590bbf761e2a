//! Reads the command line.
ghost use Rattle.std.specs.Prelude.{◌≡◌, IfOk, codes, false, option_map};
ghost use Rattle.clap.specs.Words.{FailsBy, app_of, first_of, found_of, kind_of, rows_of, rule_of};
ghost use Rattle.evc_explain_cli.specs.CommandLine.{file_rule, bare_app, explain_app, texts_of};
ghost use Rattle.evc_explain_cli.specs.CommandLine.{rows_in, file_in, faults_in, status_by};
ghost use Rattle.evc_explain_cli.specs.CommandLine.{ReadsPlainLines};

use crate::help;
use clap::error::ErrorKind;
use clap::{Arg, ArgAction, ArgMatches, Command, Error};
use std::alloc::{AllocError, Global};

/// Returns the argument that names the file.
fn file_argument<'a>(alloc: Global) -> Arg<'a>
    ensures rule { rule_of result ≡ file_rule }
    ensures local { result.global ≡ false }
{
    Arg::new(alloc, "file")
        .value_name("FILE")
        .help(help::FILE)
        .action(ArgAction::Set)
}

/// Returns the command without its argument.
fn bare_command<'a>(alloc: Global) -> Command<'a>
    ensures { app_of result ≡ bare_app }
{
    Command::new(alloc, "evc-explain")
        .about(help::ABOUT)
        .long_about(help::LONG_ABOUT)
        .after_help(help::AFTER_HELP)
        .version(help::VERSION)
}

/// Returns the command `evc-explain`.
fn program<'a>(alloc: Global) -> Result<Command<'a>, AllocError>
    ensures { IfOk result (λ c. app_of c ≡ explain_app) }
{
    let file = file_argument(alloc);
    bare_command(alloc).arg(file)
}

/// Returns what clap finds in the words.
fn matches_in<'a>(alloc: Global, words: &'a [String]) -> Result<ArgMatches<'a>, Error>
    ensures found { IfOk result (λ m. rows_of (found_of m) ≡ rows_in (texts_of words.now)) }
    ensures faults { FailsBy (faults_in (texts_of words.now)) result }
{
    program(alloc)?.try_get_matches_from(words)
}

/// Returns the file that clap found.
fn file_value<'a>(found: &ArgMatches<'a>) -> Option<&'a str>
    ensures { option_map (λ f. f.now) result
        ≡ first_of (codes "file") (rows_of (found_of found.now)) }
{
    found.get_str("file")
}

/// Reads the command line, whose first word is the program's name, and returns the file that it
/// names.
///
/// An `Err` that is not out of memory says what is wrong with the words, or is the text of the help
/// or the version that they ask for. `Error::print` writes it where it belongs.
pub fn file_named<'a>(alloc: Global, words: &'a [String]) -> Result<Option<&'a str>, Error>
    ensures file { IfOk result (λ f. option_map (λ w. w.now) f ≡ file_in (texts_of words.now)) }
    ensures faults { FailsBy (faults_in (texts_of words.now)) result }
{
    let matches = matches_in(alloc, words)?;
    Ok(file_value(&matches))
}

/// Returns the exit status of a program whose command line asked for no text to be explained.
pub fn status_of(error: &Error) -> u8
    ensures { result ≡ status_by (kind_of error.now) }
{
    match error.kind() {
        ErrorKind::DisplayHelp | ErrorKind::DisplayVersion => 0,
        ErrorKind::OutOfMemory => 4,
        _ => 2,
    }
}

/// States that the plainest command lines mean what a user expects.
#[tactic(auto, using(crate::proofs::PlainLines::plain_lines_are_read))]
pub fn plain_lines()
    ensures { ReadsPlainLines }
{}
