//! Reads the command line.
ghost use Rattle.std.specs.Prelude.{◌≡◌, IfOk, codes, false, map, option_map};
ghost use Rattle.clap.specs.Words.{FailsBy, all_of, app_of, first_of, found_of, kind_of};
ghost use Rattle.clap.specs.Words.{rows_of, rule_of};
ghost use Rattle.evc_draw_cli.specs.CommandLine.{ReadsPlainLines, bare_app, bounds_app};
ghost use Rattle.evc_draw_cli.specs.CommandLine.{draw_app, faults_in, file_rule, flag_rule};
ghost use Rattle.evc_draw_cli.specs.CommandLine.{form_by, form_in, forms_app, given_in};
ghost use Rattle.evc_draw_cli.specs.CommandLine.{names_given, names_in, option_rule, rows_in};
ghost use Rattle.evc_draw_cli.specs.CommandLine.{status_by, texts_of};
ghost use Rattle.clap.specs.declared.builder.action.ArgAction.TheVariants.{Append, Set};

use crate::choice::{Form, Task};
use crate::help;
use clap::error::ErrorKind;
use clap::{Arg, ArgAction, ArgMatches, Command, Error};
use std::alloc::{AllocError, Global};

/// Returns an option that takes no value.
fn flag<'a>(alloc: Global, name: &'a str, help: &'a str) -> Arg<'a>
    ensures rule { rule_of result ≡ flag_rule name.now }
    ensures local { result.global ≡ false }
{
    Arg::new(alloc, name)
        .long(name)
        .help(help)
        .action(ArgAction::Count)
}

/// Returns an option that takes a value and is given once.
fn bound<'a>(alloc: Global, name: &'a str, help: &'a str) -> Arg<'a>
    ensures rule { rule_of result ≡ option_rule Set name.now }
    ensures local { result.global ≡ false }
{
    Arg::new(alloc, name)
        .long(name)
        .value_name("N")
        .help(help)
        .action(ArgAction::Set)
}

/// Returns an option that takes a name, and may be given more than once.
fn choice<'a>(alloc: Global, name: &'a str, help: &'a str) -> Arg<'a>
    ensures rule { rule_of result ≡ option_rule Append name.now }
    ensures local { result.global ≡ false }
{
    Arg::new(alloc, name)
        .long(name)
        .value_name("NAME")
        .help(help)
        .action(ArgAction::Append)
}

/// Returns the argument that names the file.
fn file_argument<'a>(alloc: Global) -> Arg<'a>
    ensures rule { rule_of result ≡ file_rule }
    ensures local { result.global ≡ false }
{
    Arg::new(alloc, "file")
        .value_name("FILE")
        .help(help::FILE)
        .action(ArgAction::Set)
}

/// Returns clap's command for the program without its options.
fn bare_command<'a>(alloc: Global) -> Command<'a>
    ensures { app_of result ≡ bare_app }
{
    Command::new(alloc, "evc-draw")
        .about(help::ABOUT)
        .long_about(help::LONG_ABOUT)
        .after_help(help::AFTER_HELP)
        .version(help::VERSION)
}

/// Returns the command with the options for the form of a picture.
fn with_forms<'a>(alloc: Global) -> Result<Command<'a>, AllocError>
    ensures { IfOk result (λ c. app_of c ≡ forms_app) }
{
    let text = flag(alloc, "text", help::TEXT);
    let html = flag(alloc, "html", help::HTML);
    bare_command(alloc).arg(text)?.arg(html)
}

/// Returns the command with these options, and with the bounds of the range.
fn with_bounds<'a>(alloc: Global) -> Result<Command<'a>, AllocError>
    ensures { IfOk result (λ c. app_of c ≡ bounds_app) }
{
    let from = bound(alloc, "from", help::FROM);
    let to = bound(alloc, "to", help::TO);
    with_forms(alloc)?.arg(from)?.arg(to)
}

/// Returns clap's command for the program, with all options.
fn program<'a>(alloc: Global) -> Result<Command<'a>, AllocError>
    ensures { IfOk result (λ c. app_of c ≡ draw_app) }
{
    let worker = choice(alloc, "worker", help::WORKER);
    let object = choice(alloc, "object", help::OBJECT);
    let file = file_argument(alloc);
    with_bounds(alloc)?.arg(worker)?.arg(object)?.arg(file)
}

/// Returns what clap finds in the words.
fn matches_in<'a>(alloc: Global, words: &'a [String]) -> Result<ArgMatches<'a>, Error>
    ensures found { IfOk result (λ m. rows_of (found_of m) ≡ rows_in (texts_of words.now)) }
    ensures faults { FailsBy (faults_in (texts_of words.now)) result }
{
    program(alloc)?.try_get_matches_from(words)
}

/// Returns the form that the options give.
fn form_option(found: &ArgMatches<'_>) -> Form
    ensures { result ≡ form_by (rows_of (found_of found.now)) }
{
    if found.get_count("html") > 0 {
        return Form::Html;
    }
    if found.get_count("text") > 0 {
        return Form::Text;
    }
    Form::Svg
}

/// Returns the word that was given for an option or an argument, `None` if none was.
fn word_argument<'a>(found: &ArgMatches<'a>, name: &str) -> Option<&'a str>
    ensures { option_map (λ w. w.now) result ≡ first_of name.now (rows_of (found_of found.now)) }
{
    found.get_str(name)
}

/// Returns the words that were given for an option.
#[tactic(auto, using(crate::proofs::Found::names_some, crate::proofs::Found::names_none))]
fn word_arguments<'a>(
    alloc: Global,
    found: &ArgMatches<'a>,
    name: &str,
) -> Result<Vec<&'a str>, AllocError>
    ensures { IfOk result (λ ws. map (λ w. w.now) ws.items
        ≡ names_given (all_of name.now (rows_of (found_of found.now)))) }
{
    let mut words = Vec::new(alloc);
    if let Some(given) = found.get_strs(name) {
        words.extend_from_slice(given)?;
    }
    Ok(words)
}

/// Reads the command line, whose first word is the program's name.
///
/// An `Err` that is not out of memory says what is wrong with the words, or is the help or the
/// version that they ask for. `Error::print` writes it to standard error or standard output.
/// `Task::range` checks that the words for `--from` and `--to` are numbers.
pub fn task<'a>(alloc: Global, words: &'a [String]) -> Result<Task<'a>, Error>
    ensures file { IfOk result
        (λ t. option_map (λ w. w.now) t.file ≡ given_in (texts_of words.now) (codes "file")) }
    ensures form { IfOk result (λ t. t.form ≡ form_in (texts_of words.now)) }
    ensures from { IfOk result
        (λ t. option_map (λ w. w.now) t.from ≡ given_in (texts_of words.now) (codes "from")) }
    ensures to { IfOk result
        (λ t. option_map (λ w. w.now) t.to ≡ given_in (texts_of words.now) (codes "to")) }
    ensures workers { IfOk result
        (λ t. map (λ w. w.now) t.workers.items ≡ names_in (texts_of words.now) (codes "worker")) }
    ensures objects { IfOk result
        (λ t. map (λ w. w.now) t.objects.items ≡ names_in (texts_of words.now) (codes "object")) }
    ensures faults { FailsBy (faults_in (texts_of words.now)) result }
{
    let found = matches_in(alloc, words)?;
    Ok(Task {
        file: word_argument(&found, "file"),
        form: form_option(&found),
        from: word_argument(&found, "from"),
        to: word_argument(&found, "to"),
        workers: word_arguments(alloc, &found, "worker")?,
        objects: word_arguments(alloc, &found, "object")?,
    })
}

/// Returns the exit status for a command line that gives no task.
pub fn status_of(error: &Error) -> u8
    ensures { result ≡ status_by (kind_of error.now) }
{
    match error.kind() {
        ErrorKind::DisplayHelp | ErrorKind::DisplayVersion => 0,
        ErrorKind::OutOfMemory => 4,
        _ => 2,
    }
}

/// States that the plainest command lines mean what a user expects.
#[tactic(auto, using(crate::proofs::PlainLines::plain_lines_are_read))]
pub fn plain_lines()
    ensures { ReadsPlainLines }
{}
