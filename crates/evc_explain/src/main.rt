//! `evc-explain`: says what is wrong with a text, and how to mend it.
#![tactic(auto)]

use ec_text::Output;
use evc_engine::Status;
use evc_explain_cli::{Error, file_named, status_of};
use evc_explain_engine::explain;
use std::alloc::AllocError;
use std::io::{ErrorKind, Write};
use std::process::ExitCode;
use std::{env, fs};

/// Explains a file, or standard input, and returns the exit status.
fn run<N: Write>(rt: &HostRuntime, file: Option<&str>, notes: &mut Output<'_, N>) -> u8 {
    let alloc = rt.alloc();
    let Some(path) = file else {
        return explain(alloc, &mut rt.stdin(), &mut rt.stdout(), notes).code();
    };
    match fs::open(rt, path) {
        Ok(mut opened) => explain(alloc, &mut opened, &mut rt.stdout(), notes).code(),
        Err(_) => {
            notes.put(b"cannot open ");
            notes.put(path.as_bytes());
            notes.say(b"\n");
            Status::InputOutput.code()
        }
    }
}

/// Writes the help, the version or the error of a command line, and returns the exit status.
fn end_by<N: Write>(rt: &HostRuntime, error: &Error, notes: &mut Output<'_, N>) -> u8 {
    // (help and version go to standard output; a failed write to standard error is not reported)
    if error.print(rt).is_err() && !error.use_stderr() {
        notes.say(b"write fault\n");
        return Status::InputOutput.code();
    }
    status_of(error)
}

fn main(rt: HostRuntime) -> ExitCode {
    let alloc = rt.alloc();
    let mut stderr = rt.stderr();
    let mut notes = Output::new(&mut stderr);
    let words: Result<Vec<String>, AllocError> = match env::args(&rt) {
        Ok(args) => args.collect(alloc),
        Err(error) => {
            if error.kind() == ErrorKind::InvalidData {
                notes.say(b"error: a word of the command line is not UTF-8\n");
                return ExitCode::from(Status::Usage.code());
            }
            Err(AllocError)
        }
    };
    let Ok(words) = words else {
        notes.say(b"no memory\n");
        return ExitCode::from(Status::Memory.code());
    };
    let status = match file_named(alloc, words.as_slice()) {
        Ok(file) => run(&rt, file, &mut notes),
        Err(error) => end_by(&rt, &error, &mut notes),
    };
    ExitCode::from(status)
}
