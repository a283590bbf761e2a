//! `evc-calls`: judges histories of calls, and converts between them and traces of steps.
#![tactic(auto)]

use calls_extract::extract_calls;
use calls_replay::replay_calls;
use calls_report::{Status, check};
use calls_watch::watch;
use ec_text::Output;
use evc_calls_cli::{Action, Error, Task, status_of, task};
use std::alloc::AllocError;
use std::io::{Read, Write};
use std::process::ExitCode;
use std::{env, fs, io};

/// Runs the command on an input, and returns the exit status.
fn run<R: Read, N: Write>(
    rt: &HostRuntime,
    action: Action,
    reader: &mut R,
    notes: &mut Output<'_, N>,
) -> u8 {
    let alloc = rt.alloc();
    match action {
        Action::Check => check(alloc, reader, &mut rt.stdout(), notes).code(),
        Action::Watch => watch(alloc, reader, &mut rt.stdout(), notes).code(),
        Action::Of => extract_calls(alloc, reader, &mut rt.stdout(), notes).code(),
        Action::Trace => replay_calls(alloc, reader, &mut rt.stdout(), notes).code(),
    }
}

/// Runs the command on a file or on standard input, and returns the exit status.
fn run_task<N: Write>(rt: &HostRuntime, task: Task<'_>, notes: &mut Output<'_, N>) -> u8 {
    let Some(path) = task.file else {
        return run(rt, task.action, &mut rt.stdin(), notes);
    };
    match fs::open(rt, path) {
        Ok(mut file) => run(rt, task.action, &mut file, notes),
        Err(_) => {
            notes.put(b"cannot open ");
            notes.put(path.as_bytes());
            notes.say(b"\n");
            Status::InputOutput.code()
        }
    }
}

/// Prints the help, version or error of a command line, and returns the exit status.
fn end_by<N: Write>(rt: &HostRuntime, error: &Error, notes: &mut Output<'_, N>) -> u8 {
    // (help goes to standard output; a note that could not be written is not reported)
    if error.print(rt).is_err() && !error.use_stderr() {
        notes.say(b"write fault\n");
        return Status::InputOutput.code();
    }
    status_of(error)
}

fn main(rt: HostRuntime) -> ExitCode {
    let alloc = rt.alloc();
    let mut stderr = rt.stderr();
    let mut notes = Output::new(&mut stderr);
    let words: Result<Vec<String>, AllocError> = match env::args(&rt) {
        Ok(args) => args.collect(alloc),
        Err(error) => {
            if error.kind() == io::ErrorKind::InvalidData {
                notes.say(b"error: a word of the command line is not UTF-8\n");
                return ExitCode::from(Status::Usage.code());
            }
            Err(AllocError)
        }
    };
    let Ok(words) = words else {
        notes.say(b"no memory\n");
        return ExitCode::from(Status::Memory.code());
    };
    let status = match task(alloc, words.as_slice()) {
        Ok(task) => run_task(&rt, task, &mut notes),
        Err(error) => end_by(&rt, &error, &mut notes),
    };
    ExitCode::from(status)
}
