//! `evc`: a tool for histories of eventcounts and sequencers.
#![tactic(auto)]

use ec_text::Output;
use evc_cli::{Error, Request, request, status_of};
use evc_engine::Status;
use evc_scripts::engine;
use std::alloc::AllocError;
use std::io::Write;
use std::process::ExitCode;
use std::sync::Wait;
use std::thread::Threads;
use std::{env, fs, io};

/// Does a task on a file or on standard input, and returns the exit status. `run` starts its
/// workers by `threads`.
fn run_request<H: Threads + Wait + Sync, N: Write>(
    threads: &H,
    rt: &HostRuntime,
    request: Request<'_>,
    notes: &mut Output<'_, N>,
) -> u8 {
    let (alloc, task) = (rt.alloc(), request.task);
    let mut stdout = rt.stdout();
    let Some(path) = request.file else {
        return engine(threads, alloc, task, &mut rt.stdin(), &mut stdout, notes).code();
    };
    match fs::open(rt, path) {
        Ok(mut file) => engine(threads, alloc, task, &mut file, &mut stdout, notes).code(),
        Err(_) => {
            notes.put(b"cannot open ");
            notes.put(path.as_bytes());
            notes.say(b"\n");
            Status::InputOutput.code()
        }
    }
}

/// Prints the help, version or error of a command line, and returns the exit status.
fn end_by<N: Write>(rt: &HostRuntime, error: &Error, notes: &mut Output<'_, N>) -> u8 {
    // (help goes to standard output; a note that could not be written is not reported)
    if error.print(rt).is_err() && !error.use_stderr() {
        notes.say(b"write fault\n");
        return Status::InputOutput.code();
    }
    status_of(error)
}

fn main(rt: HostRuntime) -> ExitCode {
    let alloc = rt.alloc();
    let mut stderr = rt.stderr();
    let mut notes = Output::new(&mut stderr);
    let words: Result<Vec<String>, AllocError> = match env::args(&rt) {
        Ok(args) => args.collect(alloc),
        Err(error) => {
            if error.kind() == io::ErrorKind::InvalidData {
                notes.say(b"error: a word of the command line is not UTF-8\n");
                return ExitCode::from(Status::Usage.code());
            }
            Err(AllocError)
        }
    };
    let Ok(words) = words else {
        notes.say(b"no memory\n");
        return ExitCode::from(Status::Memory.code());
    };
    let status = match request(alloc, words.as_slice()) {
        Ok(request) => run_request(&rt, &rt, request, &mut notes),
        Err(error) => end_by(&rt, &error, &mut notes),
    };
    ExitCode::from(status)
}
