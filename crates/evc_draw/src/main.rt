//! `evc-draw`: draws a trace, or histories of calls.
#![tactic(auto)]

use ec_draw::NameFilter;
use ec_text::Output;
use evc_draw_cli::{Bound, Error, NoNumber, Task, status_of, task};
use evc_draw_engine::{View, draw};
use evc_engine::Status;
use std::alloc::AllocError;
use std::io::Write;
use std::process::ExitCode;
use std::{env, fs, io};

/// Reports that an option takes a number, and returns the exit status.
fn report_no_number<N: Write>(notes: &mut Output<'_, N>, wrong: &NoNumber<'_>) -> u8 {
    let option = match wrong.option {
        Bound::From => b"error: '--from' takes a number, not '".as_slice(),
        Bound::To => b"error: '--to' takes a number, not '".as_slice(),
    };
    notes.put(option);
    notes.put(wrong.given.as_bytes());
    notes.say(b"'\n");
    Status::Usage.code()
}

/// Draws a file, or standard input, and returns the exit status.
fn run_task<N: Write>(rt: &HostRuntime, task: &Task<'_>, notes: &mut Output<'_, N>) -> u8 {
    let alloc = rt.alloc();
    let range = match task.range() {
        Ok(range) => range,
        Err(wrong) => return report_no_number(notes, &wrong),
    };
    let choice = NameFilter {
        workers: task.workers.as_slice(),
        objects: task.objects.as_slice(),
    };
    let view = View {
        form: task.form,
        range,
        choice,
    };
    let mut stdout = rt.stdout();
    let Some(path) = task.file else {
        return draw(alloc, &view, &mut rt.stdin(), &mut stdout, notes).code();
    };
    match fs::open(rt, path) {
        Ok(mut file) => draw(alloc, &view, &mut file, &mut stdout, notes).code(),
        Err(_) => {
            notes.put(b"cannot open ");
            notes.put(path.as_bytes());
            notes.say(b"\n");
            Status::InputOutput.code()
        }
    }
}

/// Writes what the command line gave instead of a task, and returns the exit status.
fn end_by<N: Write>(rt: &HostRuntime, error: &Error, notes: &mut Output<'_, N>) -> u8 {
    // (help goes to standard output; a note that could not be written is not reported)
    if error.print(rt).is_err() && !error.use_stderr() {
        notes.say(b"write fault\n");
        return Status::InputOutput.code();
    }
    status_of(error)
}

fn main(rt: HostRuntime) -> ExitCode {
    let alloc = rt.alloc();
    let mut stderr = rt.stderr();
    let mut notes = Output::new(&mut stderr);
    let words: Result<Vec<String>, AllocError> = match env::args(&rt) {
        Ok(args) => args.collect(alloc),
        Err(error) => {
            if error.kind() == io::ErrorKind::InvalidData {
                notes.say(b"error: a word of the command line is not UTF-8\n");
                return ExitCode::from(Status::Usage.code());
            }
            Err(AllocError)
        }
    };
    let Ok(words) = words else {
        notes.say(b"no memory\n");
        return ExitCode::from(Status::Memory.code());
    };
    let status = match task(alloc, words.as_slice()) {
        Ok(task) => run_task(&rt, &task, &mut notes),
        Err(error) => end_by(&rt, &error, &mut notes),
    };
    ExitCode::from(status)
}
