//! The texts of `evc --help` and `evc -h`, of the help on each command, and of `evc --version`.

/// The output of `evc --version` after `evc `: the version, which bin/package reads here, and the
/// toolchain that everything is proved and built with.
pub const VERSION: &str = "0.2
proved and built with rattle-kit-13";

pub(crate) const ABOUT: &str =
    "Checks recorded runs of eventcounts and sequencers, and makes runs from scripts";

pub(crate) const LONG_ABOUT: &str =
    "Checks recorded runs of eventcounts and sequencers, and makes runs from scripts.

A trace is a text that records one run: it declares the workers, eventcounts and
sequencers, alone or as parts of buffers, databases and semaphores, and then has a
line for each step that a worker made, with its reply. `check`, `audit` and
`upgrade` read one.

A script declares the same, and then has a block of commands for each worker. `sim`
and `run` read one, and write a trace that `check` and `audit` read.";

pub(crate) const AFTER_HELP: &str = "Exit status:
  0  done
  1  the trace, the script or its schedule was refused, or the workers of a trace break
     the rules of a buffer, a database or a semaphore
  2  the command line was wrong
  3  a read or a write failed, or a thread could not be started
  4  memory ran out
  5  a worker was stopped or out of turns, or what the workers did is not what they
     were told

Examples:
  evc check my.trace
  evc sim my.script | evc check";

pub(crate) const CHECK_ABOUT: &str =
    "Reads a trace, and writes the order of its calls and the totals";

pub(crate) const CHECK_LONG_ABOUT: &str =
    "Reads a trace, and writes the order of its calls and the totals.

Where each line of the trace is right, its finished calls go to standard output, in
an order that keeps who finished before whom began and in which each answer is that
of an object with one number; then the totals. Where a line is not right, nothing is
written but a note on standard error, which says which line it is and what is wrong
with it. The format is in evc-trace(5).";

pub(crate) const AUDIT_ABOUT: &str =
    "Reads a trace, and writes what its buffers, databases and semaphores did";

pub(crate) const AUDIT_LONG_ABOUT: &str =
    "Reads a trace, and writes what its buffers, databases and semaphores did.

The trace is read as by `check`. For each buffer its deliveries go to standard output,
for each database the versions that its readers accepted, for each semaphore its
balance, and for `both` its balance and the pairs of tickets that were drawn under it.
Where a worker's calls on one of them are not those of its role, nothing is written but
a note on standard error, which says of which group, which worker, and at which entry
(counted from 0). The rules are in evc-trace(5).";

pub(crate) const UPGRADE_ABOUT: &str = "Reads a trace, and writes it in version 2 of the format";

pub(crate) const UPGRADE_LONG_ABOUT: &str =
    "Reads a trace, and writes it in version 2 of the format.

The trace is read as by `check`. The trace of the same declarations and the same steps
in version 2 goes to standard output; its first line is `evc-trace 2`. A trace of
version 2 comes out as it was. Where a line is not right, nothing is written but a note
on standard error, as by `check`. Both versions are in evc-trace(5).";

pub(crate) const SIM_ABOUT: &str =
    "Reads a script, and writes the trace of what its workers do by its schedule";

pub(crate) const SIM_LONG_ABOUT: &str =
    "Reads a script, and writes the trace of what its workers do by its schedule.

A script declares workers and objects as a trace does, has a block of commands for
each worker, and then lines that say whose turn it is. The trace of these turns goes to
standard output. Notes on standard error say how each worker's program ended, as
`outcome a finished` or `outcome a running`. Where the script or its schedule is
refused, nothing is written but a note, which says which line it is and what kind of
fault it has, or which turn of the schedule is that of a worker whose program has ended.
The format is in evc-script(5).";

pub(crate) const RUN_ABOUT: &str =
    "Runs a script's workers on threads, and writes the trace of what they did";

pub(crate) const RUN_LONG_ABOUT: &str =
    "Runs a script's workers on threads, and writes the trace of what they did.

The script is read as by `sim`; its lines that say whose turn it is are not used. Each
worker runs on a thread of its own, and sleeps while an await of its own falls short.
The trace goes to standard output. Notes on standard error say how each worker's
program ended, as `outcome a finished`. A worker is stopped where each that has not
ended waits, and is out of turns after as many steps as `--turns` says. Where the
script is refused, nothing is written but a note, which says which line it is and what
kind of fault it has. The format is in evc-script(5).";

pub(crate) const TURNS: &str =
    "How many steps each worker may make, from 1 to 1000000; 10000 if not given";

pub(crate) const TRACE_FILE: &str =
    "The file with the trace; without it, it is read from standard input";

pub(crate) const SCRIPT_FILE: &str =
    "The file with the script; without it, it is read from standard input";
