//! The texts of `evc-calls --help`, of the help on its commands, and of `evc-calls --version`.

// What `evc-calls --version` prints after `evc-calls `: the number, and the line of the toolchain
// that everything is proved and built with.
pub(crate) const VERSION: &str = "0.2
proved and built with rattle-kit-13";

pub(crate) const ABOUT: &str =
    "Judges recorded calls of eventcounts, sequencers, semaphores, cells and buffers";

pub(crate) const LONG_ABOUT: &str =
    "Judges recorded calls of eventcounts, sequencers, semaphores, cells, databases and buffers.

A history says who called what, and what was returned, in the order in which that happened:

    evc-calls 1
    limit 100
    workers a b c d
    eventcount E signal a b observe c d
    run
    c calls read E
    a calls advance E
    b calls advance E
    d calls read E
    d returns 1
    a returns done
    c returns 2
    end

It is linearizable if its calls can be put in an order in which each takes effect at a moment
between its invocation and its response, and each reply is that of one number for each object.";

pub(crate) const AFTER_HELP: &str = "Exit status:
  0  each history is linearizable, the history or the trace was written, or the help or the
     version
  1  the text is no history, or a history is not linearizable: a note says why
  2  the command line is wrong; or a trace has no history of calls, or a history no trace: a note
     says why
  3  a read or a write failed
  4  out of memory
  5  a history is not decided: a note names the cell, the database or the buffer";

pub(crate) const CHECK_ABOUT: &str =
    "Writes a linearization of each history, or a note that says why there is none";

pub(crate) const CHECK_LONG_ABOUT: &str =
    "Writes a linearization of each history, or a note that says why there is none.

For each linearizable history it writes `evc-order 1`, the calls in order, each with its point (the
position of the event before which it takes effect), the totals of the objects, and `end`; and a
remark for each await that is pending although the count has surely reached its threshold. The first
history that is not linearizable ends the check: a note names the first faulty line (with calls of
buffers, maybe a later one), and shows by counting that no order can be right.";

pub(crate) const OF_ABOUT: &str = "Writes the calls of a trace of steps as a history of calls";

pub(crate) const OF_LONG_ABOUT: &str = "Writes the calls of a trace of steps as a history of calls.

The trace is one that `evc check` accepts, and the history is linearizable: that is proved. The
entry that begins a call gives its invocation, and the entry that ends it its response:

    watcher read Sheets = pending       watcher calls read Sheets
    press2 advance Sheets = done        press2 calls advance Sheets
                                        press2 returns done
    watcher go = 1                      watcher returns 1

Each entry must be on an eventcount, a sequencer or a cell of no group. If one is on an object of a
buffer, a database, a semaphore or `both`, or hands a component over, nothing is written, a note
names it, and the status is 2.";

pub(crate) const TRACE_ABOUT: &str = "Writes a trace of steps with the calls of a history";

pub(crate) const TRACE_LONG_ABOUT: &str =
    "Writes a trace of steps with the calls of a linearizable history of calls.

The calls stand in the order of the linearization that `check` writes, each with its steps next to
each other. `evc check` accepts the trace, and `evc-draw` draws it. A call that timed out, or is
pending and took no effect, leaves no step; a note says how many these are.

All calls must be on eventcounts that are 0 at the beginning, on sequencers and on cells, and the
input must be one history. If it is not so, nothing is written, a note says why, and the status is
2.";

pub(crate) const WATCH_ABOUT: &str =
    "Judges each event when its line comes, or some histories at their end";

pub(crate) const WATCH_LONG_ABOUT: &str =
    "Judges each event when its line comes, or some histories at their end.

It reads the output of a program that still runs, for example through a pipe. The first event with
which a history is not linearizable ends it at once, with a note. At the end it writes one line: how
many histories and calls there were, and how many other calls are pending on average when one is
called, to two decimals, cut off:

    2 histories, 1200 calls, overlap 1.37

Calls that rarely overlap test little. No order is written, and no remark. The first call of a cell,
a database, or a buffer with several producers or consumers is different: from it on the history is
only read, and at its end decided, as by `check`. Its text is kept, up to 64 MiB; other histories
are not, and have any length. For a note with all the lines that show the fault, record the text and
run `evc-calls check` on it.";

pub(crate) const FILE: &str =
    "The file with the histories; without it they are read from standard input";

pub(crate) const TRACE_FILE: &str =
    "The file with the trace; without it, it is read from standard input";

pub(crate) const HISTORY_FILE: &str =
    "The file with the history; without it, it is read from standard input";
