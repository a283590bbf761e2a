//! The texts of `evc-draw --help` and of `evc-draw --version`.

// The output of `evc-draw --version` after `evc-draw `: the version, and the toolchain that
// everything is proved and built with.
pub(crate) const VERSION: &str = "0.2
proved and built with rattle-kit-13";

pub(crate) const ABOUT: &str = "Draws a trace, or a history of calls";

pub(crate) const LONG_ABOUT: &str =
    "Draws a run of eventcounts, sequencers, cells and groups, recorded as a trace or as a history of
calls, as a picture (SVG), a page or a text.

    evc-draw my.trace > picture.svg
    evc-draw --html my.trace > picture.html
    evc-draw --text my.trace

A row for each worker has a bar for each call, from its first entry to its last, with a dot for each
entry and the component that it read or raised; a pending call is dashed and goes on after the last
entry. A diamond marks the point of a call, and a dotted line ties that of a read or an await to the
curve of its eventcount's total below. Of each buffer, database and semaphore whose workers keep to
its lists of calls, what `evc audit` finds is drawn: an arrow from the put of an item to its get, a
shade over an accepted try of a snapshot, and the balance as a dashed curve.

A trace that is rejected for one of its lines is drawn up to there, with the line in red, and below
what was right.

Of a history of calls a bar goes from the line that calls to the line that returns, and the band
around a curve has the counts that some order of the calls gives at that moment. A rejected history
is drawn up to its rejection, with the calls that show it outlined.";

pub(crate) const AFTER_HELP: &str =
    "At most 400 entries or events are drawn: of more the last 400, and a note says so; --from
and --to choose others. If they leave none, or a name stands for nothing in the text, the status is
2. Otherwise notes and exit status are those of `evc check`, or of
`evc-calls check`.

A text without its line `end` is not drawn, nor a trace with something after it. One that has no
`end` yet is drawn by
  (cat my.trace; echo end) | evc-draw > picture.svg";

pub(crate) const TEXT: &str =
    "A text for a terminal: a row for each worker and each count, and below them the calls";

pub(crate) const HTML: &str =
    "A page that shows the picture, to be scrolled and zoomed; it needs no server";

pub(crate) const FROM: &str = "The first entry or event that is shown, counted from 0";

pub(crate) const TO: &str = "The last entry or event that is shown";

pub(crate) const WORKER: &str = "Only this worker; more than once: these";

pub(crate) const OBJECT: &str =
    "Only the calls on this eventcount, sequencer, block of cells or group, and its counts";

pub(crate) const FILE: &str =
    "The file with the trace or history; without it, it is read from standard input";
