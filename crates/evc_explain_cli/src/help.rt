//! The texts of `evc-explain --help` and `evc-explain --version`.

// What follows `evc-explain ` in the output of `evc-explain --version`: the number, and the
// toolchain that everything is proved and built with.
pub(crate) const VERSION: &str = "0.2
proved and built with rattle-kit-13";

pub(crate) const ABOUT: &str =
    "Says what is wrong with a trace, a script or a history of calls, and how to mend it";

pub(crate) const LONG_ABOUT: &str =
    "Says what is wrong with a trace, a script or a history of calls, and how to mend it.

For a text that evc check, evc sim or evc-calls check rejects for one of its lines it writes the
line as it stands, a mark under the place, what is wrong there, and how to mend it:

    line 6:
        a advnce E = done
          ^
    The second word is no act.
    The acts are advance, read, await, go, ticket, put, get and hand.

It shows another line that says why, if there is one, and for a wrong reply the right one. For a
good text it says so: of calls that they are linearizable, of a script who has not ended.";

pub(crate) const AFTER_HELP: &str = "Example:
  evc-explain my.trace

Exit status:
  0  the text is good, or the help or the version was written
  1  the text is not good: it is said why
  2  the command line is wrong
  3  a read or a write failed, or the file cannot be opened
  4  out of memory";

pub(crate) const FILE: &str = "The file with the text; without it, it is read from standard input";
