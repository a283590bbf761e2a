//! The lines of a trace up to its `run`.
ghost use Rattle.std.specs.Prelude.{◌≡◌, ◌≤◌, ℕ, List, IfSome, MatchResult, Err};
ghost use Rattle.ec_heading.specs.Spelling.{trace_header};
ghost use Rattle.ec_heading.specs.Versions.{greatest_limit, version_of};
ghost use Rattle.ec_trace.specs.Outcome.{Returns};
ghost use Rattle.ec_trace.specs.Reading.{Declares, Reaches, IsOpened, is_run};
ghost use Rattle.ec_trace.specs.Stages.{Opening, Limiting, Declaring};
ghost use Rattle.ec_trace.specs.Step.{limit_of};

use crate::fault::TraceFault;
use crate::lines::Lines;
use crate::read::TRACE_MAX;
use crate::write_heading::first_line;
use ec_count::Limit;
use ec_heading::{HeadFault, Heading, Version};
use ec_text::{cut_word, number};
use std::alloc::Global;
use std::io::Read;

/// The header of a trace, and the lines after its `run`.
#[derive(Drop)]
pub struct TraceOpening {
    pub heading: Heading,
    pub lines: Lines,
}

/// Returns the version whose first line this is.
fn parse_version(line: &[u8]) -> Option<Version>
    ensures { result ≡ version_of trace_header line.now }
{
    if line == first_line(Version::One) {
        return Some(Version::One);
    }
    if line == first_line(Version::Two) {
        return Some(Version::Two);
    }
    None
}

/// Returns the limit that a line gives; `None` if it gives none that the version allows.
#[tactic(auto, using(crate::proofs::ReadEntries::third_word), unfolding(crate::specs::Step::limit_of))]
fn parse_limit(version: Version, line: &[u8]) -> Option<Limit>
    ensures value { result ≡ limit_of version line.now }
    ensures within { IfSome result (λ limit. limit ≤ greatest_limit version) }
{
    let (word, Some(rest)) = cut_word(line) else {
        return None;
    };
    let (digits, None) = cut_word(rest) else {
        return None;
    };
    if word != b"limit".as_slice() {
        return None;
    }
    version.limit(number(digits)?)
}

/// Reads the first line.
fn read_version<R: Read>(lines: &mut Lines, reader: &mut R) -> Result<Version, TraceFault>
    ensures { (xs : List ℕ) → Reaches xs (R.remaining reader.old) lines.old Opening → MatchResult result
        (λ version. Reaches xs (R.remaining reader.new) lines.new (Limiting version))
        (λ fault. Returns TRACE_MAX xs (R.remaining reader.new) (Err fault)) }
{
    lines.next(reader)?;
    match parse_version(lines.line()) {
        Some(version) => Ok(version),
        None => Err(TraceFault::BadLine(lines.number())),
    }
}

/// Reads the line of the limit.
// (If it were inlined, its stack space would be in use while the declarations are read, too.)
#[inline(never)]
fn read_limit<R: Read>(
    alloc: Global,
    version: Version,
    lines: &mut Lines,
    reader: &mut R,
) -> Result<Heading, TraceFault>
    ensures { (xs : List ℕ) → Reaches xs (R.remaining reader.old) lines.old (Limiting version) → MatchResult result
        (λ heading. Reaches xs (R.remaining reader.new) lines.new (Declaring heading))
        (λ fault. Returns TRACE_MAX xs (R.remaining reader.new) (Err fault)) }
{
    lines.next(reader)?;
    let Some(limit) = parse_limit(version, lines.line()) else {
        return Err(TraceFault::BadLine(lines.number()));
    };
    match Heading::new(alloc, version, limit) {
        Ok(heading) => Ok(heading),
        Err(_) => Err(TraceFault::Memory),
    }
}

/// Adds a line of workers or of a declaration.
fn declare(heading: &mut Heading, lines: &Lines) -> Result<(), TraceFault>
    ensures { Declares result heading.old heading.new lines.now }
{
    match heading.line(lines.line()) {
        Ok(()) => Ok(()),
        Err(HeadFault::Memory) => Err(TraceFault::Memory),
        Err(_) => Err(TraceFault::BadLine(lines.number())),
    }
}

/// Returns whether the line is `run`, and the line of the workers was read.
fn is_run(heading: &Heading, line: &[u8]) -> bool
    ensures { result ≡ is_run heading.now line.now }
{
    line == b"run".as_slice() && heading.setup().workers() > 0
}

/// Reads the line of the workers and the declarations, up to the line `run`.
fn read_declarations<R: Read>(
    heading: &mut Heading,
    lines: &mut Lines,
    reader: &mut R,
) -> Result<(), TraceFault>
    ensures { (xs : List ℕ) → Reaches xs (R.remaining reader.old) lines.old (Declaring heading.old) → MatchResult result
        (λ _. IsOpened xs (R.remaining reader.new) lines.new heading.new)
        (λ fault. Returns TRACE_MAX xs (R.remaining reader.new) (Err fault)) }
{
    loop {
        lines.next(reader)?;
        if is_run(heading, lines.line()) {
            return Ok(());
        }
        declare(heading, lines)?;
    }
}

/// Reads a trace up to its line `run`, and the rest of the piece that has the end of that line.
///
/// The entries are then read by `read_entries`, from the same reader.
pub fn open_trace<R: Read>(alloc: Global, reader: &mut R) -> Result<TraceOpening, TraceFault>
    ensures { IfSome (R.remaining reader.old) (λ bytes. MatchResult result
        (λ opened. IsOpened bytes (R.remaining reader.new) opened.lines opened.heading)
        (λ fault. Returns TRACE_MAX bytes (R.remaining reader.new) (Err fault))) }
{
    let mut lines = Lines::new();
    let version = read_version(&mut lines, reader)?;
    let mut heading = read_limit(alloc, version, &mut lines, reader)?;
    read_declarations(&mut heading, &mut lines, reader)?;
    Ok(TraceOpening { heading, lines })
}
