//! Writes the calls of a run of steps.
ghost use Rattle.std.specs.Prelude.{◌≡◌, OnOk, OnErr};
ghost use Rattle.std.specs.Io.KnownBytes.{Appends};
ghost use Rattle.std.specs.List.{flat_map};
ghost use Rattle.ec_text.specs.Puts.{Puts, AppendsPrefix};
ghost use Rattle.ec_heading.specs.HeaderTree.{HeaderTree, IsHeaderTree, heading_of_tree};
ghost use Rattle.calls_kernel.specs.Outside.{is_call, is_of_call};
ghost use Rattle.calls_extract.specs.Lines.{calls_text};
ghost use Rattle.calls_extract.specs.kept.Entries.{call_text, return_text, entry_text, text_at};

use ec_core::{Act, Entry, Reply, Run};
use ec_heading::Heading;
use ec_text::{Output, WriteFault};
use ec_trace::{DecimalCache, Spellings, put_act, put_heading, put_reply};
use std::io::Write;

/// Returns whether an act begins a call.
#[inline(always)]
fn is_call(act: &Act) -> bool
    ensures { result ≡ is_call act.now }
{
    !matches!(act, Act::Go | Act::Hand(_, _))
}

/// Returns whether an act belongs to a call.
#[inline(always)]
fn is_of_call(act: &Act) -> bool
    ensures { result ≡ is_of_call act.now }
{
    !matches!(act, Act::Hand(_, _))
}

/// Writes the line of the call that an entry begins, if it begins one.
#[inline(always)]
fn put_call<W: Write>(
    out: &mut Output<'_, W>,
    spellings: &Spellings<'_>,
    last: &mut DecimalCache,
    entry: &Entry,
)
    ensures { Puts out.old out.new (call_text spellings.now entry.now) }
{
    if is_call(&entry.act) {
        out.put(spellings.worker(entry.worker));
        out.put(b" calls");
        put_act(out, spellings, last, &entry.act);
        out.put_byte(b'\n');
    }
}

/// Writes the line of the response to the call that an entry ends, if it ends one.
#[inline(always)]
fn put_return<W: Write>(out: &mut Output<'_, W>, spellings: &Spellings<'_>, entry: &Entry)
    ensures { Puts out.old out.new (return_text spellings.now entry.now) }
{
    match entry.reply {
        Reply::Pending => {}
        Reply::Done | Reply::Number(_) => {
            if is_of_call(&entry.act) {
                out.put(spellings.worker(entry.worker));
                out.put(b" returns ");
                put_reply(out, &entry.reply);
                out.put_byte(b'\n');
            }
        }
    }
}

/// Writes the lines of an entry.
#[inline(always)]
#[tactic(auto, unfolding(crate::specs::kept::Entries::entry_text))]
fn put_lines<W: Write>(
    out: &mut Output<'_, W>,
    spellings: &Spellings<'_>,
    last: &mut DecimalCache,
    entry: &Entry,
)
    ensures { Puts out.old out.new (entry_text spellings.now entry.now) }
{
    put_call(out, spellings, last, entry);
    put_return(out, spellings, entry);
}

/// Writes the lines of the entry at an index of a run, if there is one.
fn put_lines_at<W: Write>(
    out: &mut Output<'_, W>,
    spellings: &Spellings<'_>,
    last: &mut DecimalCache,
    run: &Run,
    place: usize,
)
    ensures { Puts out.old out.new (text_at spellings.now run.now.entries place) }
{
    if let Some(entry) = run.entry(place) {
        put_lines(out, spellings, last, &entry);
    }
}

/// Writes the lines of a run's entries.
#[tactic(auto, using(crate::proofs::Events::one_more_entry))]
fn put_events<W: Write>(out: &mut Output<'_, W>, spellings: &Spellings<'_>, run: &Run)
    ensures { Puts out.old out.new (flat_map (entry_text spellings.now) run.now.entries) }
{
    let mut last = DecimalCache::new();
    for place in 0..run.len() {
        put_lines_at(out, spellings, &mut last, run, place);
    }
}

/// Writes the calls of a run, with the header.
fn put_history<W: Write>(
    out: &mut Output<'_, W>,
    spellings: &Spellings<'_>,
    heading: &Heading,
    run: &Run,
)
    ensures { (o : HeaderTree) → IsHeaderTree o → heading_of_tree o ≡ heading.now → spellings.now ≡ heading.now.words
        → Puts out.old out.new (calls_text o run.now.entries) }
{
    out.put(b"evc-calls 1\n");
    put_heading(out, spellings, heading);
    put_events(out, spellings, run);
    out.put(b"end\n");
}

/// Writes the calls of a run, seen from outside, as a history of calls.
///
/// `heading` is the header whose declarations the run uses. The entry that begins a call gives its
/// invocation, and the entry that ends it gives its response. A hand gives no line.
///
/// Returns a `WriteFault` only if a write failed or wrote none of its bytes. Nothing is allocated.
pub fn write_calls<W: Write>(run: &Run, heading: &Heading, writer: &mut W) -> Result<(), WriteFault>
    ensures ok { (o : HeaderTree) → IsHeaderTree o → heading_of_tree o ≡ heading.now → OnOk result
        (Appends (W.contents writer.old) (W.contents writer.new) (calls_text o run.now.entries)) }
    ensures err { (o : HeaderTree) → IsHeaderTree o → heading_of_tree o ≡ heading.now → OnErr result
        (AppendsPrefix (W.contents writer.old) (W.contents writer.new)
        (calls_text o run.now.entries)) }
{
    let spellings = Spellings::new(heading.words());
    let mut text = Output::new(writer);
    put_history(&mut text, &spellings, heading, run);
    let done = text.finish();
    text.into_writer();
    done
}
