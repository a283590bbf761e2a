//! The bars, dots and marks of calls.
ghost use Rattle.std.specs.Prelude.{◌≤◌};

use crate::elements::{
    Pixel, PutResult, digits, put_line, put_rect, put_text_end, put_text_start, squeeze, xy,
};
use crate::names::{Names, kind};
use crate::sheet::Sheet;
use crate::words::{put_call_words, put_pending_words};
use ec_core::{Act, Reply};
use ec_draw::{Dot, PendingBar};
use ec_order::{Call, Placed};

/// Puts the word of an act, and its argument other than the object: a threshold, the value of a
/// put, or the worker that a component is handed to.
fn put_act_words(out: &mut String, names: &Names<'_>, act: &Act) -> PutResult {
    let word = kind(act);
    match *act {
        Act::Await(_, value) | Act::Put(_, value) => write!(out, "{word} {value}"),
        Act::Hand(_, to) => write!(out, "{word} {}", names.worker(to)),
        Act::Advance(_) | Act::Read(_) | Act::Go | Act::Ticket(_) | Act::Get(_) => {
            out.push_str(word)
        }
    }
}

/// Returns how many letters these words have, 0 if there is no argument.
fn letters(names: &Names<'_>, act: &Act) -> usize {
    match *act {
        Act::Await(_, value) => 6 + digits(value),
        Act::Put(_, value) => 4 + digits(value),
        Act::Hand(_, to) => names.worker(to).len().saturating_add(5),
        Act::Advance(_) | Act::Read(_) | Act::Go | Act::Ticket(_) | Act::Get(_) => 0,
    }
}

/// Puts the object of an act.
fn put_object(out: &mut String, names: &Names<'_>, at: Pixel, act: &Act) -> PutResult {
    let name = match *act {
        Act::Advance(event) | Act::Read(event) | Act::Await(event, _) | Act::Hand(event, _) => {
            names.event(event)
        }
        Act::Ticket(sequencer) => names.sequencer(sequencer),
        Act::Put(cell, _) | Act::Get(cell) => {
            put_text_start(out, "cell", "", at)?;
            write!(out, "{}", names.cell(cell))?;
            return put_text_end(out);
        }
        Act::Go => return Ok(()),
    };
    put_text_start(out, "object", squeeze(name.len()), at)?;
    write!(out, "{name}")?;
    put_text_end(out)
}

/// Puts the two lines above a bar: the act with its argument, and the object.
fn put_label(out: &mut String, names: &Names<'_>, at: Pixel, act: &Act) -> PutResult
    requires { at.y ≤ 2000 }
{
    let Pixel { x, y } = at;
    put_text_start(out, "act", squeeze(letters(names, act)), xy(x, y + 14))?;
    put_act_words(out, names, act)?;
    put_text_end(out)?;
    put_object(out, names, xy(x, y + 26), act)
}

/// Puts a line where the last round of a call began, if that is after its first entry, and is
/// shown.
fn put_round(out: &mut String, sheet: &Sheet<'_>, call: &Call) -> PutResult {
    let window = sheet.picture.window;
    if call.round <= call.first || call.round < window.from || window.to < call.round {
        return Ok(());
    }
    let (x, y) = (sheet.edge(call.round), sheet.row(call.worker));
    put_line(out, "round", xy(x, y + 32), xy(x, y + 54))
}

/// Puts the number that was returned below the end of the bar, if the end is shown.
fn put_reply(out: &mut String, sheet: &Sheet<'_>, call: &Call) -> PutResult {
    let Reply::Number(number) = call.reply else {
        return Ok(());
    };
    if sheet.picture.window.to <= call.last {
        return Ok(());
    }
    let at = xy(sheet.bar_to(call.last), sheet.row(call.worker) + 66);
    put_text_start(out, "reply", squeeze(2 + digits(number)), at)?;
    write!(out, "= {number}")?;
    put_text_end(out)
}

/// Puts a completed call: its bar, which has its words as a title, its label and its reply.
pub(crate) fn put_bar(out: &mut String, sheet: &Sheet<'_>, placed: &Placed) -> PutResult {
    let call = &placed.call;
    write!(out, "<g class='{}'><title>", kind(&call.op))?;
    put_call_words(out, sheet.names, placed)?;
    out.push_str("</title>\n")?;
    let y = sheet.row(call.worker);
    let x = sheet.bar_from(call.first);
    let width = sheet.bar_to(call.last).saturating_sub(x);
    put_rect(out, xy(x, y + 32), width, 22)?;
    let x = sheet.edge(call.first) + 3;
    put_label(out, sheet.names, xy(x, y), &call.op)?;
    put_round(out, sheet, call)?;
    put_reply(out, sheet, call)?;
    out.push_str("</g>\n")
}

/// Puts a pending call. Its bar extends to the right edge.
pub(crate) fn put_open_bar(out: &mut String, sheet: &Sheet<'_>, begun: &PendingBar) -> PutResult {
    write!(out, "<g class='open {}'><title>", kind(&begun.op))?;
    put_pending_words(out, sheet.names, begun)?;
    out.push_str("</title>\n")?;
    let y = sheet.row(begun.worker);
    let x = sheet.bar_from(begun.first);
    put_rect(out, xy(x, y + 32), sheet.width().saturating_sub(x), 22)?;
    let x = sheet.edge(begun.first) + 3;
    put_label(out, sheet.names, xy(x, y), &begun.op)?;
    out.push_str("</g>\n")
}

/// Puts the component that an entry read or raised, and the number that it read.
fn put_component(out: &mut String, at: Pixel, component: usize, number: Option<u64>) -> PutResult {
    let letters = digits(component as u64)
        + match number {
            Some(number) => 1 + digits(number),
            None => 0,
        };
    let small = if letters > 12 { " tiny" } else { "" };
    put_text_start(out, "component", small, at)?;
    write!(out, "{component}")?;
    if let Some(number) = number {
        write!(out, "={number}")?;
    }
    put_text_end(out)
}

/// Puts the dot of an entry.
pub(crate) fn put_dot(out: &mut String, sheet: &Sheet<'_>, dot: &Dot) -> PutResult {
    let (x, y) = (sheet.centre(dot.position), sheet.row(dot.worker));
    write!(out, "<circle r='3' cx='{x}' cy='{}'/>\n", y + 43)?;
    match dot.component {
        Some(component) => {
            let at = xy(x + 9, y + 47);
            put_component(out, at, component, dot.number)
        }
        None => Ok(()),
    }
}

/// Puts a line from the mark of a read or an await to the total that it returned.
fn put_tie(out: &mut String, sheet: &Sheet<'_>, from: Pixel, call: &Call) -> PutResult {
    let (Act::Read(event) | Act::Await(event, _)) = call.op else {
        return Ok(());
    };
    let Reply::Number(number) = call.reply else {
        return Ok(());
    };
    let Some(curve) = sheet.picture.curves.get(event.get()) else {
        return Ok(());
    };
    let x = from.x;
    let y = sheet.scale(event.get(), curve).level(number);
    put_line(out, "tie", from, xy(x, y))
}

/// Puts the mark of a call at its linearization point, if that is shown, with its line to the
/// total.
pub(crate) fn put_mark(out: &mut String, sheet: &Sheet<'_>, placed: &Placed) -> PutResult {
    let window = sheet.picture.window;
    if placed.point < window.from || window.to < placed.point {
        return Ok(());
    }
    let x = if placed.call.first == placed.call.last {
        sheet.centre(placed.point)
    } else {
        sheet.edge(placed.point)
    };
    let y = sheet.row(placed.call.worker) + 43;
    put_tie(out, sheet, xy(x, y), &placed.call)?;
    write!(
        out,
        "<path class='mark' d='M {x} {y} m 0 -6 l 6 6 l -6 6 l -6 -6 z'/>\n"
    )
}
