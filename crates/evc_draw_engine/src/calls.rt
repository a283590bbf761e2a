//! Draws histories of calls.
ghost use Rattle.std.specs.Prelude.{◌≡◌};
ghost use Rattle.ec_text.specs.Puts.{IsWrittenOut};
ghost use Rattle.calls_draw.specs.Draws.{Chooses};
ghost use Rattle.evc_draw_engine.specs.Draws.{AsksForPart, DrawsHistories, status_as};

use crate::html::{BEGINNING, END};
use crate::view::View;
use crate::window::is_whole;
use calls_draw::{CallsView, draw_calls};
use calls_report::Status as CallsStatus;
use ec_text::Output;
use evc_draw_cli::{Form, NO_END};
use evc_engine::Status;
use std::alloc::Global;
use std::io::Write;

/// Returns the program's status with the same number. A history that is not decided is `Stopped`.
fn status_as(status: CallsStatus) -> Status
    ensures { result ≡ status_as status }
{
    match status {
        CallsStatus::Done => Status::Done,
        CallsStatus::Refused => Status::Refused,
        CallsStatus::Usage => Status::Usage,
        CallsStatus::InputOutput => Status::InputOutput,
        CallsStatus::Memory => Status::Memory,
        CallsStatus::NotDecided => Status::Stopped,
    }
}

/// Returns the view of a history that a view of the program asks for.
fn view_of<'a>(view: &View<'a>) -> CallsView<'a>
    ensures { Chooses result → AsksForPart view.now }
{
    let range = view.range;
    let (form, before, after) = match view.form {
        Form::Svg => (calls_draw::Form::Svg, "", ""),
        Form::Text => (calls_draw::Form::Text, "", ""),
        Form::Html => (calls_draw::Form::Svg, BEGINNING, END),
    };
    CallsView {
        from: if is_whole(range) {
            None
        } else {
            Some(range.from)
        },
        to: if range.to == NO_END {
            None
        } else {
            Some(range.to.saturating_sub(1))
        },
        workers: view.choice.workers,
        objects: view.choice.objects,
        form,
        before,
        after,
    }
}

/// Draws a text of histories of calls.
pub(crate) fn draw_histories<W: Write, N: Write>(
    alloc: Global,
    view: &View<'_>,
    text: &[u8],
    out: &mut W,
    notes: &mut Output<'_, N>,
) -> Status
    ensures ends { DrawsHistories view.now text.now result
        (record { out = W.contents out.old; notes = notes.old })
        (record { out = W.contents out.new; notes = notes.new }) }
    ensures written { IsWrittenOut notes.old → IsWrittenOut notes.new }
{
    status_as(draw_calls(alloc, &view_of(view), text, out, notes))
}
