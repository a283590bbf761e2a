//! The certificates of what a monitor reports.
ghost use Rattle.std.specs.Prelude.{◌≡◌};
ghost use Rattle.calls_watch.specs.Watches.{item_certificate, shown_by};

use calls_core::Call;
use calls_monitor::Refusal;
use calls_report::{Certificate, start_at};
use calls_text::Recording;

/// Returns the certificate of what the monitor of a buffer reports of a call.
fn item_certificate<'a>(call: Call, refusal: calls_spsc::Refusal) -> Certificate<'a>
    ensures { result ≡ item_certificate call refusal }
{
    match refusal {
        calls_spsc::Refusal::NotNext(item) => Certificate::NotNext(call, item),
        calls_spsc::Refusal::Empty => Certificate::NoItem(call),
        calls_spsc::Refusal::Full => Certificate::NoRoom(call),
        calls_spsc::Refusal::Needed => Certificate::Needed(call),
    }
}

/// Returns the certificate of what the monitor of an object reports.
pub(crate) fn shown_by<'a>(
    recording: &Recording,
    object: usize,
    refusal: Refusal,
) -> Certificate<'a>
    ensures { result ≡ shown_by recording.now object refusal }
{
    let start = start_at(recording, object);
    match refusal {
        Refusal::Count(calls_counts::Refusal::Below(call)) => Certificate::Below(call),
        Refusal::Count(calls_counts::Refusal::Few { call, invoked, .. }) => {
            Certificate::Few(call, invoked, start)
        }
        Refusal::Count(calls_counts::Refusal::Many { call, made, .. }) => {
            Certificate::Sure(call, made, start)
        }
        Refusal::Ticket(refused) => Certificate::Unordered(refused.call),
        Refusal::Units(fault) => Certificate::NoUnit(fault.index),
        Refusal::Items(refused) => item_certificate(refused.call, refused.refusal),
    }
}
