//! Tests of lists in little memory: what fits, and what widens a list.
use crate::packed::{PackedCall, PackedEvent};
use crate::{Action, Call, CallList, Event, Events, Op, Order, Placed, Reply};
use std::test::Fail;

/// The greatest number that fits.
const MOST: usize = u32::MAX as usize;

static OPS: [Op; 11] = [
    Op::Advance,
    Op::Read,
    Op::Await(MOST),
    Op::Ticket,
    Op::P(MOST),
    Op::V(MOST),
    Op::PBoth(MOST, 255),
    Op::Put(MOST),
    Op::Get,
    Op::Produce(MOST),
    Op::Consume,
];

static REPLIES: [Reply; 3] = [Reply::Done, Reply::Number(MOST), Reply::Timeout];

/// Returns a call with the greatest numbers that fit.
fn call(op: Op, reply: Reply) -> Call {
    Call {
        worker: 255,
        object: 255,
        op,
        reply,
        first: MOST,
        last: MOST,
    }
}

/// Returns the event with this index whose worker has the greatest number that fits.
fn event(at: usize, action: Action) -> Event {
    Event {
        at,
        worker: 255,
        action,
    }
}

#[test]
fn small_events_and_calls_fit(rt: HostRuntime) {
    for op in OPS.iter() {
        assert!(rt; PackedEvent::of(&event(7, Action::Invoke(255, *op)), 7).is_some());
        assert!(rt; PackedCall::of(&call(*op, Reply::Done)).is_some());
    }
    for reply in REPLIES.iter() {
        assert!(rt; PackedEvent::of(&event(7, Action::Respond(*reply)), 7).is_some());
        assert!(rt; PackedCall::of(&call(Op::Await(MOST), *reply)).is_some());
    }
}

#[test]
fn lists_widen(rt: HostRuntime) -> Result<(), Fail> {
    let mut events = Events::new(rt.alloc());
    let small = event(0, Action::Invoke(0, Op::Await(3)));
    let large = event(1, Action::Respond(Reply::Number(MOST + 1)));
    events.push(small)?;
    assert!(rt; events.get(0) == Some(small) && events.get(1).is_none());
    events.push(large)?;
    assert!(rt; events.get(0) == Some(small) && events.get(1) == Some(large));

    let mut calls = CallList::new(rt.alloc());
    let read = call(Op::Read, Reply::Number(5));
    calls.push(read)?;
    calls.set_response(0, Reply::Number(MOST + 1), 9)?;
    assert!(rt; calls.at(0).reply == Reply::Number(MOST + 1) && calls.at(0).first == MOST);

    let mut order = Order::new(rt.alloc());
    order.push(Placed {
        point: 7,
        call: read,
    })?;
    order.push(Placed {
        point: 6,
        call: read,
    })?;
    order.sort()?;
    assert!(rt; order.at(0).point == 6 && order.at(1).point == 7);
    order.push(Placed {
        point: MOST + 1,
        call: read,
    })?;
    order.push(Placed {
        point: 3,
        call: read,
    })?;
    order.sort()?;
    assert!(rt; order.at(0).point == 3 && order.at(3).point == MOST + 1);
    Ok(())
}
