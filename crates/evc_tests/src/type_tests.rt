//! Tests of small types: lists of members and of entries, and refusals.
use ec_core::{Act, Entry, Refusal, Reply, Segments};
use ec_count::{EventId, Members, WorkerId};
use std::test::Fail;

#[test]
fn another_worker_for_one(rt: HostRuntime) {
    let first = WorkerId::new(0).unwrap();
    let second = WorkerId::new(1).unwrap();
    let third = WorkerId::new(2).unwrap();
    let mut members = Members::new(&[first, second]);
    members.replace(second, third);
    assert!(rt; members.get(0) == Some(first) && members.get(1) == Some(third));
    assert!(rt; members.len() == 2 && !members.contains(second));
    assert!(rt; members.contains(first) && members.contains(third));
    members.replace(first, second);
    assert!(rt; members == Members::new(&[second, third]));
    assert!(rt; members.contains(second) && !members.contains(first));
    members.replace(second, third);
    members.replace(first, third);
    assert!(rt; members == Members::new(&[second, third]));
}

/// Returns the entry that a list has at an index.
fn entry_at(place: usize) -> Entry {
    Entry {
        worker: WorkerId::new(0).unwrap(),
        act: Act::Await(EventId::new(0).unwrap(), place as u64),
        reply: Reply::Pending,
    }
}

/// Returns whether a list has so many entries, each at its index, and in sequence.
fn has_entries(list: &Segments, many: usize) -> bool {
    let mut entries = list.entries();
    for place in 0..many {
        let right = Some(entry_at(place));
        if list.get(place) != right || entries.peek() != right || entries.next() != right {
            return false;
        }
    }
    list.len() == many
        && list.get(many).is_none()
        && entries.peek().is_none()
        && entries.next().is_none()
}

#[test]
fn a_list_of_entries_goes_on_behind_its_segments(rt: HostRuntime) -> Result<(), Fail> {
    let mut list = Segments::open(rt.alloc())?;
    assert!(rt; has_entries(&list, 0));
    for place in 0..8193 {
        list.push(entry_at(place))?;
    }
    assert!(rt; has_entries(&list, 8193));
    Ok(())
}

static REFUSALS: [Refusal; 9] = [
    Refusal::UnknownWorker,
    Refusal::Busy,
    Refusal::Idle,
    Refusal::UnknownObject,
    Refusal::NoRight,
    Refusal::ValueTooLarge,
    Refusal::AtLimit,
    Refusal::NotHandable,
    Refusal::AlreadySignals,
];

#[test]
fn refusals_by_number(rt: HostRuntime) {
    for (place, refusal) in REFUSALS.iter().enumerate() {
        assert!(rt; refusal.number() == place as u64 + 1, "at {place}");
    }
}
