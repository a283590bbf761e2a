//! Properties of small types: sorts of declarations, versions and faults.
use ec_trace::{DeclKind, HeadFault, Version};

/// A sort and its word: whether it has a name, and whether its number may be 0.
type Form = (&'static str, DeclKind, bool, bool);

static FORMS: [Form; 7] = [
    ("eventcount", DeclKind::EventCount, true, true),
    ("sequencer", DeclKind::Sequencer, true, true),
    ("cells", DeclKind::Cells, true, false),
    ("buffer", DeclKind::Buffer, true, false),
    ("database", DeclKind::Database, true, false),
    ("semaphore", DeclKind::Semaphore, true, true),
    ("both", DeclKind::Both, false, true),
];

/// Returns whether a sort has this form. A declaration is called by a name, or by its own word.
fn has_form(form: &Form) -> bool {
    let (word, sort, named, from_zero) = *form;
    sort.word() == word.as_bytes()
        && sort.has_name() == named
        && sort.is_called(b"B".as_slice()) == named
        && sort.is_called(word.as_bytes()) != named
        && sort.is_in_range(0) == from_zero
        && !sort.is_in_range(1_000_001)
}

#[test]
fn forms_of_the_sorts(rt: HostRuntime) {
    for form in &FORMS {
        assert!(rt; has_form(form), "at {}", form.0);
    }
    assert!(rt; DeclKind::Semaphore.is_in_range(1_000_000));
    assert!(rt; DeclKind::Buffer.is_in_range(256) && !DeclKind::Database.is_in_range(257));
    assert!(rt; DeclKind::Buffer.needs_second() && !DeclKind::Semaphore.needs_second());
    assert!(rt;
        DeclKind::Database.needs_disjoint_lists() && !DeclKind::Cells.needs_disjoint_lists()
    );
}

/// Returns whether a version has this greatest limit.
fn has_limits(version: Version, greatest: u64) -> bool {
    let has_limit = |n: u64| version.limit(n).map(|limit| limit.get()) == Some(n);
    version.greatest_limit() == greatest
        && !has_limit(0)
        && has_limit(1)
        && has_limit(greatest)
        && version.limit(greatest.saturating_add(1)).is_none()
}

#[test]
fn each_version_has_its_limits(rt: HostRuntime) {
    assert!(rt; has_limits(Version::One, 4_294_967_295) && !Version::One.has_transfer());
    assert!(rt; has_limits(Version::Two, 281_474_976_710_655) && Version::Two.has_transfer());
}

static NUMBERS: [(HeadFault, Option<u64>); 8] = [
    (HeadFault::BadLine, Some(2)),
    (HeadFault::BadName, Some(3)),
    (HeadFault::NameTaken, Some(4)),
    (HeadFault::UnknownName, Some(5)),
    (HeadFault::BadNumber, Some(6)),
    (HeadFault::TooMany, Some(7)),
    (HeadFault::TwoRoles, Some(9)),
    (HeadFault::Memory, None),
];

#[test]
fn faults_tell_their_numbers(rt: HostRuntime) {
    for (fault, number) in &NUMBERS {
        assert!(rt; fault.number() == *number, "of {fault}");
    }
}
