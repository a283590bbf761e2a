//! The faults of a line after the declarations.
ghost use Rattle.std.specs.Prelude.{◌≡◌, ◌+◌, ◌==◌, ◌||◌, not, nat_lt, length, option_map};
ghost use Rattle.std.specs.Option.{option_and_then};
ghost use Rattle.std.specs.List.{list_any};
ghost use Rattle.ec_count.specs.Members.{is_member};
ghost use Rattle.ec_text.specs.Words.{number_in_word};
ghost use Rattle.ec_script.specs.Forms.{rest_words, phrase_of_parts};
ghost use Rattle.ec_script.specs.Verbs.{tail_of};
ghost use Rattle.ec_script.specs.Kinds.{context_model, is_no_value, is_count, is_allowed, is_named_again, has_unknown_name, cells_of, greatest, is_bad_tail, is_too_many, has_two_roles, may_signal, are_declared, has_right, lacks_right, is_badly_nested, phrase_fault};

use crate::fault::Kind;
use crate::form::{Parts, only_word, parse_value};
use crate::lists::has_no_value;
use crate::object::{Object, is_owned};
use crate::verb::{LineWord, Tail};
use ec_count::{EventId, Setup, WorkerId};
use ec_heading::{Heading, Version, count_words, has_unknown};
use ec_machine::{COMMANDS_MAX, NESTING_MAX, TIMES_MAX, TRIES_MAX, are_apart};
use ec_text::number;

/// The block that a line is in: its worker, how many repeats are open, whether the innermost has no
/// command yet, and how many commands there are.
#[derive(Clone, Copy)]
pub(crate) struct BlockContext {
    pub(crate) worker: WorkerId,
    pub(crate) depth: usize,
    pub(crate) is_empty: bool,
    pub(crate) commands: usize,
}

/// What the faults of a line depend on: the header, the workers whose blocks began, the open block,
/// and how many names the schedule has.
#[derive(Clone, Copy)]
pub(crate) struct LineContext<'a> {
    pub(crate) heading: &'a Heading,
    pub(crate) named: &'a [WorkerId],
    pub(crate) block: Option<BlockContext>,
    pub(crate) scheduled: usize,
}

/// The greatest number of names in a schedule.
const SCHEDULE_MAX: usize = 65536;

/// Returns whether a line with this verb is allowed here.
fn is_allowed(verb: LineWord, in_block: bool, scheduled: usize) -> bool
    ensures { result ≡ is_allowed verb in_block scheduled }
{
    match verb {
        LineWord::Schedule => true,
        LineWord::Worker => in_block || scheduled == 0,
        _ => in_block,
    }
}

/// Returns whether a worker is in the list.
fn is_member(worker: WorkerId, named: &[WorkerId]) -> bool
    ensures { result ≡ is_member worker named.now }
{
    named.iter().any(|id| id.get() == worker.get())
}

/// Returns whether the object is a worker whose block began before.
fn is_named_again(named: &[WorkerId], object: &Object) -> bool
    ensures { result ≡ is_named_again named.now object.now }
{
    match *object {
        Object::Worker(worker) => is_member(worker, named),
        _ => false,
    }
}

/// Returns whether a name of the schedule is no worker's.
fn has_unknown_name(heading: &Heading, parts: &Parts<'_>) -> bool
    ensures { result ≡ has_unknown_name heading.now parts.now.verb (rest_words parts.now.rest) }
{
    match (parts.verb, parts.rest) {
        (LineWord::Schedule, Some(rest)) => has_unknown(heading.words(), rest),
        _ => false,
    }
}

/// Returns how many cells a database has; 0 for another object.
fn cells_of(object: &Object) -> usize
    ensures { result ≡ cells_of object.now }
{
    match *object {
        Object::OfDatabase(shape) => shape.cells(),
        _ => 0,
    }
}

/// Returns the greatest count of a repeat, or of tries.
fn greatest(verb: LineWord) -> u64
    ensures { result ≡ greatest verb }
{
    match verb {
        LineWord::Repeat => TIMES_MAX,
        _ => TRIES_MAX as u64,
    }
}

/// Returns whether a word is no value in its range.
fn is_no_value(word: &[u8]) -> bool
    ensures { result ≡ is_no_value word.now }
{
    parse_value(word).is_none()
}

/// Returns whether some value is out of range, or there are not as many as cells.
fn are_bad_values(rest: Option<&[u8]>, cells: usize) -> bool
    ensures { result ≡ list_any is_no_value (rest_words rest.entry) || not (length (rest_words rest.entry) == cells) }
{
    match rest {
        None => cells != 0,
        Some(list) => has_no_value(list) || count_words(list) != cells,
    }
}

/// Returns whether the digits are a number from 1 to the greatest.
fn is_count(most: u64, digits: Option<&[u8]>) -> bool
    ensures { result ≡ is_count most (option_and_then number_in_word (option_map (λ w. w.now) digits.entry)) }
{
    match digits.and_then(|word| number(word)) {
        Some(n) => 1 <= n && n <= most,
        None => false,
    }
}

/// Returns whether a number is out of range, or the values are not as many as the cells.
fn is_bad_tail(parts: &Parts<'_>, object: &Object) -> bool
    ensures { result ≡ is_bad_tail (tail_of parts.now.verb) parts.now.verb (rest_words parts.now.rest) object.now }
{
    match parts.verb.tail() {
        Tail::Value => only_word(parts.rest).is_some_and(is_no_value),
        Tail::Values => are_bad_values(parts.rest, cells_of(object)),
        Tail::Digits => !is_count(greatest(parts.verb), only_word(parts.rest)),
        _ => false,
    }
}

/// Returns whether a schedule of this many names and this many more is too long.
fn is_over(scheduled: usize, more: usize) -> bool
    ensures { result ≡ nat_lt 65536 (scheduled + more) }
{
    scheduled > SCHEDULE_MAX || more > SCHEDULE_MAX - scheduled
}

/// Returns whether the commands of the block, or the names of the schedule, become too many.
fn is_too_many(parts: &Parts<'_>, block: Option<BlockContext>, scheduled: usize) -> bool
    ensures { result ≡ is_too_many parts.now.verb (rest_words parts.now.rest) block scheduled }
{
    match (parts.verb, block) {
        (LineWord::Schedule, _) => is_over(
            scheduled,
            parts.rest.map_or(0, |list| count_words(list)),
        ),
        (verb, Some(block)) => verb.is_counted() && block.commands >= COMMANDS_MAX,
        (_, None) => false,
    }
}

/// Returns whether two of the three semaphores are one.
fn has_two_roles(object: &Object) -> bool
    ensures { result ≡ has_two_roles object.now }
{
    match object {
        Object::SemaphorePair(common, one, other) => !are_apart(common, one, other),
        _ => false,
    }
}

/// Returns whether a script of this version may have the worker signal the eventcount. In version 1
/// only its declared signallers may. In version 2 the right is tested when the program runs, since
/// components may be handed over.
fn may_signal(version: Version, setup: &Setup, event: EventId, worker: WorkerId) -> bool
    ensures { result ≡ may_signal version setup.now event worker }
{
    match version {
        Version::One => setup.component_of(event, worker).is_some(),
        Version::Two => event.get() < setup.events(),
    }
}

/// Returns whether there are such an eventcount and such a worker.
fn are_declared(setup: &Setup, event: EventId, worker: WorkerId) -> bool
    ensures { result ≡ are_declared setup.now event worker }
{
    event.get() < setup.events() && worker.get() < setup.workers()
}

/// Returns whether a script of this version may have the worker use the object in this way.
fn has_right(
    version: Version,
    setup: &Setup,
    worker: WorkerId,
    update: bool,
    object: &Object,
) -> bool
    ensures { result ≡ has_right version setup.now worker update object.now }
{
    match *object {
        Object::Event(event) if update => may_signal(version, setup, event, worker),
        Object::Event(event) => setup.may_observe(event, worker),
        Object::Sequencer(sequencer) => setup.may_take(sequencer, worker),
        Object::Cell(cell) if update => setup.may_write(cell, worker),
        Object::Cell(cell) => setup.may_read(cell, worker),
        Object::Handed(event, to) => are_declared(setup, event, to),
        Object::OfBuffer(shape) if update => setup.may_take(shape.put_seq(), worker),
        Object::OfBuffer(shape) => setup.may_take(shape.take_seq(), worker),
        Object::OfDatabase(shape) if update => setup.may_take(shape.turn(), worker),
        Object::OfDatabase(shape) => setup.may_observe(shape.start(), worker),
        Object::OfSemaphore(shape) => setup.may_take(shape.line(), worker),
        Object::SemaphorePair(common, one, other) => {
            setup.may_take(common.line(), worker)
                && setup.may_take(one.line(), worker)
                && setup.may_take(other.line(), worker)
        }
        Object::Nothing | Object::Worker(_) => true,
    }
}

/// Returns whether the worker of the block lacks the right to use the object as the verb does.
fn lacks_right(
    heading: &Heading,
    block: Option<BlockContext>,
    verb: LineWord,
    object: &Object,
) -> bool
    ensures { result ≡ lacks_right heading.now block verb object.now }
{
    match block {
        None => false,
        Some(block) => !has_right(
            heading.version(),
            heading.setup(),
            block.worker,
            verb.is_update(),
            object,
        ),
    }
}

/// Returns whether a line that must not be inside a block is, or a fifth repeat is inside the
/// others, or an `end` closes a repeat without a command.
fn is_badly_nested(verb: LineWord, block: Option<BlockContext>) -> bool
    ensures { result ≡ is_badly_nested verb block }
{
    let Some(block) = block else {
        return false;
    };
    match verb {
        LineWord::Worker | LineWord::Schedule => true,
        LineWord::Repeat => block.depth >= NESTING_MAX,
        LineWord::End => block.depth > 0 && block.is_empty,
        _ => false,
    }
}

/// Returns the least fault of a line that has one of the forms; `found` is its object, if it names
/// a declared one of the right kind.
pub(crate) fn phrase_fault(
    view: &LineContext<'_>,
    parts: &Parts<'_>,
    found: Option<Object>,
) -> Option<Kind>
    ensures { result ≡ phrase_fault (context_model view.now) (phrase_of_parts parts.now) found }
{
    let object = found.unwrap_or(Object::Nothing);
    if !parts.verb.is_of(view.heading.version())
        || !is_allowed(parts.verb, view.block.is_some(), view.scheduled)
    {
        return Some(Kind::BadLine);
    }
    if is_named_again(view.named, &object) {
        return Some(Kind::NameTaken);
    }
    if found.is_none() || has_unknown_name(view.heading, parts) {
        return Some(Kind::UnknownName);
    }
    if is_bad_tail(parts, &object) {
        return Some(Kind::BadNumber);
    }
    if is_too_many(parts, view.block, view.scheduled) {
        return Some(Kind::TooMany);
    }
    if is_owned(view.heading.groups(), &object) {
        return Some(Kind::Hidden);
    }
    if has_two_roles(&object) {
        return Some(Kind::TwoRoles);
    }
    if lacks_right(view.heading, view.block, parts.verb, &object) {
        return Some(Kind::NoRight);
    }
    if is_badly_nested(parts.verb, view.block) {
        return Some(Kind::BadNesting);
    }
    None
}
