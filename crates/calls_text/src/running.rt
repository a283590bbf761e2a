//! Reads the lines of the events of a history.
ghost use Rattle.std.specs.Prelude.{◌≡◌, ◌+◌, ◌++◌, ◌==◌, ◌||◌, [], not, length, map, None, Some, false};
ghost use Rattle.std.specs.Prelude.{Ok, IfOk, IfSome, OnOk, option_map};
ghost use Rattle.std.specs.List.{list_any};
ghost use Rattle.ec_text.specs.Words.{words_of};
ghost use Rattle.calls_core.specs.Pending.{IsPendingOf};
ghost use Rattle.calls_text.specs.Forms.{only_in, rest_words, phrase_of_parts};
ghost use Rattle.calls_text.specs.Lists.{list_number, lists_after};
ghost use Rattle.calls_text.specs.Objects.{object_in};
ghost use Rattle.calls_text.specs.Recordings.{first_group};
ghost use Rattle.calls_text.specs.Reading.{is_no_number, number_or_0, only_number, numbers_in};
ghost use Rattle.calls_text.specs.Reading.{cells_in, is_bad_tail, has_two_roles, call_fault_by};
ghost use Rattle.calls_text.specs.Reading.{index_of, place_in, second_place_in, op_of_word};
ghost use Rattle.calls_text.specs.Reading.{number_in, lists_of, takes_numbers, is_suited, is_over};
ghost use Rattle.calls_text.specs.Reading.{suit_fault, gives_list, reply_of_word, lists_with};
ghost use Rattle.calls_text.specs.Reading.{other_word};
ghost use Rattle.calls_text.specs.kept.Judging.{pending_by, spent_by, fault_by, invocation};
ghost use Rattle.calls_text.specs.kept.Judging.{invocation_result, response, response_result, event_by, Answers};
ghost use Rattle.calls_text.specs.kept.Judging.{TallyAfter};
ghost use Rattle.calls_text.specs.kept.Runs.{IsRunning, IsPlaced, Fits};
ghost use Rattle.calls_text.specs.Verbs.{tail_of};

use crate::fault::{FaultKind, LineFault};
use crate::form::{Parts, ReplyWord, split_event};
use crate::index::{first_cell, first_group, first_sequencer, numbers_of};
use crate::lists::Lists;
use crate::object::{Object, has_right, is_owned, object_in};
use crate::recording::Recording;
use crate::tally::Tally;
use crate::verb::{OpWord, Tail};
use calls_core::{Action, Event, Op, PendingCall, Reply};
use calls_verdict::find;
use ec_count::WorkerId;
use ec_heading::{Heading, count_words};
use ec_text::{cut_word, number};
use std::alloc::{AllocError, Global};

/// A history while its events are read. Its user may store them in the recording, or not.
#[derive(Drop)]
pub(crate) struct Running {
    /// What is declared, the lists so far, and the events that are stored.
    pub(crate) recording: Recording,
    pending: Vec<PendingCall>,
    /// Boxed, since a `Tally` is large and a stage is moved.
    tally: Box<Tally>,
    count: usize,
}

/// Returns whether a word of a list spells no number in range.
fn has_no_number(list: &[u8]) -> bool
    ensures { result ≡ list_any is_no_number (words_of list.now) }
{
    let (word, rest) = cut_word(list);
    if number(word).is_none() {
        return true;
    }
    match rest {
        None => false,
        Some(rest) => has_no_number(rest),
    }
}

/// Returns the only word, if there is exactly one.
#[tactic(auto, using(crate::proofs::Words::two_words))]
fn only_word(rest: Option<&[u8]>) -> Option<&[u8]>
    ensures { option_map (λ w. w.now) result ≡ only_in (rest_words rest.entry) }
{
    let (word, None) = cut_word(rest?) else {
        return None;
    };
    Some(word)
}

/// Returns the number that the only word spells, 0 if there is none.
fn only_number(rest: Option<&[u8]>) -> u64
    ensures { result ≡ only_number (rest_words rest.entry) }
{
    match only_word(rest) {
        Some(word) => number(word).unwrap_or(0),
        None => 0,
    }
}

/// Adds the numbers that words spell.
fn push_numbers(list: &[u8], numbers: &mut Vec<u64>) -> Result<(), AllocError>
    ensures { OnOk result
        (numbers.new.items ≡ numbers.old.items ++ numbers_in (words_of list.now)) }
{
    let (word, rest) = cut_word(list);
    numbers.push(number(word).unwrap_or(0))?;
    match rest {
        None => Ok(()),
        Some(rest) => push_numbers(rest, numbers),
    }
}

/// Returns the number of the list that words spell, which is added if it is new.
fn list_number(alloc: Global, lists: &mut Lists, list: &[u8]) -> Result<usize, AllocError>
    ensures number { IfOk result (λ n. n ≡ list_number lists.old (numbers_in (words_of list.now))) }
    ensures after { OnOk result
        (lists.new ≡ lists_after lists.old (numbers_in (words_of list.now))) }
{
    let mut numbers = Vec::new(alloc);
    push_numbers(list, &mut numbers)?;
    lists.number(numbers)
}

/// Returns how many numbers a write to the object takes.
fn cells_in(object: &Object) -> usize
    ensures { result ≡ cells_in object.now }
{
    match *object {
        Object::Database(_, shape) => shape.cells(),
        _ => 0,
    }
}

/// Returns whether a number is out of range, or there are not as many numbers as cells.
fn are_bad_numbers(rest: Option<&[u8]>, cells: usize) -> bool
    ensures { result ≡ list_any is_no_number (rest_words rest.entry)
        || not (length (rest_words rest.entry) == cells) }
{
    match rest {
        None => cells != 0,
        Some(list) => has_no_number(list) || count_words(list) != cells,
    }
}

/// Returns whether a number of a call is out of range, or a write has not one number for each cell.
fn is_bad_tail(tail: Tail, rest: Option<&[u8]>, object: &Object) -> bool
    ensures { result ≡ is_bad_tail tail (rest_words rest.entry) object.now }
{
    match tail {
        Tail::Digits => match only_word(rest) {
            Some(word) => number(word).is_none(),
            None => false,
        },
        Tail::ManyDigits => are_bad_numbers(rest, cells_in(object)),
        _ => false,
    }
}

/// Returns whether one semaphore is named twice.
fn has_two_roles(object: &Object) -> bool
    ensures { result ≡ has_two_roles object.now }
{
    match *object {
        Object::Pair(i, _, j, _, _) => i == j,
        _ => false,
    }
}

/// Returns the index of an object.
fn index_of(recording: &Recording, object: &Object) -> usize
    requires { IsPlaced recording.now.heading object.now }
    ensures { result ≡ index_of recording.now.heading object.now }
{
    let heading = recording.heading();
    heading.setup().invariant();
    // there is a kind for each index, so the sums fit
    let _kinds = recording.kinds().len();
    match *object {
        Object::Event(event) => event.get(),
        Object::Sequencer(sequencer) => first_sequencer(heading) + sequencer.get(),
        Object::Cell(cell) => first_cell(heading) + cell.get(),
        Object::Semaphore(_, _) | Object::Pair(_, _, _, _, _) => first_group(heading) - 1,
        Object::Database(place, _) | Object::Buffer(place, _) => first_group(heading) + place,
    }
}

/// Returns the index of a semaphore among the groups, and that of the second one of a pair.
fn places_in(object: &Object) -> (usize, usize)
    ensures first { result.0 ≡ place_in object.now }
    ensures second { result.1 ≡ second_place_in object.now }
{
    match *object {
        Object::Semaphore(i, _) => (i, 0),
        Object::Pair(i, _, j, _, _) => (i, j),
        _ => (0, 0),
    }
}

/// Returns the operation of a call. `n` is its number, or that of its list.
fn op_of_word(verb: OpWord, object: &Object, n: usize) -> Op
    ensures { result ≡ op_of_word verb object.now n }
{
    let (i, j) = places_in(object);
    match verb {
        OpWord::Advance => Op::Advance,
        OpWord::Read => Op::Read,
        OpWord::Await => Op::Await(n),
        OpWord::Ticket => Op::Ticket,
        OpWord::Put | OpWord::Write => Op::Put(n),
        OpWord::Get | OpWord::Snapshot => Op::Get,
        OpWord::P => Op::P(i),
        OpWord::V => Op::V(i),
        OpWord::PBoth => Op::PBoth(i, j),
        OpWord::Produce => Op::Produce(n),
        OpWord::Consume => Op::Consume,
    }
}

/// Returns the number in a call, or that of its list, which is added if it is new.
fn number_in(
    alloc: Global,
    recording: &mut Recording,
    verb: OpWord,
    rest: Option<&[u8]>,
) -> Result<usize, AllocError>
    ensures number { IfOk result
        (λ n. n ≡ number_in recording.old.lists verb (rest_words rest.entry)) }
    ensures after { OnOk result (recording.new ≡ record recording.old
        { lists = lists_of recording.old.lists verb (rest_words rest.entry) }) }
{
    match (verb, rest) {
        (OpWord::Write, Some(list)) => list_number(alloc, &mut recording.lists, list),
        (OpWord::Write, None) => recording.lists.number(Vec::new(alloc)),
        _ => Ok(only_number(rest) as usize),
    }
}

/// Returns whether `n` numbers are a reply to the call.
fn takes_numbers(heading: &Heading, call: &PendingCall, n: usize) -> bool
    ensures { result ≡ takes_numbers heading.now call.now call.now.op n }
{
    match call.op {
        Op::Read | Op::Await(_) | Op::Ticket | Op::Consume => n == 1,
        Op::Get => n == numbers_of(heading, call.object),
        _ => false,
    }
}

/// Returns whether a reply suits a call.
fn is_suited(heading: &Heading, call: &PendingCall, answer: ReplyWord, list: &[u8]) -> bool
    ensures { result ≡ is_suited heading.now call.now answer (words_of list.now) }
{
    match answer {
        ReplyWord::Done => !matches!(call.op, Op::Read | Op::Ticket | Op::Get | Op::Consume),
        ReplyWord::Timeout => matches!(
            call.op,
            Op::Await(_) | Op::P(_) | Op::PBoth(_, _) | Op::Produce(_) | Op::Consume
        ),
        ReplyWord::Numbers => takes_numbers(heading, call, count_words(list)),
    }
}

/// Returns whether a ticket returns the limit or more.
fn is_over(limit: u64, op: Op, answer: ReplyWord, list: &[u8]) -> bool
    ensures { result ≡ is_over limit op answer (words_of list.now) }
{
    match (op, answer) {
        (Op::Ticket, ReplyWord::Numbers) => limit <= only_number(Some(list)),
        _ => false,
    }
}

/// Returns the lowest kind of fault of a reply to a call.
fn suit_fault(
    heading: &Heading,
    call: &PendingCall,
    answer: ReplyWord,
    list: &[u8],
) -> Option<FaultKind>
    ensures { result ≡ suit_fault heading.now call.now answer (words_of list.now) }
{
    if !is_suited(heading, call, answer, list) {
        return Some(FaultKind::Unsuited);
    }
    if is_over(heading.setup().limit().get(), call.op, answer, list) {
        return Some(FaultKind::AtLimit);
    }
    None
}

/// Returns whether the call is a snapshot, whose reply is a list of numbers.
fn gives_list(heading: &Heading, call: &PendingCall) -> bool
    ensures { result ≡ gives_list heading.now call.now call.now.op }
{
    match call.op {
        Op::Get => first_group(heading) <= call.object,
        _ => false,
    }
}

/// Returns the reply to a call.
fn reply_of_word(
    alloc: Global,
    recording: &mut Recording,
    call: &PendingCall,
    answer: ReplyWord,
    list: &[u8],
) -> Result<Reply, AllocError>
    ensures reply { IfOk result
        (λ reply. reply ≡ reply_of_word recording.old call.now answer (words_of list.now)) }
    ensures after { OnOk result (recording.new ≡ record recording.old
        { lists = lists_with recording.old call.now answer (words_of list.now) }) }
{
    match answer {
        ReplyWord::Done => Ok(Reply::Done),
        ReplyWord::Timeout => Ok(Reply::Timeout),
        ReplyWord::Numbers => {
            if gives_list(recording.heading(), call) {
                Ok(Reply::Number(list_number(alloc, &mut recording.lists, list)?))
            } else {
                Ok(Reply::Number(only_number(Some(list)) as usize))
            }
        }
    }
}

/// Returns the lowest kind of fault of an invocation.
///
/// `is_busy` says whether the worker has a pending call, and `is_spent` whether it may call no more
/// advances of the object.
fn call_fault(
    heading: &Heading,
    worker: WorkerId,
    verb: OpWord,
    object: &Object,
    rest: Option<&[u8]>,
    is_busy: bool,
    is_spent: bool,
) -> Option<FaultKind>
    ensures { result ≡ call_fault_by heading.now worker verb object.now (rest_words rest.entry)
        is_busy is_spent }
{
    if is_bad_tail(verb.tail(), rest, object) {
        return Some(FaultKind::BadNumber);
    }
    if is_owned(heading.groups(), object) {
        return Some(FaultKind::Hidden);
    }
    if has_two_roles(object) {
        return Some(FaultKind::TwoRoles);
    }
    if !has_right(heading.setup(), worker, verb.is_update(), object) {
        return Some(FaultKind::NoRight);
    }
    if is_busy {
        return Some(FaultKind::Busy);
    }
    if is_spent {
        return Some(FaultKind::AtLimit);
    }
    None
}

impl Running {
    /// Returns a history before its first event.
    pub(crate) fn new(alloc: Global, recording: Recording) -> Result<Running, AllocError>
        requires { recording.events ≡ [] }
        ensures recording { IfOk result (λ running. running.recording ≡ recording) }
        ensures run { IfOk result (λ running. IsRunning [] running) }
    {
        recording.heading().setup().invariant();
        Ok(Running {
            recording,
            pending: Vec::new(alloc),
            tally: Box::new(alloc, Tally::zeros())?,
            count: 0,
        })
    }

    /// Returns how many calls are pending.
    pub(crate) fn pending_len(&self) -> usize
        ensures { result ≡ length self.now.pending.items }
    {
        self.pending.as_slice().len()
    }

    /// Returns the pending call of a worker, with its place among the pending calls.
    fn pending_call(&self, worker: WorkerId) -> Option<(usize, PendingCall)>
        ensures call { option_map (λ p. p.1) result ≡ pending_by self.now worker }
        ensures place { IfSome result (λ p. IsPendingOf self.now.pending.items worker p.0) }
    {
        match find(&self.pending, worker.get()) {
            Some(i) => Some((i, self.pending[i])),
            None => None,
        }
    }

    /// Returns whether the call is an advance, and the worker has called as many as the limit
    /// allows.
    fn is_spent(&self, worker: WorkerId, verb: OpWord, object: &Object) -> bool
        ensures { result ≡ spent_by self.now worker verb object.now }
    {
        match (verb, *object) {
            (OpWord::Advance, Object::Event(event)) => {
                self.recording.heading.setup().limit().get() <= self.tally.at(worker, event)
            }
            _ => false,
        }
    }

    /// Returns the next event, and counts it. The pending calls stay as they are.
    #[inline(always)]
    fn event(&mut self, worker: WorkerId, action: Action) -> Result<Event, AllocError>
        ensures at { IfOk result (λ x. x ≡ record {
          at = self.old.count;
          worker = worker;
          action = action;
        }) }
        ensures count { OnOk result (self.new.count ≡ self.old.count + 1) }
        ensures pending { self.new.pending ≡ self.old.pending }
        ensures recording { self.new.recording ≡ self.old.recording }
        ensures tally { self.new.tally.value ≡ self.old.tally.value }
    {
        let event = Event {
            at: self.count,
            worker: worker.get(),
            action,
        };
        // (so many events would take centuries)
        self.count = self.count.checked_add(1).ok_or(AllocError)?;
        Ok(event)
    }

    /// Counts the call, if it is an advance.
    fn count(&mut self, worker: WorkerId, verb: OpWord, object: &Object)
        requires { spent_by self.old worker verb object.now ≡ false }
        ensures tally { TallyAfter self.old.tally.value self.new.tally.value worker verb
            object.now }
        ensures pending { self.new.pending ≡ self.old.pending }
        ensures count { self.new.count ≡ self.old.count }
        ensures recording { self.new.recording ≡ self.old.recording }
    {
        self.recording.heading().setup().invariant();
        if let (OpWord::Advance, Object::Event(event)) = (verb, *object) {
            self.tally.add(worker, event);
        }
    }

    /// Returns the event of an invocation without a fault, and counts it.
    fn call(
        &mut self,
        alloc: Global,
        worker: WorkerId,
        verb: OpWord,
        object: &Object,
        rest: Option<&[u8]>,
    ) -> Result<Event, AllocError>
        requires fits { Fits self.old.recording.heading verb object.now }
        requires none { fault_by self.old worker verb object.now (rest_words rest) ≡ None }
        ensures { IfOk result (λ x. Answers self.old self.new (Ok x)
            (Ok (invocation self.old worker verb object.now (rest_words rest.entry)))) }
    {
        let n = number_in(alloc, &mut self.recording, verb, rest)?;
        let index = index_of(&self.recording, object);
        let op = op_of_word(verb, object, n);
        let event = self.event(worker, Action::Invoke(index, op))?;
        self.pending.push(PendingCall::new(event, index, op))?;
        self.count(worker, verb, object);
        Ok(event)
    }

    /// Judges an invocation, and returns its event.
    fn take_call(
        &mut self,
        alloc: Global,
        worker: Option<WorkerId>,
        verb: OpWord,
        word: &[u8],
        rest: Option<&[u8]>,
    ) -> Result<Event, LineFault>
        ensures { Answers self.old self.new result (invocation_result self.old worker verb
            (object_in self.old.recording.heading verb word.now
            (other_word verb (rest_words rest.entry))) (rest_words rest.entry)) }
    {
        let other = match verb {
            OpWord::PBoth => only_word(rest),
            _ => None,
        };
        let heading = self.recording.heading();
        let object = object_in(heading, verb, word, other);
        let (Some(worker), Some(object)) = (worker, object) else {
            return Err(LineFault::Of(FaultKind::UnknownName));
        };
        let is_busy = self.pending_call(worker).is_some();
        let is_spent = self.is_spent(worker, verb, &object);
        if let Some(kind) = call_fault(heading, worker, verb, &object, rest, is_busy, is_spent) {
            return Err(LineFault::Of(kind));
        }
        Ok(self.call(alloc, worker, verb, &object, rest)?)
    }

    /// Returns the event of a response without a fault.
    fn respond(
        &mut self,
        alloc: Global,
        worker: WorkerId,
        place: usize,
        call: &PendingCall,
        answer: ReplyWord,
        list: &[u8],
    ) -> Result<Event, AllocError>
        requires pending { pending_by self.old worker ≡ Some call.now }
        requires place { IsPendingOf self.old.pending.items worker place }
        requires none { suit_fault self.old.recording.heading call.now answer (words_of list.now)
            ≡ None }
        ensures { IfOk result (λ x. Answers self.old self.new (Ok x)
            (Ok (response self.old worker call.now answer (words_of list.now)))) }
    {
        let reply = reply_of_word(alloc, &mut self.recording, call, answer, list)?;
        let event = self.event(worker, Action::Respond(reply))?;
        self.pending.remove(place);
        Ok(event)
    }

    /// Judges a response, and returns its event.
    fn take_return(
        &mut self,
        alloc: Global,
        worker: Option<WorkerId>,
        answer: ReplyWord,
        list: &[u8],
    ) -> Result<Event, LineFault>
        ensures { Answers self.old self.new result
            (response_result self.old worker answer (words_of list.now)) }
    {
        let worker = worker.ok_or(LineFault::Of(FaultKind::UnknownName))?;
        if matches!(answer, ReplyWord::Numbers) && has_no_number(list) {
            return Err(LineFault::Of(FaultKind::BadNumber));
        }
        let idle = LineFault::Of(FaultKind::Idle);
        let (place, call) = self.pending_call(worker).ok_or(idle)?;
        if let Some(kind) = suit_fault(self.recording.heading(), &call, answer, list) {
            return Err(LineFault::Of(kind));
        }
        Ok(self.respond(alloc, worker, place, &call, answer, list)?)
    }

    /// Reads the line of an event, given without its LF, and returns the event.
    pub(crate) fn line(&mut self, alloc: Global, line: &[u8]) -> Result<Event, LineFault>
        ensures { Answers self.old self.new result (event_by self.old line.now) }
    {
        match split_event(line).ok_or(LineFault::Of(FaultKind::BadLine))? {
            Parts::Calls {
                worker,
                verb,
                object,
                rest,
            } => {
                let worker = self.recording.heading.worker(worker);
                self.take_call(alloc, worker, verb, object, rest)
            }
            Parts::Returns {
                worker,
                answer,
                list,
            } => {
                let worker = self.recording.heading.worker(worker);
                self.take_return(alloc, worker, answer, list)
            }
        }
    }
}
