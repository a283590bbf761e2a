//! The state of the parser after the line of workers.
ghost use Rattle.std.specs.Prelude.{◌≡◌, ◌++◌, [], false, map, option_map, replicate, length, slice_set, OnOk, IfOk, None, Some};
ghost use Rattle.ec_heading.specs.Heading.{head_step};
ghost use Rattle.ec_heading.specs.Lists.{ids_in};
ghost use Rattle.ec_text.specs.Words.{words_of};
ghost use Rattle.ec_script.specs.Flat.{flat};
ghost use Rattle.ec_script.specs.Forms.{rest_words, phrase_of_parts};
ghost use Rattle.ec_script.specs.Kinds.{phrase_fault, or_nothing, is_bad_tail, has_two_roles};
ghost use Rattle.ec_script.specs.BlockItems.{command_in};
ghost use Rattle.ec_script.specs.Verbs.{is_update, tail_of};
ghost use Rattle.ec_script.specs.Reading.{view_of_block, context_of_script, with_worker_block, after_item, after_command, with_block_end, after_verb, after_phrase, map_heading, is_declaring, opens_outer, script_of, script_step, Steps};
ghost use Rattle.ec_script.specs.Outcome.{plan_or, shown_plan};
ghost use Rattle.ec_script.specs.ScriptModel.{MayTakeItem, MayEnd, HasRoom};

use crate::block_item::BlockItem;
use crate::command::{command_in, size_in};
use crate::draft::Draft;
use crate::fault::{Kind, StageFault, stage_fault};
use crate::form::{Parts, split_line};
use crate::kinds::{BlockContext, LineContext, phrase_fault};
use crate::lists::push_ids;
use crate::object::{Object, object_in};
use crate::plan::Plan;
use crate::verb::{LineWord, parse_line_word};
use ec_count::WorkerId;
use ec_heading::{Heading, LINE_MAX};
use ec_machine::Program;
use ec_text::{cut_word, has_blank};
use std::alloc::{AllocError, Global};
use std::marker::Model;

/// The open block of a worker.
#[derive(Drop)]
pub(crate) struct OpenBlock {
    worker: WorkerId,
    draft: Draft,
}

/// The header, the workers whose blocks began, the programs, the open block and the schedule, after
/// the lines so far.
#[derive(Drop)]
pub(crate) struct Script {
    heading: Heading,
    named: Vec<WorkerId>,
    programs: Vec<Program>,
    block: Option<OpenBlock>,
    schedule: Vec<WorkerId>,
    alloc: Global,
}

impl Model for Script {
    ghost use Rattle.std.specs.Prelude.{map};
    ghost use Rattle.std.specs.Coded.{codes};
    ghost use Rattle.ec_machine.specs.contracts.command.Command as command;
    ghost use Rattle.ec_script.specs.contracts.block_item.BlockItem as item;
    ghost use Rattle.ec_script.specs.Flat.{flat};
    ghost use Rattle.ec_script.specs.ScriptModel.{ScriptModel};

    ghost Value = { ScriptModel };

    ghost coded = { Prim.hlevel (codes, command.the_row.coded, item.the_row.coded) };

    ghost view = { λ s. record { heading = s.heading; named = s.named.items; programs = map flat s.programs.items; block = s.block; schedule = s.schedule.items } };
}

/// Returns the empty program.
fn empty_program(alloc: Global) -> Program
    ensures { result ≡ [] }
{
    let Some(program) = Program::new(Vec::new(alloc)) else {
        unreachable!();
    };
    program
}

/// Returns this many empty programs.
#[tactic(auto, using(crate::proofs::Drafts::flats_none))]
fn empty_programs(alloc: Global, n: usize) -> Result<Vec<Program>, AllocError>
    ensures items { IfOk result (λ programs. programs.items ≡ replicate n []) }
    ensures lines { IfOk result (λ programs. map flat programs.items ≡ replicate n []) }
{
    let mut programs = Vec::new(alloc);
    for _made in 0..n {
        programs.push(empty_program(alloc))?;
    }
    Ok(programs)
}

/// Stores a program at a place, if there is one.
fn set_program(programs: &mut Vec<Program>, place: usize, program: Program)
    ensures { map flat programs.new.items ≡ slice_set (map flat programs.old.items) place (flat program) }
{
    if place < programs.len() {
        programs[place] = program;
    }
}

/// Returns whether a line opens with `worker` or `schedule`.
fn opens_outer(line: &[u8]) -> bool
    ensures { result ≡ opens_outer (words_of line.now) }
{
    let (word, _) = cut_word(line);
    parse_line_word(word).is_some_and(|verb| verb.is_outer())
}

impl Script {
    /// Makes a script with this header, before its blocks.
    pub(crate) fn new(alloc: Global, heading: Heading) -> Result<Self, AllocError>
        ensures { IfOk result (λ script. script ≡ script_of heading) }
    {
        let programs = empty_programs(alloc, heading.setup().workers())?;
        Ok(Script {
            heading,
            named: Vec::new(alloc),
            programs,
            block: None,
            schedule: Vec::new(alloc),
            alloc,
        })
    }

    /// Returns the block that the next line is in, by what the faults of a line depend on.
    fn block_view(&self) -> Option<BlockContext>
        ensures { result ≡ option_map view_of_block self.now.block }
    {
        match &self.block {
            None => None,
            Some(block) => Some(BlockContext {
                worker: block.worker,
                depth: block.draft.depth(),
                is_empty: block.draft.is_empty(),
                commands: block.draft.commands(),
            }),
        }
    }

    /// Returns the least fault of a line of one of the forms, which has this object.
    fn fault(&self, parts: &Parts<'_>, found: &Option<Object>) -> Option<Kind>
        ensures { result ≡ phrase_fault (context_of_script self.now) (phrase_of_parts parts.now)
            found.now }
    {
        let view = LineContext {
            heading: &self.heading,
            named: self.named.as_slice(),
            block: self.block_view(),
            scheduled: self.schedule.len(),
        };
        phrase_fault(&view, parts, *found)
    }

    /// Begins the block of a worker.
    fn begin(&mut self, object: &Object) -> Result<(), AllocError>
        ensures { OnOk result (self.new ≡ with_worker_block self.old object.now) }
    {
        let Object::Worker(worker) = *object else {
            return Ok(());
        };
        self.named.push(worker)?;
        let draft = Draft::new(self.alloc);
        self.block = Some(OpenBlock { worker, draft });
        Ok(())
    }

    /// Adds one more line to the block.
    fn add_item(&mut self, item: BlockItem) -> Result<(), AllocError>
        requires { MayTakeItem self.old.block item }
        ensures { OnOk result (self.new ≡ after_item self.old item) }
    {
        let Some(mut block) = self.block.take() else {
            return Ok(());
        };
        block.draft.take(item)?;
        self.block = Some(block);
        Ok(())
    }

    /// Adds a command to the block.
    #[tactic(auto, using(crate::proofs::Room::may_command))]
    fn command(&mut self, parts: &Parts<'_>, object: &Object) -> Result<(), AllocError>
        requires numbers { is_bad_tail (tail_of parts.now.verb) parts.now.verb (rest_words parts.now.rest) object.now ≡ false }
        requires roles { has_two_roles object.now ≡ false }
        requires room { HasRoom self.old.block }
        ensures { OnOk result (self.new ≡ after_command self.old (command_in parts.now.verb (is_update parts.now.verb) object.now (rest_words parts.now.rest))) }
    {
        let Some(item) = command_in(self.alloc, parts, object)? else {
            return Ok(());
        };
        self.add_item(item)
    }

    /// Ends the innermost repeat, or the block, which then is the worker's program.
    fn end(&mut self) -> Result<(), AllocError>
        requires { MayEnd self.old.block }
        ensures { OnOk result (self.new ≡ with_block_end self.old self.old.block) }
    {
        let Some(block) = self.block.take() else {
            return Ok(());
        };
        let OpenBlock { worker, mut draft } = block;
        if draft.depth() == 0 {
            set_program(&mut self.programs, worker.get(), draft.finish());
            return Ok(());
        }
        draft.take(BlockItem::End)?;
        self.block = Some(OpenBlock { worker, draft });
        Ok(())
    }

    /// Adds names to the schedule.
    fn extend(&mut self, rest: Option<&[u8]>) -> Result<(), AllocError>
        ensures { OnOk result (self.new ≡ record self.old { schedule = self.old.schedule ++ ids_in self.old.heading.words (rest_words rest.entry) }) }
    {
        match rest {
            None => Ok(()),
            Some(list) => push_ids(&self.heading, list, &mut self.schedule),
        }
    }

    /// Does what a line without fault says.
    fn apply(&mut self, parts: &Parts<'_>, found: &Option<Object>) -> Result<(), AllocError>
        requires { phrase_fault (context_of_script self.old) (phrase_of_parts parts.now) found.now
            ≡ None }
        ensures { OnOk result (self.new ≡ after_verb parts.now.verb self.old (or_nothing found.now) (rest_words parts.now.rest)) }
    {
        let object = (*found).unwrap_or(Object::Nothing);
        match parts.verb {
            LineWord::Worker => self.begin(&object),
            LineWord::Schedule => self.extend(parts.rest),
            LineWord::Repeat => self.add_item(BlockItem::Begin(size_in(parts.rest))),
            LineWord::End => self.end(),
            _ => self.command(parts, &object),
        }
    }

    /// Reads a line of one of the forms.
    fn phrase(&mut self, parts: &Parts<'_>) -> Result<(), StageFault>
        ensures { Steps result (after_phrase self.old (Some (phrase_of_parts parts.now))) self.new }
    {
        let found = object_in(&self.heading, parts);
        if let Some(kind) = self.fault(parts, &found) {
            return Err(StageFault::Of(kind));
        }
        self.apply(parts, &found).map_err(|_| StageFault::Memory)
    }

    /// Reads a declaration.
    #[tactic(auto, using(crate::proofs::HeadFails::fails_on))]
    fn declare(&mut self, line: &[u8]) -> Result<(), StageFault>
        ensures { Steps result (map_heading self.old (head_step self.old.heading line.now)) self.new }
    {
        match self.heading.line(line) {
            Ok(()) => Ok(()),
            Err(fault) => Err(stage_fault(fault)),
        }
    }

    /// Returns whether no `worker` and no `schedule` line came yet.
    fn is_declaring(&self) -> bool
        ensures { result ≡ is_declaring self.now }
    {
        self.named.is_empty() && self.schedule.is_empty()
    }

    /// Reads the next line, without its LF.
    #[tactic(auto, unfolding(crate::specs::Reading::script_step))]
    pub(crate) fn line(&mut self, line: &[u8]) -> Result<(), StageFault>
        ensures { Steps result (script_step self.old line.now) self.new }
    {
        if self.is_declaring() && !opens_outer(line) {
            return self.declare(line);
        }
        if line.len() > LINE_MAX || has_blank(line) {
            return Err(StageFault::Of(Kind::BadLine));
        }
        match split_line(line) {
            Some(parts) => self.phrase(&parts),
            None => Err(StageFault::Of(Kind::BadLine)),
        }
    }

    /// Returns the plan, if no block is open.
    pub(crate) fn plan(self) -> Option<Plan>
        ensures { option_map shown_plan result ≡ plan_or self self.block }
    {
        if self.block.is_some() {
            return None;
        }
        Some(Plan {
            heading: self.heading,
            programs: self.programs,
            schedule: self.schedule,
        })
    }
}
