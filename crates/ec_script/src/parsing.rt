//! The parser of whole scripts.
ghost use Rattle.std.specs.Prelude.{◌≡◌, ◌<◌, ◌^◌, Err, IfOk, length};
ghost use Rattle.ec_script.specs.Confined.{AreConfinedPrograms, IsPlan, HasPrograms};
ghost use Rattle.ec_script.specs.Outcome.{Returns, parse_end, fault_at, plan_or_fault, first_or_empty, parse_from, long_kind, parse_result, lines_of_text, plan_in, shown_plan, after_line};

use crate::fault::{Kind, ScriptFault, StageFault};
use crate::plan::Plan;
use crate::stage::{Stage, parse_version};
use ec_text::cut_line;
use std::alloc::Global;

/// The most bytes that a script may have.
pub const SCRIPT_MAX: usize = 1_048_576;

/// Returns the fault of a line, with the line's number.
fn fault_at(line: u64, fault: StageFault) -> ScriptFault
    ensures { result ≡ fault_at line fault }
{
    match fault {
        StageFault::Memory => ScriptFault::Memory,
        StageFault::Of(kind) => ScriptFault::At { line, kind },
    }
}

/// Returns the first line of a text.
#[tactic(auto, using(crate::proofs::Lines::first_lines))]
fn first_line(text: &[u8]) -> &[u8]
    ensures { result.now ≡ first_or_empty (lines_of_text text.now) }
{
    match cut_line(text) {
        Some((line, _)) => line,
        None => text,
    }
}

/// Returns the kind of a text that is too long, by its line 1.
fn long_kind(text: &[u8]) -> Kind
    ensures { result ≡ long_kind (first_or_empty (lines_of_text text.now)) }
{
    match parse_version(first_line(text)) {
        Some(_) => Kind::TooMany,
        None => Kind::BadHeader,
    }
}

/// Returns the result of a text that ends with these bytes, of line n.
fn finish(alloc: Global, mut stage: Stage, line: u64, rest: &[u8]) -> Result<Plan, ScriptFault>
    ensures { Returns (parse_end line stage rest.now) result }
{
    let unfinished = fault_at(line, StageFault::Of(Kind::Unfinished));
    match rest {
        [] => stage.plan().ok_or(unfinished),
        [_, ..] => match stage.line(alloc, rest) {
            Err(fault) => Err(fault_at(line, fault)),
            Ok(()) => Err(unfinished),
        },
    }
}

/// Parses a text within the bound.
fn parse_lines(alloc: Global, text: &[u8]) -> Result<Plan, ScriptFault>
    requires { length text.now < 2 ^ 32 }
    ensures { Returns (parse_from 1 Stage.Opening (lines_of_text text.now)) result }
{
    let mut stage = Stage::Opening;
    let mut number = 1u64;
    let mut rest = text;
    while let Some((line, behind)) = cut_line(rest) {
        if let Err(fault) = stage.line(alloc, line) {
            return Err(fault_at(number, fault));
        }
        number += 1;
        rest = behind;
    }
    finish(alloc, stage, number, rest)
}

/// Returns the plan of a script, or its first faulty line with the least kind of its faults.
///
/// Lines are counted from 1. A line is judged by those before it. A last line without its LF is
/// judged like every line; if it has no other fault the text is `Unfinished`. So is a text that
/// ends before its line of workers or inside a block. Of a text of more than 1048576 bytes only
/// line 1 is read: the kind is `TooMany` if it is the first line of a version, otherwise
/// `BadHeader`.
#[tactic(auto, unfolding(crate::specs::Outcome::parse_result))]
pub fn parse(alloc: Global, text: &[u8]) -> Result<Plan, ScriptFault>
    ensures tells { Returns (parse_result text.now) result }
    ensures plan { IfOk result (λ plan. IsPlan (shown_plan plan)) }
    ensures commands { IfOk result (λ plan. AreConfinedPrograms plan.heading.groups plan.programs.items) }
    ensures version { IfOk result (λ plan. HasPrograms plan.heading.version plan.programs.items) }
{
    if text.len() > SCRIPT_MAX {
        return Err(ScriptFault::At {
            line: 1,
            kind: long_kind(text),
        });
    }
    parse_lines(alloc, text)
}
