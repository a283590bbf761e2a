//! The state of the parser, from the first line of a script on.
ghost use Rattle.std.specs.Prelude.{◌≡◌, ◌≤◌, option_map, IfOk};
ghost use Rattle.ec_heading.specs.Versions.{greatest_limit, version_of};
ghost use Rattle.ec_script.specs.Headers.{script_header};
ghost use Rattle.ec_script.specs.Reading.{Steps, limit_digits, limit_or, LimitIs, step};
ghost use Rattle.ec_script.specs.Outcome.{plan_in, shown_plan};
ghost use Rattle.ec_text.specs.Words.{words_of};

use crate::fault::{Kind, StageFault, stage_fault};
use crate::plan::Plan;
use crate::script::Script;
use crate::version_limit::VersionLimit;
use ec_count::Limit;
use ec_heading::{LINE_MAX, Version};
use ec_text::{cut_word, is_number_form, number};
use std::alloc::Global;
use std::mem;

/// The state of the parser after the lines so far.
#[derive(Drop)]
pub(crate) enum Stage {
    /// No line was read.
    Opening,
    /// After the first line, of this version.
    Limiting(Version),
    /// After the line of the limit.
    Naming(VersionLimit),
    /// After the line of the workers.
    Reading(Script),
}

/// Returns the version whose first line this is.
pub(crate) fn parse_version(line: &[u8]) -> Option<Version>
    ensures { result ≡ version_of script_header line.now }
{
    if line == b"evc-script 1".as_slice() {
        Some(Version::One)
    } else if line == b"evc-script 2".as_slice() {
        Some(Version::Two)
    } else {
        None
    }
}

/// Returns the digits after the word `limit`, if nothing else follows it.
#[tactic(auto, using(crate::proofs::Words::third_word))]
fn limit_digits(line: &[u8]) -> Option<&[u8]>
    ensures { option_map (λ w. w.now) result ≡ limit_digits (words_of line.now) }
{
    let (word, Some(rest)) = cut_word(line) else {
        return None;
    };
    let (digits, None) = cut_word(rest) else {
        return None;
    };
    if word == b"limit".as_slice() && is_number_form(digits) {
        Some(digits)
    } else {
        None
    }
}

/// Returns the limit of a line, if the version allows it.
fn parse_limit(version: Version, line: &[u8]) -> Result<Limit, Kind>
    ensures value { LimitIs version result (limit_or version (limit_digits (words_of line.now))) }
    ensures within { IfOk result (λ limit. limit ≤ greatest_limit version) }
{
    let digits = limit_digits(line).ok_or(Kind::BadLine)?;
    let n = number(digits).ok_or(Kind::BadNumber)?;
    version.limit(n).ok_or(Kind::BadNumber)
}

impl Stage {
    /// Reads the first line.
    #[tactic(auto, unfolding(crate::specs::Reading::step))]
    fn open(&mut self, line: &[u8]) -> Result<(), StageFault>
        requires { self.old ≡ Stage.Opening }
        ensures { Steps result (step self.old line.now) self.new }
    {
        let version = parse_version(line).ok_or(StageFault::Of(Kind::BadHeader))?;
        *self = Stage::Limiting(version);
        Ok(())
    }

    /// Reads the line of the limit.
    #[tactic(auto, unfolding(crate::specs::Reading::step, crate::specs::Reading::limit_step))]
    fn limit(&mut self, alloc: Global, version: Version, line: &[u8]) -> Result<(), StageFault>
        requires { self.old ≡ Stage.Limiting version }
        ensures { Steps result (step self.old line.now) self.new }
    {
        if line.len() > LINE_MAX {
            return Err(StageFault::Of(Kind::BadLine));
        }
        let limit = match parse_limit(version, line) {
            Ok(limit) => limit,
            Err(kind) => return Err(StageFault::Of(kind)),
        };
        let Ok(version_limit) = VersionLimit::new(alloc, version, limit) else {
            return Err(StageFault::Memory);
        };
        *self = Stage::Naming(version_limit);
        Ok(())
    }

    /// Reads the line of the workers.
    #[tactic(auto, using(crate::proofs::HeadFails::fails_named), unfolding(crate::specs::Reading::step))]
    fn name(
        &mut self,
        alloc: Global,
        version_limit: VersionLimit,
        line: &[u8],
    ) -> Result<(), StageFault>
        ensures { Steps result (step (Stage.Naming version_limit) line.now) self.new }
    {
        let mut heading = version_limit.into_heading();
        if let Err(fault) = heading.line(line) {
            return Err(stage_fault(fault));
        }
        let Ok(script) = Script::new(alloc, heading) else {
            return Err(StageFault::Memory);
        };
        *self = Stage::Reading(script);
        Ok(())
    }

    /// Reads the next line, without its LF.
    #[tactic(auto, unfolding(crate::specs::Reading::step))]
    pub(crate) fn line(&mut self, alloc: Global, line: &[u8]) -> Result<(), StageFault>
        ensures { Steps result (step self.old line.now) self.new }
    {
        match self {
            Stage::Reading(script) => script.line(line),
            Stage::Opening => self.open(line),
            Stage::Limiting(version) => {
                let version = *version;
                self.limit(alloc, version, line)
            }
            Stage::Naming(_) => match mem::replace(self, Stage::Opening) {
                Stage::Naming(version_limit) => self.name(alloc, version_limit, line),
                _ => Err(StageFault::Of(Kind::BadHeader)),
            },
        }
    }

    /// Returns the plan, if the text may end here.
    pub(crate) fn plan(self) -> Option<Plan>
        ensures { option_map shown_plan result ≡ plan_in self }
    {
        match self {
            Stage::Reading(script) => script.plan(),
            Stage::Opening | Stage::Limiting(_) | Stage::Naming(_) => None,
        }
    }
}
