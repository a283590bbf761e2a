//! How many calls were watched, and how much they overlap.
ghost use Rattle.std.specs.Prelude.{◌≡◌, ◌+◌, ◌*◌, ◌%◌, ◌≤◌, OnOk, IfErr};
ghost use Rattle.ec_text.specs.Puts.{Puts};
ghost use Rattle.calls_watch.specs.declared.stop.Stop.TheVariants.{Memory};
ghost use Rattle.calls_watch.specs.Loads.{invocation_count, others_at, digit_text, overlap_text};
ghost use Rattle.calls_watch.specs.Loads.{load_text};

use crate::stop::Stop;
use calls_core::Action;
use ec_text::Output;
use std::io::Write;

/// The most calls for which an overlap is computed. For more calls it is written as 0.00.
const CALLS_MAX: u64 = 1_000_000_000_000_000_000;

/// The numbers of histories and of calls so far, and how much the calls overlap.
#[derive(Clone, Copy, Debug, PartialEq, Eq)]
pub struct Load {
    /// How many histories have ended.
    pub histories: u64,
    /// How many calls were invoked.
    pub calls: u64,
    /// The number of other calls that are pending after an invocation, added up over all
    /// invocations.
    pub others: u64,
}

/// Puts the next decimal digit of `rest / whole`, and returns the remainder.
fn put_digit<W: Write>(out: &mut Output<'_, W>, rest: u64, whole: u64) -> u64
    requires some { 1 ≤ whole }
    requires less { rest + 1 ≤ whole }
    requires small { whole ≤ CALLS_MAX }
    ensures puts { Puts out.old out.new (digit_text rest whole) }
    ensures rest { result ≡ rest * 10 % whole }
    ensures less { result + 1 ≤ whole }
{
    out.put_number(rest * 10 / whole);
    rest * 10 % whole
}

/// Puts how many other calls are pending on average at an invocation, with two decimals, cut off.
fn put_overlap<W: Write>(out: &mut Output<'_, W>, calls: u64, others: u64)
    ensures { Puts out.old out.new (overlap_text calls others) }
{
    if calls == 0 || calls > CALLS_MAX {
        out.put(b"0.00");
        return;
    }
    out.put_number(others / calls);
    out.put(b".");
    let rest = put_digit(out, others % calls, calls);
    put_digit(out, rest, calls);
}

impl Load {
    /// Returns a load of zeros.
    pub(crate) fn none() -> Load
        ensures histories { result.histories ≡ 0 }
        ensures calls { result.calls ≡ 0 }
        ensures others { result.others ≡ 0 }
    {
        Load {
            histories: 0,
            calls: 0,
            others: 0,
        }
    }

    /// Adds an event. `pending` is the number of pending calls after it.
    pub(crate) fn add_event(&mut self, action: Action, pending: usize) -> Result<(), Stop>
        ensures calls { OnOk result (self.new.calls ≡ self.old.calls + invocation_count action) }
        ensures others { OnOk result (self.new.others ≡ self.old.others + others_at action pending) }
        ensures histories { self.new.histories ≡ self.old.histories }
        ensures err { IfErr result (λ stop. stop ≡ Memory) }
    {
        if let Action::Invoke(_, _) = action {
            let others = (pending as u64).saturating_sub(1);
            let others = self.others.checked_add(others).ok_or(Stop::Memory)?;
            self.calls = self.calls.checked_add(1).ok_or(Stop::Memory)?;
            self.others = others;
        }
        Ok(())
    }

    /// Adds one to the number of histories.
    pub(crate) fn add_history(&mut self) -> Result<(), Stop>
        ensures histories { OnOk result (self.new.histories ≡ self.old.histories + 1) }
        ensures calls { self.new.calls ≡ self.old.calls }
        ensures others { self.new.others ≡ self.old.others }
        ensures err { IfErr result (λ stop. stop ≡ Memory) }
    {
        self.histories = self.histories.checked_add(1).ok_or(Stop::Memory)?;
        Ok(())
    }

    /// Puts the load as a line, such as `2 histories, 1200 calls, overlap 1.37`.
    pub(crate) fn put<W: Write>(&self, out: &mut Output<'_, W>)
        ensures { Puts out.old out.new (load_text self.now.histories self.now.calls self.now.others) }
    {
        out.put_number(self.histories);
        out.put(b" histories, ");
        out.put_number(self.calls);
        out.put(b" calls, overlap ");
        put_overlap(out, self.calls, self.others);
        out.put(b"\n");
    }
}
