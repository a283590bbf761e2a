//! Theorems about reading. Each is the contract of a function that does nothing.
ghost use Rattle.std.specs.Prelude.{◌≡◌};
ghost use Rattle.ec_trace.specs.declared.read.TheConstants.{TRACE_MAX};
ghost use Rattle.ec_trace.specs.EntryLines.{EntriesAreSpelled, OtherLinesSpellNone, LinesLeadToOutlines, FaultsOfEntries};
ghost use Rattle.ec_trace.specs.FirstFault.{LineFaultIsTheFirst, FirstFaultWins, FaultOfTheWhole, FailedReadHasNoFault};
ghost use Rattle.ec_trace.specs.ReadingLaws.{TraceIsRead, ReadIsTrace, TraceHasOneMeaning, TracesArePrefixFree, TracesAreUpgraded, WrittenIsReadAgain};

/// States that a trace is read as its header and its history.
#[tactic(auto, using(crate::proofs::shared::ReadTraces::trace_is_read))]
pub fn trace_is_read()
    ensures { TraceIsRead }
{}

/// States that what is read is the trace of the header and the history that it is read as.
#[tactic(auto, using(crate::proofs::shared::ReadTraces::read_is_trace))]
pub fn read_is_trace()
    ensures { ReadIsTrace }
{}

/// States that no two triples of a version, a header and a history share a trace.
#[tactic(auto, using(crate::proofs::shared::ReadTraces::trace_has_one_meaning))]
pub fn trace_has_one_meaning()
    ensures { TraceHasOneMeaning }
{}

/// States that no trace is a proper prefix of another.
#[tactic(auto, using(crate::proofs::shared::ReadTraces::traces_are_prefix_free))]
pub fn traces_are_prefix_free()
    ensures { TracesArePrefixFree }
{}

/// States that a reported fault of a line is that of the first faulty line within the bound.
#[tactic(auto, using(crate::proofs::FirstFaults::line_fault_is_the_first))]
pub fn line_fault_is_the_first()
    ensures { LineFaultIsTheFirst }
{}

/// States that the fault of the first faulty line within the bound is reported.
#[tactic(auto, using(crate::proofs::ReportedFault::first_fault_wins))]
pub fn first_fault_wins()
    ensures { FirstFaultWins }
{}

/// States that a text is too large only if it exceeds the bound, and unfinished only if it doesn't.
#[tactic(auto, using(crate::proofs::FirstFaults::fault_of_the_whole))]
pub fn fault_of_the_whole()
    ensures { FaultOfTheWhole }
{}

/// States that if a failed read is reported, what was read before it has no faulty line.
pub fn failed_read_has_no_fault()
    ensures { FailedReadHasNoFault }
{}

/// States that a line is read as an entry exactly if it is the encoding of that entry.
///
/// The entry is one that may be written under the header.
pub fn entries_are_spelled()
    ensures { EntriesAreSpelled }
{}

/// States that a line is read as no entry exactly if it is the encoding of none.
pub fn other_lines_spell_none()
    ensures { OtherLinesSpellNone }
{}

/// States that at `run` the header of a trace is what a syntax tree declares.
pub fn lines_lead_to_outlines()
    ensures { LinesLeadToOutlines }
{}

/// States exactly when a line after `run` has each fault.
///
/// It is a bad line if it is neither `end` nor the encoding of an entry that the version allows. It
/// is refused, or has a wrong reply, if it is the encoding of such an entry for which that holds.
pub fn faults_of_entries()
    ensures { FaultsOfEntries }
{}

/// States that what `write_trace` writes is read as the same header and the same run.
///
/// It has to be within the bound and, under version 1, the run must have no `hand`.
#[tactic(auto, using(crate::proofs::shared::ReadTraces::written_is_read))]
pub fn written_is_read_again()
    ensures { WrittenIsReadAgain }
{}

/// States that an upgrade to version 2 changes only the first line of a trace.
///
/// The upgraded trace is as long, so within the bound, and is read as the same declarations and the
/// same run. A trace of version 2 is upgraded to itself.
pub fn traces_are_upgraded()
    ensures { TracesAreUpgraded }
{}

/// States the most bytes that a trace may have, as a number.
pub fn traces_have_64_mebibytes_at_most()
    ensures { TRACE_MAX ≡ 67108864 }
{}
