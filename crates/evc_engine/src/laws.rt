//! Theorems on what the contracts of the commands mean: each function states one and does nothing.
ghost use Rattle.evc_engine.specs.AuditLaws.{AuditsHaveOneText, TextOrBreak};
ghost use Rattle.evc_engine.specs.NoteLaws.{NotesAreWrittenOut, RefusalsAreAlike, RefusedAuditsHaveOneNote, RefusedChecksHaveOneNote};
ghost use Rattle.evc_engine.specs.Upgrades.{TextsHaveNoVersion};

/// States that the text that `audit` writes is determined by the bytes that it read.
pub fn audits_have_one_text()
    ensures { AuditsHaveOneText }
{}

/// States that no trace has both the text of an audit and a first group whose workers break its
/// rules.
pub fn audits_end_one_way()
    ensures { TextOrBreak }
{}

/// States that a note that was put into an empty buffer does not stay there: its writer has it, or
/// a proper prefix of it if a write has failed.
pub fn notes_are_written_out()
    ensures { NotesAreWrittenOut }
{}

/// States that whenever `check` ends with status 1 on the same bytes, it writes nothing but the
/// same note.
pub fn refused_checks_have_one_note()
    ensures { RefusedChecksHaveOneNote }
{}

/// States that whenever `audit` ends with status 1 on the same bytes, it writes nothing but the
/// same note. If a group's rules are broken, the note names one group, one worker and one entry.
pub fn refused_audits_have_one_note()
    ensures { RefusedAuditsHaveOneNote }
{}

/// States that if `check` ends with status 1 on bytes, and `audit` too, they write the same note.
pub fn checks_and_audits_refuse_alike()
    ensures { RefusalsAreAlike }
{}

/// States that what `check` and `audit` write does not depend on the version of the trace.
pub fn texts_have_no_version()
    ensures { TextsHaveNoVersion }
{}
