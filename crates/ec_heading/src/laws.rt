//! Theorems about headers. Each is the contract of a function that does nothing.
ghost use Rattle.ec_heading.specs.HeadingLaws.{SpelledWorkersAreRead, SpelledDeclarationIsRead, ReadWorkersAreSpelled, ReadDeclarationIsSpelled, OutlineLinesLead, LinesHaveAnOutline};

/// States that the encoding of workers is read as those workers.
#[tactic(auto, using(crate::proofs::ReadLines::workers_read))]
pub fn spelled_workers_are_read()
    ensures { SpelledWorkersAreRead }
{}

/// States that the encoding of an allowed declaration is read as that declaration.
#[tactic(auto, using(crate::proofs::ReadLines::declaration_read))]
pub fn spelled_declaration_is_read()
    ensures { SpelledDeclarationIsRead }
{}

/// States that a line that is read as workers is their encoding.
#[tactic(auto, using(crate::proofs::SpelledLines::workers_spelled))]
pub fn read_workers_are_spelled()
    ensures { ReadWorkersAreSpelled }
{}

/// States that a line that is read as a declaration is its encoding, and that it is allowed.
#[tactic(auto, using(crate::proofs::SpelledLines::declaration_spelled))]
pub fn read_declaration_is_spelled()
    ensures { ReadDeclarationIsSpelled }
{}

/// States that the lines of a syntax tree are read as the header that it declares.
#[tactic(auto, using(crate::proofs::shared::LeadLines::outline_leads))]
pub fn outline_lines_lead()
    ensures { OutlineLinesLead }
{}

/// States that lines that are read as a header are those of a syntax tree that declares it.
#[tactic(auto, using(crate::proofs::shared::LeadLines::leads_outline))]
pub fn lines_have_an_outline()
    ensures { LinesHaveAnOutline }
{}
