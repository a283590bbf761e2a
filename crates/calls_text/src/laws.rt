//! Theorems on the format. Each is the contract of an empty function.
ghost use Rattle.calls_text.specs.Laws.{ReadIsSpelled, SpelledIsRead, TextsArePrefixFree};
ghost use Rattle.calls_text.specs.Laws.{PrefixIsRefused};

/// States that a history that is read keeps the rules, and that its text was read.
#[tactic(auto, using(crate::proofs::Texts::read_is_spelled))]
pub fn read_is_spelled()
    ensures { ReadIsSpelled }
{}

/// States that each history that keeps the rules is read from its text, whatever follows.
#[tactic(auto, using(crate::proofs::Prefixes::spelled_is_read))]
pub fn spelled_is_read()
    ensures { SpelledIsRead }
{}

/// States that no text of a history is a proper prefix of another.
///
/// And different histories have different texts.
pub fn texts_are_prefix_free()
    ensures { TextsArePrefixFree }
{}

/// States that a proper prefix of the text of a history is rejected at its end.
pub fn prefix_is_refused()
    ensures { PrefixIsRefused }
{}
