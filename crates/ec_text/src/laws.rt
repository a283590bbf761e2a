//! Theorems on words and numbers. Each is the contract of a function that does nothing.
ghost use Rattle.ec_text.specs.Spelling.{JoinIsUndone, SplitIsUndone, WordsHaveNoSpace, NumberHasOneSpelling, NumberIsReadBack, NumbersAreShortForms};

/// States that words without spaces, joined by single spaces, are the words of the resulting line.
#[tactic(auto, using(crate::proofs::shared::WordLemmas::words_join))]
pub fn join_is_undone()
    ensures { JoinIsUndone }
{}

/// States that the words of a line, joined by single spaces, are the line.
#[tactic(auto, using(crate::proofs::shared::WordLemmas::split_join))]
pub fn split_is_undone()
    ensures { SplitIsUndone }
{}

/// States that no word of a line has a space in it.
#[tactic(auto, using(crate::proofs::shared::WordLemmas::are_words))]
pub fn words_have_no_space()
    ensures { WordsHaveNoSpace }
{}

/// States that what is read as a number is its decimal digits and nothing else, and is below 10^18.
pub fn number_has_one_spelling()
    ensures { NumberHasOneSpelling }
{}

/// States that the decimal digits of a number below 10^18 are read as that number.
#[tactic(auto, using(crate::proofs::shared::NumberLemmas::number_again))]
pub fn number_is_read_back()
    ensures { NumberIsReadBack }
{}

/// States that exactly the words of at most 18 digits without a leading zero are read as numbers.
pub fn numbers_are_short_forms()
    ensures { NumbersAreShortForms }
{}
