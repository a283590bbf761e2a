//! Texts: bounded input, lines, words, numbers and their digits, and buffered output.
#![tactic(auto)]

mod at_end;
mod buffer;
mod cached_decimal;
mod input;
mod laws;
mod lines;
mod numbers;
mod output;
mod words;
mod writing;

pub use at_end::number_at_end;
pub use buffer::InlineText;
pub use cached_decimal::CachedDecimal;
pub use input::{Input, read_piece, read_up_to};
pub use laws::{
    join_is_undone, number_has_one_spelling, number_is_read_back, numbers_are_short_forms,
    split_is_undone, words_have_no_space,
};
pub use lines::cut_line;
pub use numbers::{is_number_form, number};
pub use output::Output;
pub use words::{cut_word, has_blank};
pub use writing::{WriteFault, write_out};
