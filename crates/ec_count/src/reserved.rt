//! Which words are names.
ghost use Rattle.ec_count.specs.Reserved.{is_name, is_name_byte, is_reserved};
ghost use Rattle.std.specs.List.{list_all, list_any};
ghost use Rattle.std.specs.Prelude.{◌≡◌, bytes_eq};

/// The reserved words: those of traces and scripts, which can't be names.
static RESERVED: [&str; 36] = [
    "advance",
    "await",
    "both",
    "buffer",
    "cells",
    "consume",
    "database",
    "done",
    "end",
    "eventcount",
    "get",
    "go",
    "hand",
    "last",
    "limit",
    "observe",
    "p",
    "pboth",
    "pending",
    "produce",
    "put",
    "read",
    "repeat",
    "run",
    "schedule",
    "semaphore",
    "sequencer",
    "signal",
    "snapshot",
    "take",
    "ticket",
    "use",
    "v",
    "worker",
    "workers",
    "write",
];

/// Returns whether a word is one of these.
fn is_among(word: &[u8], words: &[&str]) -> bool
    ensures { result ≡ list_any (λ w. bytes_eq w.now word.now) words.now }
{
    words.iter().any(|w| w.as_bytes() == word)
}

/// Returns whether each byte may follow the first byte of a name.
fn has_name_bytes(rest: &[u8]) -> bool
    ensures { result ≡ list_all is_name_byte rest.now }
{
    rest.iter()
        .all(|byte| byte.is_ascii_alphanumeric() || *byte == b'_')
}

/// Returns whether a word is a name.
///
/// A name is an ASCII letter, then at most 15 ASCII letters, digits or underscores. It is not a
/// reserved word.
#[tactic(auto, unfolding(crate::specs::Reserved::is_name))]
pub fn is_name(word: &[u8]) -> bool
    ensures { result ≡ is_name word.now }
{
    let [first, rest @ ..] = word else {
        return false;
    };
    first.is_ascii_alphabetic()
        && rest.len() <= 15
        && has_name_bytes(rest)
        && !is_among(word, &RESERVED)
}
