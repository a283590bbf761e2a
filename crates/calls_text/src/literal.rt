//! Compares short texts.
ghost use Rattle.std.specs.Prelude.{◌≡◌, bytes_eq};

/// Returns whether the bytes are the same, one after another.
fn has_bytes(word: &[u8], text: &[u8]) -> bool
    ensures { result ≡ bytes_eq word.now text.now }
{
    match (word, text) {
        ([], []) => true,
        ([a, word @ ..], [b, text @ ..]) => *a == *b && has_bytes(word, text),
        _ => false,
    }
}

/// Returns whether a word is this text. With a literal it is compiled without a call, which `==` on
/// slices of four bytes and more is not.
#[inline(always)]
pub(crate) fn is_text(word: &[u8], text: &[u8]) -> bool
    ensures { result ≡ bytes_eq word.now text.now }
{
    word.len() == text.len() && has_bytes(word, text)
}
