//! What is wrong with the bytes of a line.
ghost use Rattle.std.specs.Prelude.{◌≡◌};
ghost use Rattle.ec_explain.specs.Causes.{line_cause, is_comment};
ghost use Rattle.calls_text.specs.Causes.{has_tab};

use crate::cause::Cause;
use ec_heading::LINE_MAX;
use ec_text::has_blank;

/// Returns whether a line has a tab.
fn has_tab(line: &[u8]) -> bool
    ensures { result ≡ has_tab line.now }
{
    line.iter().any(|b| *b == b'\t')
}

/// Returns whether a line begins as comments do in other formats.
fn is_comment(line: &[u8]) -> bool
    ensures { result ≡ is_comment line.now }
{
    line.starts_with(b"#".as_slice())
        || line.starts_with(b"//".as_slice())
        || line.starts_with(b";".as_slice())
}

/// Returns what is wrong with the bytes of a line, wherever the line is.
pub(crate) fn line_cause(line: &[u8]) -> Option<Cause>
    ensures { result ≡ line_cause line.now }
{
    if line.len() > LINE_MAX {
        return Some(Cause::Long);
    }
    if line.starts_with(b"\xEF\xBB\xBF".as_slice()) {
        return Some(Cause::Mark);
    }
    if line.ends_with(b"\r".as_slice()) {
        return Some(Cause::Return);
    }
    if has_tab(line) {
        return Some(Cause::Tab);
    }
    if line.is_empty() {
        return Some(Cause::Empty);
    }
    if is_comment(line) {
        return Some(Cause::Comment);
    }
    if line.starts_with(b" ".as_slice()) {
        return Some(Cause::SpaceBefore);
    }
    if line.ends_with(b" ".as_slice()) {
        return Some(Cause::SpaceAfter);
    }
    if has_blank(line) {
        return Some(Cause::TwoSpaces);
    }
    None
}
