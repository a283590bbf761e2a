//! Answers lines about the functions of `ec_text`. A text is built first, a piece at a time, and
//! then cut.
use crate::fault::Fault;
use crate::line::{tell, tell_if};
use crate::output::TestOutput;
use crate::setup::line::Line;
use ec_text::{
    CachedDecimal, InlineText, Output, cut_line, cut_word, has_blank, number, number_at_end,
};
use std::alloc::Global;

/// The bytes so far, a number with its digits, and a short text.
#[derive(Drop)]
pub struct Texts {
    bytes: Vec<u8>,
    decimal: CachedDecimal,
    short: InlineText,
}

/// As many bytes as an output buffers.
static WHOLE: [u8; 8192] = [b'x'; 8192];

/// Returns a text of so many bytes.
pub fn long(many: usize) -> Result<&'static [u8], Fault> {
    WHOLE.as_slice().get(..many).ok_or(Fault::Line)
}

/// Writes a piece in angle brackets, or `-`.
fn put_piece(piece: Option<&[u8]>, out: &mut TestOutput) -> Result<(), Fault> {
    let Some(piece) = piece else {
        write!(out, "-")?;
        return Ok(());
    };
    write!(out, "<")?;
    out.put(piece)?;
    write!(out, ">")
}

/// Ends the line of an output, and finishes it.
fn end(mut out: Output<'_, TestOutput>) -> Result<(), Fault> {
    out.put(b"\n");
    Ok(out.finish()?)
}

impl Texts {
    /// Makes empty texts.
    pub fn new(alloc: Global) -> Self {
        Texts {
            bytes: Vec::new(alloc),
            decimal: CachedDecimal::new(7),
            short: InlineText::new(),
        }
    }

    /// Appends bytes.
    fn gather(&mut self, bytes: &[u8]) -> Result<(), Fault> {
        self.bytes.extend_from_slice(bytes)?;
        Ok(())
    }

    /// Writes the first line, and what follows it.
    fn tell_cut_line(&self, line: &mut Line<'_>) -> Result<(), Fault> {
        let Some((first, rest)) = cut_line(self.bytes.as_slice()) else {
            return tell("-", line.out);
        };
        put_piece(Some(first), line.out)?;
        put_piece(Some(rest), line.out)?;
        tell("", line.out)
    }

    /// Writes the first word, what follows it, and whether a word is empty.
    fn tell_cut_word(&self, line: &mut Line<'_>) -> Result<(), Fault> {
        let bytes = self.bytes.as_slice();
        let (first, rest) = cut_word(bytes);
        put_piece(Some(first), line.out)?;
        put_piece(rest, line.out)?;
        tell(if has_blank(bytes) { " blank" } else { "" }, line.out)
    }

    /// Writes the number at the end, and the position of the space before it.
    fn tell_at_end(&self, line: &mut Line<'_>) -> Result<(), Fault> {
        let Some((place, n)) = number_at_end(self.bytes.as_slice()) else {
            return tell("-", line.out);
        };
        writeln!(line.out, "{n} behind {place}")
    }

    /// Sets the number, and writes it three times: its digits, the number, and the cached number.
    fn set(&mut self, n: u64, line: &mut Line<'_>) -> Result<(), Fault> {
        self.decimal.set(n);
        let mut out = Output::new(line.out);
        out.put(self.decimal.digits().bytes());
        out.put(b" ");
        out.put_number(n);
        out.put(b" ");
        out.put_decimal(&self.decimal);
        end(out)
    }

    /// Writes so many bytes, the short text, and the text `!`.
    fn put_short(&self, before: usize, line: &mut Line<'_>) -> Result<(), Fault> {
        let mut shorter = InlineText::new();
        let _fits = shorter.take_in(b"!");
        let mut out = Output::new(line.out);
        out.put(long(before)?);
        out.put_short(&self.short);
        out.put_short(&shorter);
        end(out)
    }

    /// Writes so many bytes, and then a text and the short text in one call.
    fn put_with_short(&self, text: &str, line: &mut Line<'_>) -> Result<(), Fault> {
        let before = long(line.size()?)?;
        let mut out = Output::new(line.out);
        out.put(before);
        out.put_with_short(text.as_bytes(), &self.short);
        end(out)
    }

    /// Writes a text and the number in one call.
    fn put_with_number(&self, text: &str, line: &mut Line<'_>) -> Result<(), Fault> {
        let mut out = Output::new(line.out);
        out.put_with_decimal(text.as_bytes(), &self.decimal);
        end(out)
    }

    /// Answers a line with a text in angle brackets.
    pub fn take(&mut self, text: &str, line: &mut Line<'_>) -> Result<(), Fault> {
        match line.verb {
            "gather " => self.gather(text.as_bytes()),
            "take-in " => tell(self.short.take_in(text.as_bytes()), line.out),
            "put-with-short " => self.put_with_short(text, line),
            "put-with-number " => self.put_with_number(text, line),
            _ => Err(Fault::Line),
        }
    }

    /// Appends a byte.
    fn add(&mut self, n: u64) -> Result<(), Fault> {
        let Ok(byte) = u8::try_from(n) else {
            return Err(Fault::Line);
        };
        self.bytes.push(byte)?;
        Ok(())
    }

    /// Writes what is found in the bytes, or the short text.
    fn look(&self, line: &mut Line<'_>) -> Result<(), Fault> {
        match line.verb {
            "cut-line" => self.tell_cut_line(line),
            "cut-word" => self.tell_cut_word(line),
            "at-end" => self.tell_at_end(line),
            "number" => tell_if(number(self.bytes.as_slice()), line.out),
            _ => {
                put_piece(Some(self.short.bytes()), line.out)?;
                tell("", line.out)
            }
        }
    }

    /// Answers another line, if it is one.
    pub fn answer(&mut self, line: &mut Line<'_>) -> Result<bool, Fault> {
        let verb = line.verb;
        if ["cut-line", "cut-word", "at-end", "number", "short-bytes"].contains(&verb) {
            self.look(line)?;
            return Ok(true);
        }
        match verb {
            "clear" => self.bytes.clear(),
            "line-feed" => self.gather(b"\n")?,
            "short" => self.short = InlineText::new(),
            "byte" => self.add(line.number()?)?,
            "set" => self.set(line.number()?, line)?,
            "put-short" => self.put_short(line.size()?, line)?,
            _ => return Ok(false),
        }
        Ok(true)
    }
}
