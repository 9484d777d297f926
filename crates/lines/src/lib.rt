// The lines that a replay writes: fields in decimal and lower-case hexadecimal, one space between them.
#![tactic(auto)]

ghost use Rattle.std.specs.Prelude.{◌≡◌, ◌<◌, ◌≤◌, ◌++◌, false, length, Some, OnOk};
ghost use Rattle.std.specs.Fmt.{digit_glyph};
ghost use Rattle.polynomial.specs.Bytes.{poly_bytes};
ghost use Rattle.lines.specs.Line.{hexed, fields, more_text, line_text};

use polynomial::bytes::term_bytes;
use polynomial::term::Term;
use std::alloc::AllocError;
use std::io::Write;
use std::{fmt, str};

// What a line has behind its four fields.
#[derive(Clone, Copy, PartialEq, Eq, Debug)]
pub enum More<'a> {
    Nothing,
    // a number more
    Count(usize),
    // bytes in hexadecimal; no field when there are none
    Bytes(&'a [u8]),
    // the bytes of a polynomial in hexadecimal; no field when it has no terms
    Terms(&'a [Term]),
}

// An answer line.
#[derive(Clone, Copy, PartialEq, Eq, Debug)]
pub struct Line<'a> {
    // the offset of the command
    pub at: usize,
    // the byte of the command
    pub byte: u8,
    // the refusal's number, 0 when granted: a number, since that is what is written
    pub number: u8,
    // the value, or the refusal's place
    pub value: usize,
    pub more: More<'a>,
}

// How many bytes are made digits of at a time, 64 in the clauses. A `{:02x}` for each byte would take many times as long.
const AT_ONCE: usize = 64;

// A hexadecimal digit.
fn digit(n: u8) -> u8
    requires { n < 16 }
    ensures { result ≡ digit_glyph false n }
{
    if n < 10 { b'0' + n } else { b'a' + (n - 10) }
}

// Two digits for each byte, at the front of the buffer, which has room for those of AT_ONCE bytes.
fn digits<'a>(bytes: &[u8], buffer: &'a mut [u8; 2 * AT_ONCE]) -> &'a str
    requires { length bytes.now ≤ 64 }
    ensures { result.now ≡ hexed bytes.now }
{
    for (i, byte) in bytes.iter().enumerate() {
        buffer[2 * i] = digit(byte / 16);
        buffer[2 * i + 1] = digit(byte % 16);
    }
    let Ok(text) = str::from_utf8(&buffer[..2 * bytes.len()]) else {
        unreachable!();
    };
    text
}

// Bytes, shown by two hexadecimal digits each.
#[derive(Clone, Copy)]
struct Hex<'a>(&'a [u8]);

impl fmt::Display for Hex<'_> {
    ghost output = { λ it. Some (hexed it.0.now) };

    fn fmt<W: fmt::Write>(&self, f: &mut fmt::Formatter<W>) -> fmt::Result {
        let mut buffer = [0; 2 * AT_ONCE];
        for bytes in self.0.chunks(AT_ONCE) {
            f.write_str(digits(bytes, &mut buffer))?;
        }
        Ok(())
    }
}

// Terms, shown by their bytes.
#[derive(Clone, Copy)]
struct HexTerms<'a>(&'a [Term]);

impl fmt::Display for HexTerms<'_> {
    ghost output = { λ it. Some (hexed (poly_bytes it.0.now)) };

    fn fmt<W: fmt::Write>(&self, f: &mut fmt::Formatter<W>) -> fmt::Result {
        let mut buffer = [0; 2 * AT_ONCE];
        for term in self.0 {
            f.write_str(digits(&term_bytes(term), &mut buffer))?;
        }
        Ok(())
    }
}

impl fmt::Display for More<'_> {
    ghost output = { λ more. Some (more_text more) };

    fn fmt<W: fmt::Write>(&self, f: &mut fmt::Formatter<W>) -> fmt::Result {
        match *self {
            More::Nothing | More::Bytes([]) | More::Terms([]) => Ok(()),
            More::Count(count) => write!(f, " {count}"),
            More::Bytes(bytes) => write!(f, " {}", Hex(bytes)),
            More::Terms(terms) => write!(f, " {}", HexTerms(terms)),
        }
    }
}

// The line without its end.
impl fmt::Display for Line<'_> {
    ghost output = { λ l. Some (fields l.at l.byte l.number l.value ++ more_text l.more) };

    fn fmt<W: fmt::Write>(&self, f: &mut fmt::Formatter<W>) -> fmt::Result {
        let Line {
            at,
            byte,
            number,
            value,
            more,
        } = *self;
        write!(f, "{at} {} {number} {value}{more}", Hex(&[byte]))
    }
}

impl Line<'_> {
    // Adds the line at the end of a text. Writing to a Vec fails for want of memory only.
    pub fn write_to(&self, text: &mut Vec<u8>) -> Result<(), AllocError>
        ensures { OnOk result (text.new.items ≡ text.old.items ++ line_text self.now) }
    {
        writeln!(text, "{self}").map_err(|_| AllocError)
    }
}

#[cfg(test)]
mod tests;
