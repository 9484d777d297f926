// The line of each answer.
ghost use Rattle.std.specs.Prelude.{◌≡◌, ◌≤◌, [], length, IfOk, MatchResult};
ghost use Rattle.std.specs.Option.{option_map, unwrap_or};
ghost use Rattle.calls.specs.Told.{told, added, wrote, copied as copied_as};
ghost use Rattle.lines.specs.Line.{line, line_text};
ghost use Rattle.lines.specs.declared.More.TheVariants.{Nothing};
ghost use Rattle.replay.specs.Grammar.{byte_of, stop_byte, stop_number, no_sheet_number};
ghost use Rattle.replay.specs.Words.{answered as answered_line, shown as shown_line, copied as copied_line, stepped as stepped_line, refused_line};

use crate::command::Command;
use crate::stop::Stop;
use calls::answer::Copied;
use calls::refusal::Refusal;
use choice::unnamed::Unnamed;
use lines::{Line, More};
use polynomial::term::Term;
use std::alloc::{AllocError, Global};

// How many steps were granted, and what denied the next one.
#[derive(Clone, Copy)]
pub(crate) struct Steps {
    pub(crate) granted: u16,
    pub(crate) denial: Option<Refusal>,
}

// The line of a command that is granted with that value.
fn granted<'a>(at: usize, byte: u8, value: usize, more: More<'a>) -> Line<'a>
    ensures { result ≡ record { at = at; byte = byte; number = 0; value = value; more = more.entry } }
{
    Line {
        at,
        byte,
        number: 0,
        value,
        more,
    }
}

// The line of a command that its call denies.
fn denied<'a>(at: usize, byte: u8, refusal: Refusal, more: More<'a>) -> Line<'a>
    ensures { result ≡ record { at = at; byte = byte; number = (told refusal).number; value = (told refusal).place; more = more.entry } }
{
    Line {
        at,
        byte,
        number: refusal.number(),
        value: refusal.place(),
        more,
    }
}

// The line of a command whose call grants a value and what is behind it, or denies it.
fn answer_line<'a>(at: usize, byte: u8, answer: Result<(usize, More<'a>), Refusal>) -> Line<'a>
    ensures { MatchResult answer.entry (λ a. result ≡ record { at = at; byte = byte; number = 0; value = a.0; more = a.1 }) (λ r. result ≡ record { at = at; byte = byte; number = (told r).number; value = (told r).place; more = Nothing }) }
{
    match answer {
        Ok((value, more)) => granted(at, byte, value, more),
        Err(refusal) => denied(at, byte, refusal, More::Nothing),
    }
}

// The line of an add or a verdict.
pub(crate) fn answered(
    at: usize,
    command: Command<'_>,
    answer: Result<usize, Refusal>,
) -> Line<'static>
    ensures { line_text result ≡ answered_line at (byte_of command.entry) (added answer) }
{
    answer_line(
        at,
        command.byte(),
        answer.map(|value| (value, More::Nothing)),
    )
}

// The line of a remainder or a row, of which the terms were written to the front of those lent.
pub(crate) fn shown<'a>(
    at: usize,
    command: Command<'a>,
    answer: Result<usize, Refusal>,
    terms: &'a [Term],
) -> Line<'a>
    requires { IfOk answer (λ n. n ≤ length terms.now) }
    ensures { line_text result ≡ shown_line at (byte_of command.entry) (wrote answer) terms.now }
{
    answer_line(
        at,
        command.byte(),
        answer.map(|n| (n, More::Terms(&terms[..n]))),
    )
}

// The line of a fair copy, of which the bytes were written to the front of those lent.
pub(crate) fn copied<'a>(at: usize, answer: Result<Copied, Refusal>, bytes: &'a [u8]) -> Line<'a>
    requires { IfOk answer (λ c. c.bytes ≤ length bytes.now) }
    ensures { line_text result ≡ copied_line at (copied_as answer) bytes.now }
{
    answer_line(
        at,
        Command::FairCopy.byte(),
        answer.map(|done| (done.rows, More::Bytes(&bytes[..done.bytes]))),
    )
}

// The line of steps.
pub(crate) fn stepped(at: usize, steps: Steps) -> Line<'static>
    ensures { line_text result ≡ stepped_line at steps.granted (option_map told steps.denial) }
{
    let byte = Command::STEPS;
    let count = usize::from(steps.granted);
    match steps.denial {
        None => granted(at, byte, count, More::Nothing),
        Some(refusal) => denied(at, byte, refusal, More::Count(count)),
    }
}

// The number by which the formats name what is missing.
fn unnamed_number(reason: Unnamed) -> u8
    ensures { result ≡ no_sheet_number reason }
{
    match reason {
        Unnamed::Field => 1,
        Unnamed::Variables => 2,
        Unnamed::Order => 3,
        Unnamed::Division => 4,
    }
}

// The line of the making, where nothing is missing or that is.
fn making(missing: Option<Unnamed>) -> Line<'static>
    ensures { line_text result ≡ line 0 0 (unwrap_or (option_map no_sheet_number missing) 0) 0 [] }
{
    Line {
        at: 0,
        byte: 0,
        number: missing.map_or(0, unnamed_number),
        value: 0,
        more: More::Nothing,
    }
}

pub(crate) fn made() -> Line<'static>
    ensures { line_text result ≡ line 0 0 0 0 [] }
{
    making(None)
}

pub(crate) fn not_made(reason: Unnamed) -> Line<'static>
    ensures { line_text result ≡ line 0 0 (no_sheet_number reason) 0 [] }
{
    making(Some(reason))
}

// The line of a command that is not carried out.
pub(crate) fn refused(at: usize, stop: Stop) -> Line<'static>
    ensures { line_text result ≡ refused_line at (stop_byte stop) (stop_number stop) }
{
    let byte = stop.byte();
    Line {
        at,
        byte,
        number: stop.number(),
        value: at,
        // Refused steps tell that none was granted.
        more: if byte == Command::STEPS {
            More::Count(0)
        } else {
            More::Nothing
        },
    }
}

// A text of one line.
pub(crate) fn text_of(heap: Global, line: Line<'_>) -> Result<Vec<u8>, AllocError>
    ensures { IfOk result (λ text. text.items ≡ line_text line.entry) }
{
    let mut text = Vec::new(heap);
    line.write_to(&mut text)?;
    Ok(text)
}
