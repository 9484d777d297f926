// The commands behind the sheet command, carried out one after the other.
ghost use Rattle.std.specs.Prelude.{◌≡◌, ◌<◌, List, [], IfOk, OnOk};
ghost use Rattle.std.specs.Option.{option_map};
ghost use Rattle.polynomial.specs.Polynomial.{Poly};
ghost use Rattle.involutive.specs.Log.{Call};
ghost use Rattle.involutive.specs.Sheet.{empty};
ghost use Rattle.calls.specs.Told.{told};
ghost use Rattle.replay.specs.Words.{gather, term_of};
ghost use Rattle.replay.specs.Grammar.{byte_of, operands_of, ReadsCall};
ghost use Rattle.replay.specs.Replay.{Stepping, Acts, Ran, Starts, granted};

use crate::command::{Command, next};
use crate::stop::Stop;
use crate::tell::{Steps, answered, copied, made, refused, shown, stepped};
use calls::answer::{MOST_COPY_BYTES, Step};
use calls::calls::Calls;
use choice::operands::SHEET_BYTES;
use monomial::Monomial;
use polynomial::check::MOST_TERMS;
use polynomial::term::Term;
use std::alloc::{AllocError, Global};

// One term more than a polynomial may have: enough for it to be refused.
const MOST_GATHERED: usize = 41;

// The command at the front, which may be any but a sheet command, and the rest.
fn next_call<'a>(input: &'a [u8]) -> Result<Option<(Command<'a>, &'a [u8])>, Stop>
    ensures { ReadsCall input.now result }
{
    match next(input)? {
        Some((Command::Sheet(_), _)) => Err(Stop::Misplaced(Command::SHEET)),
        found => Ok(found),
    }
}

// Up to so many steps, until the sheet is closed or a step is denied.
fn repeat_step<C: Calls>(sheet: &mut C, count: u16) -> Steps
    ensures kept { C.Calls.setting sheet.new ≡ C.Calls.setting sheet.old }
    ensures steps { (log : List Call) → (log' : List Call) × Stepping (C.Calls.setting sheet.old) (C.Calls.state sheet.old) log count result.granted (option_map told result.denial) (C.Calls.state sheet.new) log' }
{
    'steps: for granted in 0..count {
        match sheet.step() {
            Err(refusal) => return Steps {
                granted,
                denial: Some(refusal),
            },
            // A match of its own, and an arm each: of a nested or a joint pattern a proof does not know afterwards which step it was.
            Ok(step) => match step {
                Step::Closed => return Steps {
                    granted,
                    denial: None,
                },
                Step::Marked => {}
                Step::Appended => {}
            },
        }
    }
    Steps {
        granted: count,
        denial: None,
    }
}

// What a replay has besides its sheet: the terms gathered so far, what it lends to the calls, and the lines that it has written.
#[derive(Drop)]
struct Replay {
    gathered: Vec<Term>,
    terms: [Term; MOST_TERMS],
    bytes: [u8; MOST_COPY_BYTES],
    text: Vec<u8>,
}

impl Replay {
    fn new(heap: Global) -> Replay
        ensures gathered { result.gathered.items ≡ [] }
        ensures text { result.text.items ≡ [] }
    {
        let zero = Term {
            coefficient: 0,
            monomial: Monomial::ONE,
        };
        Replay {
            gathered: Vec::new(heap),
            terms: [zero; MOST_TERMS],
            bytes: [0; MOST_COPY_BYTES],
            text: Vec::new(heap),
        }
    }

    fn gather(&mut self, operands: &[u8; 8]) -> Result<(), AllocError>
        ensures text { self.new.text.items ≡ self.old.text.items }
        ensures gathers { OnOk result (self.new.gathered.items ≡ gather self.old.gathered.items (term_of operands.now)) }
    {
        if self.gathered.len() < MOST_GATHERED {
            self.gathered.push(Term::from_bytes(operands))?;
        }
        Ok(())
    }

    fn add<C: Calls>(&mut self, sheet: &mut C, at: usize) -> Result<(), AllocError>
        ensures kept { C.Calls.setting sheet.new ≡ C.Calls.setting sheet.old }
        ensures acts { OnOk result (Acts (C.Calls.setting sheet.old) (C.Calls.state sheet.old) self.old.gathered.items at 2 [] (C.Calls.state sheet.new) self.new.gathered.items self.old.text.items self.new.text.items) }
    {
        let answer = sheet.add(self.gathered.as_slice());
        self.gathered.clear();
        answered(at, Command::Add, answer).write_to(&mut self.text)
    }

    fn steps<C: Calls>(
        &mut self,
        sheet: &mut C,
        operands: &[u8; 2],
        at: usize,
    ) -> Result<(), AllocError>
        ensures kept { C.Calls.setting sheet.new ≡ C.Calls.setting sheet.old }
        ensures acts { OnOk result (Acts (C.Calls.setting sheet.old) (C.Calls.state sheet.old) self.old.gathered.items at 3 operands.now (C.Calls.state sheet.new) self.new.gathered.items self.old.text.items self.new.text.items) }
    {
        let steps = repeat_step(sheet, u16::from_be_bytes(*operands));
        stepped(at, steps).write_to(&mut self.text)
    }

    fn remainder<C: Calls>(&mut self, sheet: &mut C, at: usize) -> Result<(), AllocError>
        ensures kept { C.Calls.setting sheet.new ≡ C.Calls.setting sheet.old }
        ensures acts { OnOk result (Acts (C.Calls.setting sheet.old) (C.Calls.state sheet.old) self.old.gathered.items at 4 [] (C.Calls.state sheet.new) self.new.gathered.items self.old.text.items self.new.text.items) }
    {
        let answer = sheet.remainder(self.gathered.as_slice(), &mut self.terms);
        self.gathered.clear();
        shown(at, Command::Remainder, answer, &self.terms).write_to(&mut self.text)
    }

    fn row<C: Calls>(&mut self, sheet: &C, operands: &[u8; 1], at: usize) -> Result<(), AllocError>
        ensures acts { OnOk result (Acts (C.Calls.setting sheet.now) (C.Calls.state sheet.now) self.old.gathered.items at 5 operands.now (C.Calls.state sheet.now) self.new.gathered.items self.old.text.items self.new.text.items) }
    {
        let answer = sheet.row(usize::from(operands[0]), &mut self.terms);
        shown(at, Command::Row(operands), answer, &self.terms).write_to(&mut self.text)
    }

    fn fair_copy<C: Calls>(&mut self, sheet: &mut C, at: usize) -> Result<(), AllocError>
        ensures kept { C.Calls.setting sheet.new ≡ C.Calls.setting sheet.old }
        ensures acts { OnOk result (Acts (C.Calls.setting sheet.old) (C.Calls.state sheet.old) self.old.gathered.items at 6 [] (C.Calls.state sheet.new) self.new.gathered.items self.old.text.items self.new.text.items) }
    {
        let answer = sheet.fair_copy(&mut self.bytes);
        copied(at, answer, &self.bytes).write_to(&mut self.text)
    }

    fn verdict<C: Calls>(&mut self, sheet: &C, at: usize) -> Result<(), AllocError>
        ensures acts { OnOk result (Acts (C.Calls.setting sheet.now) (C.Calls.state sheet.now) self.old.gathered.items at 7 [] (C.Calls.state sheet.now) self.new.gathered.items self.old.text.items self.new.text.items) }
    {
        let answer = sheet.verdict().map(|verdict| verdict.number());
        answered(at, Command::Verdict, answer).write_to(&mut self.text)
    }

    // What the command at that offset comes to. The sheet and the offset go on side by side: nothing is true of the two
    // together, and each command takes them apart.
    fn act<C: Calls>(
        &mut self,
        sheet: &mut C,
        command: Command<'_>,
        at: usize,
    ) -> Result<(), AllocError>
        ensures kept { C.Calls.setting sheet.new ≡ C.Calls.setting sheet.old }
        ensures acts { OnOk result (0 < byte_of command.entry → Acts (C.Calls.setting sheet.old) (C.Calls.state sheet.old) self.old.gathered.items at (byte_of command.entry) (operands_of command.entry) (C.Calls.state sheet.new) self.new.gathered.items self.old.text.items self.new.text.items) }
    {
        match command {
            // It was refused where it was read.
            Command::Sheet(_) => Ok(()),
            Command::Term(operands) => self.gather(operands),
            Command::Add => self.add(sheet, at),
            Command::Steps(operands) => self.steps(sheet, operands, at),
            Command::Remainder => self.remainder(sheet, at),
            Command::Row(operands) => self.row(sheet, operands, at),
            Command::FairCopy => self.fair_copy(sheet, at),
            Command::Verdict => self.verdict(sheet, at),
        }
    }

    // Carries out the commands, of which the first stands behind the sheet command.
    fn play<C: Calls>(&mut self, sheet: &mut C, input: &[u8]) -> Result<(), AllocError>
        ensures { OnOk result (self.old.gathered.items ≡ [] → Ran (C.Calls.setting sheet.old) (C.Calls.state sheet.old) [] 7 input.now (C.Calls.state sheet.new) self.old.text.items self.new.text.items) }
    {
        let mut rest = input;
        loop {
            let at = SHEET_BYTES + (input.len() - rest.len());
            match next_call(rest) {
                Ok(None) => return Ok(()),
                Ok(Some((command, behind))) => {
                    self.act(sheet, command, at)?;
                    rest = behind;
                }
                Err(stop) => return refused(at, stop).write_to(&mut self.text),
            }
        }
    }
}

// The line of the making, and what the commands behind it write, on a new sheet.
pub(crate) fn run<C: Calls>(
    heap: Global,
    sheet: &mut C,
    input: &[u8],
) -> Result<Vec<u8>, AllocError>
    ensures { IfOk result (λ text. C.Calls.state sheet.old ≡ empty → Starts input.now (granted (C.Calls.setting sheet.old)) text.items) }
{
    let mut replay = Replay::new(heap);
    made().write_to(&mut replay.text)?;
    replay.play(sheet, input)?;
    let Replay { text, .. } = replay;
    Ok(text)
}
