// The six calls of a sheet, by what they mean.
ghost use Rattle.std.specs.Prelude.{◌≡◌, ◌≤◌, length, MatchResult, OnErr};
ghost use Rattle.involutive.specs.Sheet.{Setting, Lawful, State};
ghost use Rattle.involutive.specs.Answers.{Adds, Steps, Remains, Shows, FairCopies, Judges};
ghost use Rattle.involutive.specs.Log as log_of;
ghost use Rattle.involutive.specs.Once.{OneAnswer};
ghost use Rattle.involutive.specs.Sound.{Sound};
ghost use Rattle.calls.specs.Logs.{LoggedAdd, Logged};
ghost use Rattle.calls.specs.Told.{added, stepped, wrote, copied, judged};

use crate::answer::{Copied, Step, Verdict};
use crate::refusal::Refusal;
use polynomial::term::Term;

// Each call promises, on every value, the answer, the state and the buffer that the definitions give, and that the setting stays.
// What follows from the answer and is asked for most stands in clauses of its own: that a refused call leaves the state and the lent
// buffer as they were, and that the call enters the log. What a sheet is made of keeps its laws, and its state is sound: both hold of
// every value of the type.
pub trait Calls {
    // What the sheet is made of, and what it holds.
    ghost setting: { Self → Setting };

    ghost state: { Self → State };

    fn add(&mut self, f: &[Term]) -> Result<usize, Refusal>
        ensures kept { setting self.new ≡ setting self.old }
        ensures refused { OnErr result (state self.new ≡ state self.old) }
        ensures answer { Adds (setting self.old) (state self.old) f.now (added result) (state self.new) }
        ensures logged { LoggedAdd (setting self.old) (log_of.add f.now) f.now (added result) (state self.old) (state self.new) };

    fn step(&mut self) -> Result<Step, Refusal>
        ensures kept { setting self.new ≡ setting self.old }
        ensures refused { OnErr result (state self.new ≡ state self.old) }
        ensures answer { Steps (setting self.old) (state self.old) (stepped result) (state self.new) }
        ensures logged { Logged (setting self.old) log_of.step (state self.old) (state self.new) };

    fn remainder(&mut self, f: &[Term], out: &mut [Term]) -> Result<usize, Refusal>
        ensures kept { setting self.new ≡ setting self.old }
        ensures same { state self.new ≡ state self.old }
        ensures within { MatchResult result (λ n. n ≤ length out.old) (λ _. out.new ≡ out.old) }
        ensures answer { Remains (setting self.old) (state self.old) f.now out.old (wrote result) out.new }
        ensures logged { Logged (setting self.old) (log_of.remainder f.now out.old) (state self.old) (state self.new) };

    fn row(&self, number: usize, out: &mut [Term]) -> Result<usize, Refusal>
        ensures within { MatchResult result (λ n. n ≤ length out.old) (λ _. out.new ≡ out.old) }
        ensures answer { Shows (setting self.now) (state self.now) number out.old (wrote result) out.new }
        ensures logged { Logged (setting self.now) (log_of.show_row number out.old) (state self.now) (state self.now) };

    fn fair_copy(&mut self, out: &mut [u8]) -> Result<Copied, Refusal>
        ensures kept { setting self.new ≡ setting self.old }
        ensures same { state self.new ≡ state self.old }
        ensures within { MatchResult result (λ c. c.bytes ≤ length out.old) (λ _. out.new ≡ out.old) }
        ensures answer { FairCopies (setting self.old) (state self.old) out.old (copied result) out.new }
        ensures logged { Logged (setting self.old) (log_of.fair_copy out.old) (state self.old) (state self.new) };

    fn verdict(&self) -> Result<Verdict, Refusal>
        ensures answer { Judges (setting self.now) (state self.now) (judged result) }
        ensures logged { Logged (setting self.now) log_of.verdict (state self.now) (state self.now) };

    ghost lawful: { (x : Self) → Lawful (setting x) };

    ghost sound: { (x : Self) → ∥ Sound (setting x) (state x) ∥₁ };
}

// For each call on any sheet the definitions allow one answer at most, and one state and one buffer after it; so the clause
// `answer` leaves a call no choice. There is nothing to run.
pub fn one_answer<C: Calls>(sheet: &C)
    ensures { OneAnswer (C.Calls.setting sheet.now) (C.Calls.state sheet.now) }
{
    let _ = sheet;
}
