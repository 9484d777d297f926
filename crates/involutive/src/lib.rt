// Involutive tables: what sheets, their calls and their logs mean, and what holds of them.
//
// There is no code to run here. The definitions stand in specs/, in this order of reading:
//
//   Value      what a list of terms stands for
//   Ideal      the ideal of a list of polynomials
//   Reduction  reducing a polynomial by a table
//   Sheet      the rows and the marks of a sheet, its pairs, and when it is closed
//   Answers    what each call answers and leaves
//   Log        the calls on a sheet
//   Sound      what holds of every sheet that calls have made
//   Once       one answer to each call
//   Complete   the main theorem
//   Facts      worked cases
//   Examples   sheets that exist
//
// Each theorem is the contract of a function below, which answers 0; nobody needs to call it.
#![tactic(auto)]

ghost use Rattle.involutive.specs.Once.{OneAnswerEach, OneState};
ghost use Rattle.involutive.specs.Sound.{SoundnessKept};
ghost use Rattle.involutive.specs.Complete.{CompleteTables, Verdict};
ghost use Rattle.involutive.specs.Facts.{FactsHold};
ghost use Rattle.involutive.specs.Examples.{NotEmpty};

// On a sound sheet each call has at most one answer, and leaves one state and one buffer; it is enough that a proof of
// soundness exists.
pub fn one_answer() -> u8
    ensures { OneAnswerEach }
{
    0
}

// A log determines the state of the sheet and the accepted generators.
pub fn one_state() -> u8
    ensures { OneState }
{
    0
}

// Every log leaves a sound sheet.
pub fn soundness_kept() -> u8
    ensures { SoundnessKept }
{
    0
}

// The main theorem, for every lawful field, order and division and every log: the rows have the ideal of the
// accepted generators; on a closed sheet remainders decide membership and respect sums and products; and equal
// fair copies, whatever the divisions, are the same as equal ideals.
pub fn complete_tables() -> u8
    ensures { CompleteTables }
{
    0
}

// On a sound closed sheet 1 lies in the ideal exactly when a row has the leading monomial 1.
pub fn verdict() -> u8
    ensures { Verdict }
{
    0
}

// The worked cases come out as listed.
pub fn facts_hold() -> u8
    ensures { FactsHold }
{
    0
}

// The theorems speak of something: there are closed sheets with proper ideals, with remainders that differ and remainders
// that agree; fair copies that agree, under two divisions and under one; and two fair copies of two ideals.
pub fn not_empty() -> u8
    ensures { NotEmpty }
{
    0
}
