// Why a call on a sheet is denied.
ghost use Rattle.std.specs.Prelude.{◌≡◌};
ghost use Rattle.calls.specs.Told.{told};

use polynomial::refusal::Refusal as Unfit;

#[derive(Clone, Copy, PartialEq, Eq, Debug)]
pub enum Refusal {
    // The polynomial that was handed over fails a check.
    Polynomial(Unfit),
    // An exponent of a multiple of that row is above 40.
    Wide(usize),
    // More than 40 terms are left after a multiple of that row was subtracted.
    Long(usize),
    // There is a remainder, and the table has 32 rows already.
    Full,
    // The sheet is not closed.
    NotClosed,
    // There is no row of that number.
    NoRow(usize),
    // Too few terms or bytes were lent: so many are needed.
    Short(usize),
}

impl Refusal {
    // The number by which the formats name the refusal.
    pub fn number(&self) -> u8
        ensures { result ≡ (told self.now).number }
    {
        match self {
            Refusal::Polynomial(unfit) => unfit.number(),
            Refusal::Wide(_) => 9,
            Refusal::Long(_) => 10,
            Refusal::Full => 11,
            Refusal::NotClosed => 12,
            Refusal::NoRow(_) => 13,
            Refusal::Short(_) => 14,
        }
    }

    // The place that the refusal names.
    pub fn place(&self) -> usize
        ensures { result ≡ (told self.now).place }
    {
        match self {
            Refusal::Polynomial(unfit) => unfit.place(),
            Refusal::Wide(row) => *row,
            Refusal::Long(row) => *row,
            Refusal::Full => 32,
            Refusal::NotClosed => 0,
            Refusal::NoRow(number) => *number,
            Refusal::Short(needed) => *needed,
        }
    }
}
