// Why reducing is refused.
ghost use Rattle.std.specs.Prelude.{◌≡◌};
ghost use Rattle.involutive.specs.Reduction.{refuse};
ghost use Rattle.reduction.specs.Reducing.{number as number_of, told};
ghost use Rattle.reduction.specs.declared.refusal.Reason.TheVariants.{Long as TooLong};

use crate::buffer::NoRoom;
use polynomial::refusal::Refusal as Unfit;

// Why a multiple is not made, or the difference with it not kept.
#[derive(Clone, Copy, PartialEq, Eq, Debug)]
pub enum Reason {
    // An exponent of the multiple is above 40.
    Wide,
    // The polynomial has more terms than there is room for.
    Long,
}

impl Reason {
    // The number by which the formats name the refusal.
    pub fn number(&self) -> u8
        ensures { result ≡ number_of self.now }
    {
        match self {
            Reason::Wide => 9,
            Reason::Long => 10,
        }
    }

    // The refusal of what was tried with that row.
    pub(crate) fn at_row(self, row: usize) -> Denied
        ensures { told result ≡ refuse (number_of self) row }
    {
        match self {
            Reason::Wide => Denied::Wide(row),
            Reason::Long => Denied::Long(row),
        }
    }
}

impl From<NoRoom> for Reason {
    ghost from_gives = { λ _ reason. reason ≡ TooLong };

    fn from(_: NoRoom) -> Reason {
        Reason::Long
    }
}

// Why a polynomial is not reduced. Rows are named by their numbers, from 1.
#[derive(Clone, Copy, PartialEq, Eq, Debug)]
pub enum Denied {
    // It fails a check.
    Polynomial(Unfit),
    // An exponent of a multiple of that row is above 40.
    Wide(usize),
    // More terms than there is room for are left after a multiple of that row was subtracted.
    Long(usize),
}
