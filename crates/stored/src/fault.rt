// What is wrong with a stored table.
ghost use Rattle.std.specs.Prelude.{◌≡◌, Some as the, codes};
ghost use Rattle.choice.specs.declared.unnamed.Unnamed.{Unnamed};
ghost use Rattle.stored.specs.declared.fault.Fault.TheVariants.{Memory};
ghost use Rattle.stored.specs.declared.fault.Reason.TheVariants.{Refused};
ghost use Rattle.stored.specs.Faults.{fault_text, reason_text, unnamed_fault};

use choice::unnamed::Unnamed;
use polynomial::refusal::Refusal;
use std::alloc::{AllocError, AllocFailed};
use std::error::Error;
use std::fmt;

#[derive(Clone, Copy, PartialEq, Eq, Debug)]
pub enum Reason {
    // The file does not open with a whole sheet command.
    NoSheet,
    // An operand of the sheet command names nothing.
    Unnamed(Unnamed),
    // The file ends inside a term.
    CutTerm,
    // The file ends inside a record.
    OpenRecord,
    // A byte that is neither a term's nor the end of a record.
    OtherByte,
    // There are more than 32 rows.
    TooManyRows,
    // The polynomial of a record is refused.
    Refused(Refusal),
    // The polynomial is zero.
    Zero,
    // The leading coefficient is not 1.
    NotMonic,
    // An earlier row has the same leading monomial.
    Repeated,
}

#[derive(Clone, Copy, PartialEq, Eq, Debug)]
pub enum Fault {
    // What is wrong, and at which offset.
    Bad(Reason, usize),
    // There is no memory to read or to show the table.
    Memory,
}

impl From<Refusal> for Reason {
    ghost from_gives = { λ refusal reason. reason ≡ Refused refusal };

    fn from(refusal: Refusal) -> Reason {
        Reason::Refused(refusal)
    }
}

// The offset is that of the first operand by which the missing thing is named.
impl From<Unnamed> for Fault {
    ghost from_gives = { λ unnamed fault. fault ≡ unnamed_fault unnamed };

    fn from(unnamed: Unnamed) -> Fault {
        let offset = match unnamed {
            Unnamed::Field => 1,
            Unnamed::Variables => 4,
            Unnamed::Order => 5,
            Unnamed::Division => 6,
        };
        Fault::Bad(Reason::Unnamed(unnamed), offset)
    }
}

impl<T: Drop> From<AllocFailed<T>> for Fault {
    ghost from_gives = { λ _ fault. fault ≡ Memory };

    fn from(_failed: AllocFailed<T>) -> Fault {
        Fault::Memory
    }
}

impl From<AllocError> for Fault {
    ghost from_gives = { λ _ fault. fault ≡ Memory };

    fn from(_error: AllocError) -> Fault {
        Fault::Memory
    }
}

impl Reason {
    // What is wrong, in words.
    pub fn describe(&self) -> &'static str
        ensures { result.now ≡ reason_text self.now }
    {
        match self {
            Reason::NoSheet => "no whole sheet command",
            Reason::Unnamed(unnamed) => unnamed.describe(),
            Reason::CutTerm => "file ends inside a term",
            Reason::OpenRecord => "file ends inside a record",
            Reason::OtherByte => "neither 01 nor 02",
            Reason::TooManyRows => "more than 32 rows",
            Reason::Refused(refusal) => refusal.describe(),
            Reason::Zero => "row without terms",
            Reason::NotMonic => "leading coefficient is not 1",
            Reason::Repeated => "leading monomial of an earlier row",
        }
    }
}

impl fmt::Display for Reason {
    ghost output = { λ reason. the (reason_text reason) };

    fn fmt<W: fmt::Write>(&self, f: &mut fmt::Formatter<W>) -> fmt::Result {
        f.write_str(self.describe())
    }
}

impl fmt::Display for Fault {
    ghost output = { λ fault. the (fault_text fault) };

    fn fmt<W: fmt::Write>(&self, f: &mut fmt::Formatter<W>) -> fmt::Result {
        match self {
            Fault::Bad(reason, offset) => write!(f, "{reason}, at offset {offset}"),
            Fault::Memory => write!(f, "no memory for the table"),
        }
    }
}

impl Error for Fault {}
