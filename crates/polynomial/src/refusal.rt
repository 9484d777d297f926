ghost use Rattle.std.specs.Prelude.{◌≡◌, Some as the};
ghost use Rattle.polynomial.specs.Check.{number as number_of, place as place_of};
ghost use Rattle.polynomial.specs.Words.{refusal_text};

use std::error::Error;
use std::fmt;

// Why a polynomial that is handed over is refused; a term is named by its number, from 1.
#[derive(Clone, Copy, PartialEq, Eq, Debug)]
pub enum Refusal {
    // It has more than 40 terms.
    TooManyTerms,
    // The coefficient is 0, or no code of the field.
    Coefficient(usize),
    // An exponent is above 40, or that of a variable above n is not 0.
    Exponent(usize),
    // The term is not smaller than the one before it.
    NotFalling(usize),
}

impl Refusal {
    // The number by which the formats name the refusal.
    pub fn number(&self) -> u8
        ensures { result ≡ number_of self.now }
    {
        match self {
            Refusal::TooManyTerms => 5,
            Refusal::Coefficient(_) => 6,
            Refusal::Exponent(_) => 7,
            Refusal::NotFalling(_) => 8,
        }
    }

    // The number of the refused term, and 0 where the whole polynomial is refused.
    pub fn place(&self) -> usize
        ensures { result ≡ place_of self.now }
    {
        match self {
            Refusal::TooManyTerms => 0,
            Refusal::Coefficient(term) => *term,
            Refusal::Exponent(term) => *term,
            Refusal::NotFalling(term) => *term,
        }
    }

    // What is wrong, in words.
    pub fn describe(&self) -> &'static str
        ensures { result.now ≡ refusal_text self.now }
    {
        match self {
            Refusal::TooManyTerms => "more than 40 terms",
            Refusal::Coefficient(_) => "coefficient is 0 or no code",
            Refusal::Exponent(_) => "exponent out of range",
            Refusal::NotFalling(_) => "term does not fall",
        }
    }
}

impl fmt::Display for Refusal {
    ghost output = { λ refusal. the (refusal_text refusal) };

    fn fmt<W: fmt::Write>(&self, f: &mut fmt::Formatter<W>) -> fmt::Result {
        f.write_str(self.describe())
    }
}

impl Error for Refusal {}
