// The checks on a polynomial that is handed over: at most 40 terms, then term by term its coefficient, its exponents
// and that the monomials fall.
ghost use Rattle.std.specs.Prelude.{◌≡◌, length, is_ok, Decides};
ghost use Rattle.std.specs.Option.{option_map};
ghost use Rattle.monomial.specs.Monomial.{width};
ghost use Rattle.polynomial.specs.Check.{Acceptable, outcome, fault, term_fault, small_exponents, below_last, is_code};

use crate::refusal::Refusal;
use crate::ring::Ring;
use crate::term::Term;
use field::Field;
use monomial::Monomial;
use monomial::order::Order;

// The most terms of a polynomial that is handed over.
pub const MOST_TERMS: usize = 40;

// The most rows of a table.
pub const MOST_ROWS: usize = 32;

// The largest exponent of a polynomial that is handed over.
pub const LARGEST_EXPONENT: u8 = 40;

impl<F: Field, O: Order> Ring<F, O> {
    // The first check that fails.
    pub fn check(&self, terms: &[Term]) -> Result<(), Refusal>
        ensures first { result ≡ outcome (fault (F.Field.meaning self.now.field) (O.Order.meaning self.now.order) self.now.variables terms.now) }
        ensures accepts { Decides (is_ok result) (Acceptable (F.Field.meaning self.now.field) (O.Order.meaning self.now.order) self.now.variables terms.now) }
    {
        if terms.len() > MOST_TERMS {
            return Err(Refusal::TooManyTerms);
        }
        let mut before = None;
        for (i, term) in terms.iter().enumerate() {
            self.check_term(before, i + 1, term)?;
            before = Some(*term);
        }
        Ok(())
    }

    // The first check that fails at one term, which has that number and stands behind the term before.
    fn check_term(&self, before: Option<Term>, number: usize, term: &Term) -> Result<(), Refusal>
        ensures { result ≡ outcome (term_fault (F.Field.meaning self.now.field) (O.Order.meaning self.now.order) self.now.variables before number term.now) }
    {
        if !self.has_code(term.coefficient) {
            return Err(Refusal::Coefficient(number));
        }
        if !has_small_exponents(self.variables, &term.monomial) {
            return Err(Refusal::Exponent(number));
        }
        if !self.is_below(before, term) {
            return Err(Refusal::NotFalling(number));
        }
        Ok(())
    }

    // Whether the coefficient is a code of the field other than 0.
    fn has_code(&self, coefficient: u16) -> bool
        ensures { result ≡ is_code (F.Field.meaning self.now.field) coefficient }
    {
        coefficient > 0 && coefficient < self.field.size()
    }

    // Whether the term stands below the one before it.
    fn is_below(&self, before: Option<Term>, term: &Term) -> bool
        ensures { result ≡ below_last (O.Order.meaning self.now.order) before term.now }
    {
        before.is_none_or(|last| self.order.compare(&term.monomial, &last.monomial).is_lt())
    }
}

// Whether each exponent is at most 40, and that of a variable above n is 0.
fn has_small_exponents(variables: usize, monomial: &Monomial) -> bool
    ensures small { result ≡ small_exponents variables monomial.now.exponents }
    ensures wide { length monomial.now.exponents ≡ width }
{
    monomial.exponents.iter().enumerate().all(|(i, exponent)| {
        let most = if i < variables { LARGEST_EXPONENT } else { 0 };
        *exponent <= most
    })
}
