// Multiplying a polynomial by a coefficient and a monomial.
ghost use Rattle.std.specs.Prelude.{◌≡◌, ℕ, ◌<◌, length, MatchResult};
ghost use Rattle.polynomial.specs.Polynomial.{Over, exponents as exponents_of};
ghost use Rattle.polynomial.specs.Check.{Fits};
ghost use Rattle.involutive.specs.Value.{scaled};
ghost use Rattle.reduction.specs.Merging.{Multiplies};
ghost use Rattle.reduction.specs.Subtraction.{Unscaled};

use crate::buffer::Buffer;
use crate::merge::{fits, image};
use crate::refusal::Reason;
use crate::room::Room;
use field::Field;
use polynomial::check::MOST_TERMS;
use polynomial::term::Term;

// The factor times the terms into the buffer, unless the terms are more than 40 or else an exponent of the product is
// above 40; then nothing changes.
pub fn scale<F: Field>(
    field: &F,
    terms: &[Term],
    factor: &Term,
    out: &mut Buffer,
) -> Result<(), Reason>
    ensures all { MatchResult result (λ _. length out.new.terms.items ≡ length terms.now) (λ _. out.new.terms.items ≡ out.old.terms.items) }
    ensures exact { Multiplies (F.Field.meaning field.now) factor.now.coefficient (exponents_of factor.now)
        terms.now out.old.terms.items result out.new.terms.items }
    ensures value { (n : ℕ) → Over (F.Field.meaning field.now) n terms.now → factor.now.coefficient < (F.Field.meaning field.now).q → MatchResult result (λ _. Fits (scaled (F.Field.meaning field.now) factor.now.coefficient (exponents_of factor.now) terms.now) × (out.new.terms.items ≡ scaled (F.Field.meaning field.now) factor.now.coefficient (exponents_of factor.now) terms.now)) (Unscaled terms.now (scaled (F.Field.meaning field.now) factor.now.coefficient (exponents_of factor.now) terms.now)) }
{
    if terms.len() > MOST_TERMS {
        return Err(Reason::Long);
    }
    if !fits(&factor.monomial, terms) {
        return Err(Reason::Wide);
    }
    out.clear();
    for term in terms {
        // There is room, since the terms are at most 40.
        let _ = out.push(image(field, factor, term), Room::ALL);
    }
    Ok(())
}
