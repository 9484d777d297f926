// Adding up two lists of terms in falling order, of which one is a multiple that is made term by term on the way.
//
// The contracts here say what the code does on every value; that the sum is written and has the right value is shown
// of them once, for subtracting.
ghost use Rattle.std.specs.Prelude.{◌≡◌, ℕ, ◌+◌, ◌<◌, ◌≤◌, ◌∷◌, ◌++◌, length, map, MatchOption, MatchResult};
ghost use Rattle.polynomial.specs.Polynomial.{Poly, term as joined, exponents as exponents_of};
ghost use Rattle.reduction.specs.Merging.{image as imaged, code_sum, capped_product, small_product, all_small, Sums, Placed, Meets};

use crate::buffer::{Buffer, NoRoom};
use crate::room::Room;
use field::Field;
use monomial::Monomial;
use monomial::order::Order;
use polynomial::check::LARGEST_EXPONENT;
use polynomial::ring::Ring;
use polynomial::term::Term;
use std::array::from_fn;
use std::cmp::Ordering;

// The product of two monomials. An exponent above 255 becomes 255: no multiple that is kept has one above 40. A function
// over the operation, for this and `quotient`, would take more lines than the two.
fn multiply(a: &Monomial, b: &Monomial) -> Monomial
    ensures { result.exponents ≡ capped_product a.now.exponents b.now.exponents }
{
    Monomial {
        exponents: from_fn(|i| a.exponents[i].saturating_add(b.exponents[i])),
    }
}

// The factor times a term.
pub(crate) fn image<F: Field>(field: &F, factor: &Term, term: &Term) -> Term
    ensures { result ≡ imaged (F.Field.meaning field.now) factor.now.coefficient (exponents_of factor.now) term.now }
{
    Term {
        coefficient: field.mul(factor.coefficient, term.coefficient).unwrap_or(0),
        monomial: multiply(&factor.monomial, &term.monomial),
    }
}

// Whether no exponent of the product is above 40.
fn is_small(a: &Monomial, b: &Monomial) -> bool
    ensures { result ≡ small_product a.now.exponents b.now.exponents }
{
    a.exponents
        .iter()
        .zip(&b.exponents)
        .all(|(x, y)| x.saturating_add(*y) <= LARGEST_EXPONENT)
}

// Whether no exponent of the multiple is above 40.
pub(crate) fn fits(shift: &Monomial, terms: &[Term]) -> bool
    ensures { result ≡ all_small shift.now.exponents terms.now }
{
    terms.iter().all(|term| is_small(shift, &term.monomial))
}

// The place of the term with the other's monomial, or where the terms above it end, if there is none. One comparison of
// each term tells both: `position`, and then a second comparison, took 7 in a hundred more time in all completions
// together (5371 µs for 5010 µs). A search by halves would say something of falling lists only.
fn find_place<O: Order>(order: &O, terms: &[Term], other: &Term) -> Result<usize, usize>
    ensures { Placed (O.Order.meaning order.now) other.now terms.now result }
{
    for (at, term) in terms.iter().enumerate() {
        match order.compare(&term.monomial, &other.monomial) {
            Ordering::Greater => {}
            Ordering::Equal => return Ok(at),
            Ordering::Less => return Err(at),
        }
    }
    Err(terms.len())
}

// The sum of two terms with one monomial, or nothing where they cancel.
fn join<F: Field>(field: &F, term: &Term, other: &Term) -> Option<Term>
    ensures { MatchOption result (code_sum (F.Field.meaning field.now) term.now.coefficient other.now.coefficient ≡ 0) (λ sum. (0 < code_sum (F.Field.meaning field.now) term.now.coefficient other.now.coefficient) × (sum ≡ joined (code_sum (F.Field.meaning field.now) term.now.coefficient other.now.coefficient) (exponents_of term.now))) }
{
    match field.add(term.coefficient, other.coefficient).unwrap_or(0) {
        0 => None,
        coefficient => Some(Term {
            coefficient,
            monomial: term.monomial,
        }),
    }
}

// One term of the multiple: the terms above it go out, and then it, or its sum with the term that has its monomial. What
// is left of the terms is handed back.
fn meet<'a, F: Field, O: Order>(
    ring: &Ring<F, O>,
    terms: &'a [Term],
    other: &Term,
    room: Room,
    out: &mut Buffer,
) -> Result<&'a [Term], NoRoom>
    ensures { MatchResult result (λ rest. (part : Poly) × (out.new.terms.items ≡ out.old.terms.items ++ part) × Meets (F.Field.meaning ring.now.field) (O.Order.meaning ring.now.order) other.now terms.now part rest.now) (λ _. (f : Poly) → (g : Poly) × Sums (F.Field.meaning ring.now.field) (O.Order.meaning ring.now.order) terms.now (other.now ∷ f) g × (room.terms < length out.old.terms.items + length g)) }
{
    match find_place(&ring.order, terms, other) {
        Ok(at) => {
            out.extend(&terms[..at], room)?;
            if let Some(sum) = join(&ring.field, &terms[at], other) {
                out.push(sum, room)?;
            }
            Ok(&terms[at + 1..])
        }
        Err(at) => {
            out.extend(&terms[..at], room)?;
            out.push(*other, room)?;
            Ok(&terms[at..])
        }
    }
}

// Adds the factor times a row to the terms, where there is room for the sum.
pub(crate) fn add_multiple<F: Field, O: Order>(
    ring: &Ring<F, O>,
    terms: &[Term],
    row: &[Term],
    factor: &Term,
    room: Room,
    out: &mut Buffer,
) -> Result<(), NoRoom>
    ensures { MatchResult result (λ _. Sums (F.Field.meaning ring.now.field) (O.Order.meaning ring.now.order) terms.now (map (imaged (F.Field.meaning ring.now.field) factor.now.coefficient (exponents_of factor.now)) row.now) out.new.terms.items × (length out.new.terms.items ≤ room.terms)) (λ _. (g : Poly) × Sums (F.Field.meaning ring.now.field) (O.Order.meaning ring.now.order) terms.now (map (imaged (F.Field.meaning ring.now.field) factor.now.coefficient (exponents_of factor.now)) row.now) g × (room.terms < length g)) }
{
    out.clear();
    let mut rest = terms;
    for term in row {
        rest = meet(ring, rest, &image(&ring.field, factor, term), room, out)?;
    }
    out.extend(rest, room)
}
