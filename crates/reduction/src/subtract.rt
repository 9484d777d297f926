// Subtracting a multiple of a row: one text for every field and order.
ghost use Rattle.std.specs.Prelude.{◌≡◌, ℕ, ◌<◌};
ghost use Rattle.monomial.specs.Monomial.{In, quotient as divided};
ghost use Rattle.polynomial.specs.Polynomial.{Written, exponents as exponents_of};
ghost use Rattle.involutive.specs.Value.{scaled};
ghost use Rattle.reduction.specs.Subtraction.{Subtracted};

use crate::buffer::Buffer;
use crate::merge::{add_multiple, fits};
use crate::refusal::Reason;
use crate::room::Room;
use field::Field;
use monomial::Monomial;
use monomial::order::Order;
use polynomial::ring::Ring;
use polynomial::term::Term;
use std::array::from_fn;

// m / u, with 0 for each exponent of m that is below u's.
pub(crate) fn quotient(m: &Monomial, u: &Monomial) -> Monomial
    ensures { result.exponents ≡ divided m.now.exponents u.now.exponents }
{
    Monomial {
        exponents: from_fn(|i| m.exponents[i].saturating_sub(u.exponents[i])),
    }
}

// The terms less the factor times a row into the buffer, unless an exponent of the multiple is above 40, or else the
// difference has more terms than there is room for.
pub(crate) fn subtract<F: Field, O: Order>(
    ring: &Ring<F, O>,
    terms: &[Term],
    row: &[Term],
    factor: &Term,
    room: Room,
    out: &mut Buffer,
) -> Result<(), Reason>
    ensures { (n : ℕ) → Written (F.Field.meaning ring.now.field) (O.Order.meaning ring.now.order) n terms.now → Written (F.Field.meaning ring.now.field) (O.Order.meaning ring.now.order) n row.now → 0 < factor.now.coefficient → factor.now.coefficient < (F.Field.meaning ring.now.field).q → In n (exponents_of factor.now) → Subtracted (F.Field.meaning ring.now.field) (O.Order.meaning ring.now.order) n room.terms terms.now (scaled (F.Field.meaning ring.now.field) factor.now.coefficient (exponents_of factor.now) row.now) result out.new.terms.items }
{
    if !fits(&factor.monomial, row) {
        return Err(Reason::Wide);
    }
    let negative = Term {
        coefficient: ring.field.neg(factor.coefficient).unwrap_or(0),
        monomial: factor.monomial,
    };
    add_multiple(ring, terms, row, &negative, room, out)?;
    Ok(())
}
