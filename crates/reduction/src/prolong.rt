// Prolonging: a row times a variable.
ghost use Rattle.std.specs.Prelude.{◌≡◌, length, MatchResult};
ghost use Rattle.monomial.specs.Division.{Within};
ghost use Rattle.monomial.specs.Monomial.{width, variable as power};
ghost use Rattle.polynomial.specs.Check.{Fits};
ghost use Rattle.involutive.specs.Value.{scaled};
ghost use Rattle.involutive.specs.Reduction.{row as line};
ghost use Rattle.reduction.specs.declared.refusal.Reason.TheVariants.{Wide as TooWide};
ghost use Rattle.reduction.specs.Table.{table_of};

use crate::buffer::Buffer;
use crate::refusal::Reason;
use crate::rows::Rows;
use crate::scale::scale;
use field::Field;
use monomial::Monomial;
use monomial::division::Division;
use monomial::order::Order;
use polynomial::term::Term;

// The variable v by itself; it counts from 1. No constant: v is known only when it is asked for. No product either: that has
// an answer for where an exponent does not fit, and 1 always does.
fn variable(v: usize) -> Monomial
    requires { Within v width }
    ensures { result.exponents ≡ power v }
{
    let mut x = Monomial::ONE;
    x.exponents[v - 1] = 1;
    x
}

impl<F: Field, O: Order, D: Division> Rows<'_, F, O, D> {
    // Row k times the variable v into the buffer, where no exponent is above 40.
    pub(crate) fn prolong(&self, k: usize, v: usize, out: &mut Buffer) -> Result<(), Reason>
        requires row { Within k (length self.now.rows.now) }
        requires variable { Within v width }
        ensures { let h = scaled (F.Field.meaning self.now.ring.now.field) 1 (power v) (line (table_of self.now.rows.now) k) in
            MatchResult result (λ _. Fits h × (out.new.terms.items ≡ h))
            (λ reason. (reason ≡ TooWide) × (Fits h → ⊥)) }
    {
        let factor = Term {
            coefficient: 1,
            monomial: variable(v),
        };
        let row = &self.rows[k - 1];
        scale(&self.ring.field, row.terms.as_slice(), &factor, out)
    }
}
