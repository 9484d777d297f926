// Appending a row.
ghost use Rattle.std.specs.Prelude.{◌≡◌, ℕ, ◌<◌, ◌≤◌, length, IfOk, OnErr, vec_len, MatchResult};
ghost use Rattle.monomial.specs.Monomial.{one};
ghost use Rattle.polynomial.specs.Polynomial.{Over, leading, leading_coefficient};
ghost use Rattle.polynomial.specs.Check.{Fits, most_terms};
ghost use Rattle.involutive.specs.Value.{scaled};
ghost use Rattle.involutive.specs.Sheet.{most_rows};
ghost use Rattle.calls.specs.declared.refusal.Refusal.TheVariants.{Full};
ghost use Rattle.reduction.specs.Table.{terms_of};
ghost use Rattle.sheet.specs.Rows.{lead_of, Appended};

use crate::flags::refresh;
use crate::table::Table;
use calls::refusal::Refusal;
use field::Field;
use monomial::division::Division;
use monomial::{Monomial, WIDTH};
use polynomial::term::Term;
use reduction::buffer::Buffer;
use reduction::scale::scale;
use reduction::table::{Lead, Row};

// The polynomial divided by its leading coefficient, as a row in the buffer's memory; or the buffer, where an exponent is
// above 40.
fn make_row<F: Field>(field: &F, g: &[Term], buffer: Buffer) -> Result<Row, Buffer>
    requires { (0 < length g.now) × (length g.now ≤ most_terms) }
    ensures lead { IfOk result (λ row. lead_of row ≡ leading g.now) }
    ensures terms { (n : ℕ) → Over (F.Field.meaning field.now) n g.now → 0 < leading_coefficient g.now → MatchResult result (λ row. terms_of row ≡ scaled (F.Field.meaning field.now) ((F.Field.meaning field.now).inv (leading_coefficient g.now)) one g.now) (λ _. Fits (scaled (F.Field.meaning field.now) ((F.Field.meaning field.now).inv (leading_coefficient g.now)) one g.now) → ⊥) }
{
    let mut filled = buffer;
    let first = g[0];
    let inverse = Term {
        coefficient: field.inv(first.coefficient).unwrap_or(0),
        monomial: Monomial::ONE,
    };
    // By a test, since what goes back on a refusal is the buffer and not the reason.
    if scale(field, g, &inverse, &mut filled).is_err() {
        return Err(filled);
    }
    Ok(Row {
        terms: filled.terms,
        lead: Lead {
            monomial: first.monomial,
            multiplicative: [false; WIDTH],
        },
    })
}

impl Table {
    // One row more, where there are fewer than 32: the polynomial divided by its leading coefficient. Then every row's
    // variables are asked anew. Where an exponent is above 40, or there are 32 rows, nothing changes.
    pub(crate) fn append<F: Field, D: Division>(
        &mut self,
        field: &F,
        division: &D,
        g: &[Term],
    ) -> Result<(), Refusal>
        requires { (0 < length g.now) × (length g.now ≤ most_terms) }
        ensures kept { OnErr result (self.new.rows.items ≡ self.old.rows.items) }
        ensures rows { (n : ℕ) → Over (F.Field.meaning field.now) n g.now → 0 < leading_coefficient g.now → Fits (scaled (F.Field.meaning field.now) ((F.Field.meaning field.now).inv (leading_coefficient g.now)) one g.now) → MatchResult result (λ _. (vec_len self.old.rows < most_rows) × Appended (D.Division.meaning division.now) (scaled (F.Field.meaning field.now) ((F.Field.meaning field.now).inv (leading_coefficient g.now)) one g.now) (leading g.now) self.old.rows.items self.new.rows.items) (λ refusal. (refusal ≡ Full) × (most_rows ≤ vec_len self.old.rows)) }
    {
        let buffer = self.spare.pop().ok_or(Refusal::Full)?;
        match make_row(field, g, buffer) {
            Err(unused) => {
                self.spare.push_reserved(unused);
                Err(Refusal::Full)
            }
            Ok(row) => {
                self.rows.push_reserved(row);
                self.list_leaders();
                refresh(division, self.leaders.as_slice(), self.rows.as_mut_slice());
                Ok(())
            }
        }
    }
}
