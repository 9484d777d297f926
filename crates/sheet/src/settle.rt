// What the rows of a sheet leave of a polynomial becomes a row: what add and step have in common.
ghost use Rattle.std.specs.Prelude.{◌≡◌, ◌<◌, length};
ghost use Rattle.polynomial.specs.Polynomial.{leading};
ghost use Rattle.reduction.specs.Table.{setting, table_of};
ghost use Rattle.sheet.specs.Marks.{rows_of, state_of};
ghost use Rattle.sheet.specs.Settling.{Left, Settles, UnlessAppended};

use crate::marks::Marks;
use crate::sheet::Sheet;
use calls::refusal::Refusal;
use field::Field;
use monomial::Monomial;
use monomial::division::Division;
use monomial::order::Order;
use polynomial::term::Term;

// What became of what was left of a polynomial.
#[derive(Clone, Copy, PartialEq, Eq, Debug)]
pub(crate) enum Settled {
    // Nothing was left.
    Nothing,
    // It is the last row now.
    Appended,
}

// The leading monomial of a polynomial that has one.
fn leader(f: &[Term]) -> Monomial
    requires { 0 < length f.now }
    ensures { result.exponents ≡ leading f.now }
{
    f[0].monomial
}

impl<F: Field, O: Order, D: Division> Sheet<F, O, D> {
    // Appends what `work.done` holds, which the rows left of a polynomial, where that is anything. A new row clears all marks
    // and joins the queue.
    #[tactic(auto, using(crate::proofs::Settlings::settle_nothing))]
    pub(crate) fn settle(&mut self) -> Result<Settled, Refusal>
        requires { Left (setting (F.Field.meaning self.old.ring.field) (O.Order.meaning self.old.ring.order) (D.Division.meaning self.old.division) self.old.ring.variables) (table_of self.old.table.rows.items) self.old.work.done.terms.items }
        ensures setting { (self.new.ring ≡ self.old.ring) × (self.new.division ≡ self.old.division) }
        ensures kept { UnlessAppended result ((self.new.table.rows.items ≡ self.old.table.rows.items) × (self.new.marks ≡ self.old.marks)) }
        ensures queue { UnlessAppended result (self.new.queue ≡ self.old.queue) }
        ensures settles { Settles (setting (F.Field.meaning self.old.ring.field) (O.Order.meaning self.old.ring.order) (D.Division.meaning self.old.division) self.old.ring.variables) (state_of self.old.table.rows.items (rows_of self.old.marks)) self.old.work.done.terms.items result (state_of self.new.table.rows.items (rows_of self.new.marks)) }
    {
        let done = &self.work.done;
        let left = done.terms.as_slice();
        if left.is_empty() {
            return Ok(Settled::Nothing);
        }
        let lead = leader(left);
        self.table.append(&self.ring.field, &self.division, left)?;
        self.marks = Marks::none();
        let row = self.table.rows.len();
        self.queue
            .push_row(&self.ring.order, self.ring.variables, row, &lead);
        Ok(Settled::Appended)
    }
}
