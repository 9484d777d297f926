// The six calls of a sheet.
ghost use Rattle.reduction.specs.Table.{setting as setting_of};
ghost use Rattle.sheet.specs.Marks.{rows_of, state_of};

use crate::copy::write_fair_copy;
use crate::put::put;
use crate::refusal::refusal_of;
use crate::sheet::Sheet;
use crate::unit::leads_with_one;
use calls::answer::{Copied, Step, Verdict};
use calls::calls::Calls;
use calls::refusal::Refusal;
use field::Field;
use monomial::division::Division;
use monomial::order::Order;
use polynomial::term::Term;
use reduction::rows::Rows;

impl<F: Field, O: Order, D: Division> Calls for Sheet<F, O, D> {
    ghost setting = { λ x. setting_of (F.Field.meaning x.ring.field) (O.Order.meaning x.ring.order) (D.Division.meaning x.division) x.ring.variables };

    ghost state = { λ x. state_of x.table.rows.items (rows_of x.marks) };

    ghost lawful = { λ x. record { field = F.Field.laws x.ring.field; order = O.Order.laws x.ring.order; division = D.Division.laws x.division; variables = (x.some, x.few) } };

    ghost sound = { λ x. x.sound };

    // The sheet's own method of this name does it.
    fn add(&mut self, f: &[Term]) -> Result<usize, Refusal> {
        self.add(f)
    }

    // Treats the smallest unmarked pair, where there is one.
    fn step(&mut self) -> Result<Step, Refusal> {
        match self.choose() {
            None => Ok(Step::Closed),
            Some(at) => self.treat(at),
        }
    }

    // The remainder of a polynomial, on a closed sheet.
    fn remainder(&mut self, f: &[Term], out: &mut [Term]) -> Result<usize, Refusal> {
        self.check_closed()?;
        let rows = Rows {
            ring: &self.ring,
            division: &self.division,
            rows: self.table.rows.as_slice(),
        };
        rows.reduce(f, &mut self.work).map_err(refusal_of)?;
        put(self.work.done.terms.as_slice(), out)
    }

    // One row.
    fn row(&self, number: usize, out: &mut [Term]) -> Result<usize, Refusal> {
        if number == 0 || number > self.table.rows.len() {
            return Err(Refusal::NoRow(number));
        }
        put(self.table.rows[number - 1].terms.as_slice(), out)
    }

    // The bytes of the fair copy of a closed sheet.
    fn fair_copy(&mut self, out: &mut [u8]) -> Result<Copied, Refusal> {
        self.check_closed()?;
        let rows = Rows {
            ring: &self.ring,
            division: &self.division,
            rows: self.table.rows.as_slice(),
        };
        write_fair_copy(&rows, &mut self.work, &mut self.copy, out)
    }

    // Impossible where 1 lies in the ideal: then a row of a closed sheet leads with 1.
    fn verdict(&self) -> Result<Verdict, Refusal> {
        self.check_closed()?;
        if leads_with_one(self.table.rows.as_slice()) {
            Ok(Verdict::Impossible)
        } else {
            Ok(Verdict::Possible)
        }
    }
}
