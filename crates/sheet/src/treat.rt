// Treating a pair: what a step does with the pair that it takes.
ghost use Rattle.std.specs.Prelude.{◌≡◌, OnErr};
ghost use Rattle.involutive.specs.Answers.{Steps};
ghost use Rattle.calls.specs.Told.{stepped};
ghost use Rattle.reduction.specs.Table.{setting};
ghost use Rattle.sheet.specs.Marks.{rows_of, state_of};
ghost use Rattle.sheet.specs.Queueing.{Passed, Waits};

use crate::pair::Pair;
use crate::refusal::refusal_of;
use crate::settle::Settled;
use crate::sheet::Sheet;
use calls::answer::Step;
use calls::refusal::Refusal;
use field::Field;
use monomial::division::Division;
use monomial::order::Order;
use reduction::rows::Rows;

impl<F: Field, O: Order, D: Division> Sheet<F, O, D> {
    // Takes the first open pair, by its place in the queue, and reduces its row times its variable: zero marks the pair, and
    // what else is left becomes a row.
    pub(crate) fn treat(&mut self, at: usize) -> Result<Step, Refusal>
        requires passed { Passed self.old.table.rows.items (rows_of self.old.marks) self.old.queue.picks.items at }
        requires waits { Waits self.old.table.rows.items (rows_of self.old.marks) self.old.queue.picks.items at }
        ensures kept { (self.new.ring ≡ self.old.ring) × (self.new.division ≡ self.old.division) }
        ensures refused { OnErr result ((self.new.table.rows.items ≡ self.old.table.rows.items) × (self.new.marks ≡ self.old.marks)) }
        ensures treats { Steps (setting (F.Field.meaning self.old.ring.field) (O.Order.meaning self.old.ring.order) (D.Division.meaning self.old.division) self.old.ring.variables) (state_of self.old.table.rows.items (rows_of self.old.marks)) (stepped result) (state_of self.new.table.rows.items (rows_of self.new.marks)) }
    {
        let pick = self.queue.picks[at];
        let pair = Pair {
            row: pick.row,
            variable: pick.variable,
        };
        let rows = Rows {
            ring: &self.ring,
            division: &self.division,
            rows: self.table.rows.as_slice(),
        };
        // The pair is one of this sheet, so there are such a row and variable.
        rows.reduce_prolongation(pair.row, pair.variable, &mut self.work)
            .unwrap()
            .map_err(refusal_of)?;
        match self.settle()? {
            Settled::Nothing => {
                self.marks.mark(pair);
                self.queue.next = at + 1;
                Ok(Step::Marked)
            }
            Settled::Appended => Ok(Step::Appended),
        }
    }
}
