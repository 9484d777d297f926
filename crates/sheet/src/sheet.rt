// A sheet: what it is made of, what it holds, and the memory that its calls use.
ghost use Rattle.std.specs.Prelude.{◌≡◌, ◌≤◌, map, OnErr};
ghost use Rattle.involutive.specs.Answers.{Adds};
ghost use Rattle.involutive.specs.Sound.{Sound};
ghost use Rattle.calls.specs.Told.{added};
ghost use Rattle.reduction.specs.Table.{setting, SoundTable};
ghost use Rattle.reduction.specs.Agreement.{agreement_prop};
ghost use Rattle.sheet.specs.Agreement.{queued_prop};
ghost use Rattle.sheet.specs.Marks.{rows_of, state_of};
ghost use Rattle.sheet.specs.Queueing.{Queued, Passed};
ghost use Rattle.sheet.specs.Rows.{lead_of};

use crate::copy::CopyBuffer;
use crate::marks::Marks;
use crate::queue::Queue;
use crate::refusal::refusal_of;
use crate::table::Table;
use calls::refusal::Refusal;
use field::Field;
use monomial::division::Division;
use monomial::order::Order;
use polynomial::ring::Ring;
use polynomial::term::Term;
use reduction::reduce::Work;
use reduction::rows::Rows;

// A table over a ring and a division, which of its pairs are marked, all its pairs in the order in which steps take them, and
// the buffers of its calls. What the table keeps beside the terms of its rows agrees with them; the queue has every pair of the
// rows, in order; rows and marks are a sound state; and the pairs before the queue's `next` are not open.
#[derive(Drop)]
pub struct Sheet<F: Field, O: Order, D: Division> {
    pub(crate) ring: Ring<F, O>,
    pub(crate) division: D,
    pub(crate) table: Table,
    pub(crate) marks: Marks,
    pub(crate) queue: Queue,
    pub(crate) work: Work,
    pub(crate) copy: CopyBuffer,
    ghost some: { 1 ≤ ring.variables },
    ghost few: { ring.variables ≤ 6 },
    ghost agrees: { SoundTable (setting (F.Field.meaning ring.field) (O.Order.meaning ring.order) (D.Division.meaning division) ring.variables) table.rows.items } by { agreement_prop _ _ },
    ghost queued: { Queued (O.Order.meaning ring.order) ring.variables (map lead_of table.rows.items) queue.picks.items } by { queued_prop _ _ _ _ },
    ghost sound: { ∥ Sound (setting (F.Field.meaning ring.field) (O.Order.meaning ring.order) (D.Division.meaning division) ring.variables) (state_of table.rows.items (rows_of marks)) ∥₁ },
    ghost passed: { Passed table.rows.items (rows_of marks) queue.picks.items queue.next },
}

impl<F: Field, O: Order, D: Division> Sheet<F, O, D> {
    // Reduces a generator and appends what is left of it: how many rows there are then.
    pub(crate) fn add(&mut self, f: &[Term]) -> Result<usize, Refusal>
        ensures kept { (self.new.ring ≡ self.old.ring) × (self.new.division ≡ self.old.division) }
        ensures refused { OnErr result ((self.new.table.rows.items ≡ self.old.table.rows.items) × (self.new.marks ≡ self.old.marks)) }
        ensures adds { Adds (setting (F.Field.meaning self.old.ring.field) (O.Order.meaning self.old.ring.order) (D.Division.meaning self.old.division) self.old.ring.variables) (state_of self.old.table.rows.items (rows_of self.old.marks)) f.now (added result) (state_of self.new.table.rows.items (rows_of self.new.marks)) }
    {
        let rows = Rows {
            ring: &self.ring,
            division: &self.division,
            rows: self.table.rows.as_slice(),
        };
        rows.reduce(f, &mut self.work).map_err(refusal_of)?;
        self.settle()?;
        Ok(self.table.rows.len())
    }
}
