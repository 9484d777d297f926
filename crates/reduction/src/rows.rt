// The rows of a table, lent with the ring and the division that they agree with, and what is reduced by them: a polynomial that
// is handed over, a row times a variable, and the terms behind a row's first.
ghost use Rattle.std.specs.Prelude.{◌≡◌, ◌-◌, ◌≤◌, drop, length, is_some, IfSome, IfNone, Decides};
ghost use Rattle.monomial.specs.Division.{Within};
ghost use Rattle.polynomial.specs.Check.{most_terms};
ghost use Rattle.involutive.specs.Reduction.{row as line};
ghost use Rattle.reduction.specs.Agreement.{agreement_prop};
ghost use Rattle.reduction.specs.Reducing.{Reduced, ChecksAndReduces, ProlongsAndReduces, OneOutcome};
ghost use Rattle.reduction.specs.Table.{setting, table_of, SoundTable};

use crate::reduce::Work;
use crate::refusal::Denied;
use crate::room::Room;
use crate::table::Row;
use field::Field;
use monomial::division::Division;
use monomial::order::Order;
use polynomial::check::MOST_TERMS;
use polynomial::ring::Ring;
use polynomial::term::Term;

// The rows of a table: each is a polynomial over the ring within the limits, with leading coefficient 1; no two share a leading
// monomial; and what they keep beside their terms agrees with these, the ring and the division. The division is here for that
// alone: only a new row has it asked. There may be more rows than a sheet has. Rows and variables count from 1.
//
// A sheet puts them together where it needs them, since a method of the sheet would lend its buffers too.
#[derive(Drop)]
pub struct Rows<'a, F: Field, O: Order, D: Division> {
    pub ring: &'a Ring<F, O>,
    pub division: &'a D,
    pub rows: &'a [Row],
    ghost some: { 1 ≤ ring.now.variables },
    ghost few: { ring.now.variables ≤ 6 },
    ghost agrees: { SoundTable (setting (F.Field.meaning ring.now.field) (O.Order.meaning ring.now.order)
        (D.Division.meaning division.now) ring.now.variables) rows.now } by { agreement_prop _ _ },
}

impl<F: Field, O: Order, D: Division> Rows<'_, F, O, D> {
    // Checks a polynomial and reduces it, with room for 40 terms. What is left stands in `work.done`, here and below: nothing
    // behind a refusal.
    pub fn reduce(&self, f: &[Term], work: &mut Work) -> Result<(), Denied>
        ensures { let S = setting (F.Field.meaning self.now.ring.now.field) (O.Order.meaning self.now.ring.now.order)
            (D.Division.meaning self.now.division.now) self.now.ring.now.variables in
            ChecksAndReduces S (table_of self.now.rows.now) f.now result work.new.done.terms.items }
    {
        work.done.clear();
        self.ring.check(f).map_err(Denied::Polynomial)?;
        // It has at most 40 terms, so there is room.
        let _ = work.load(f);
        self.reduce_within(Room::ALL, work)
    }

    // Reduces a row times a variable, with room for 40 terms; or tells that there is no such row or variable, and
    // `work.done` stays.
    pub fn reduce_prolongation(
        &self,
        row: usize,
        variable: usize,
        work: &mut Work,
    ) -> Option<Result<(), Denied>>
        ensures there { Decides (is_some result) (Within row (length self.now.rows.now) × Within variable self.now.ring.now.variables) }
        ensures kept { IfNone result (work.new.done.terms.items ≡ work.old.done.terms.items) }
        ensures answer { let S = setting (F.Field.meaning self.now.ring.now.field) (O.Order.meaning self.now.ring.now.order)
            (D.Division.meaning self.now.division.now) self.now.ring.now.variables in
            IfSome result (λ answer. ProlongsAndReduces S (table_of self.now.rows.now) row variable answer work.new.done.terms.items) }
    {
        if row == 0 || row > self.rows.len() || variable == 0 || variable > self.ring.variables {
            return None;
        }
        Some(self.prolong_and_reduce(row, variable, work))
    }

    // The same, where there are such a row and variable.
    fn prolong_and_reduce(&self, row: usize, variable: usize, work: &mut Work) -> Result<(), Denied>
        requires row { Within row (length self.now.rows.now) }
        requires variable { Within variable self.now.ring.now.variables }
        ensures { let S = setting (F.Field.meaning self.now.ring.now.field) (O.Order.meaning self.now.ring.now.order)
            (D.Division.meaning self.now.division.now) self.now.ring.now.variables in
            ProlongsAndReduces S (table_of self.now.rows.now) row variable result work.new.done.terms.items }
    {
        work.done.clear();
        self.prolong(row, variable, &mut work.rest)
            .map_err(|_| Denied::Wide(row))?;
        self.reduce_within(Room::ALL, work)
    }

    // Reduces the terms behind the first one of a row, with room for 39, so that with its first term the row has at most 40; or
    // tells that there is no such row, and `work.done` stays.
    pub fn reduce_tail(&self, row: usize, work: &mut Work) -> Option<Result<(), Denied>>
        ensures there { Decides (is_some result) (Within row (length self.now.rows.now)) }
        ensures kept { IfNone result (work.new.done.terms.items ≡ work.old.done.terms.items) }
        ensures answer { let S = setting (F.Field.meaning self.now.ring.now.field) (O.Order.meaning self.now.ring.now.order)
            (D.Division.meaning self.now.division.now) self.now.ring.now.variables in
            let T = table_of self.now.rows.now in
            IfSome result (λ answer. Reduced S T (most_terms - 1) (drop 1 (line T row)) answer work.new.done.terms.items) }
    {
        if row == 0 || row > self.rows.len() {
            return None;
        }
        // A row has at most 40 terms, so there is room.
        let _ = work.load(&self.rows[row - 1].terms.as_slice()[1..]);
        Some(self.reduce_within(Room::new(MOST_TERMS - 1), work))
    }

    // Reducing by these rows comes to one thing, so the clauses above allow one answer, and one polynomial that is left.
    // There is nothing to run.
    pub fn one_outcome(&self)
        ensures { OneOutcome (setting (F.Field.meaning self.now.ring.now.field) (O.Order.meaning self.now.ring.now.order)
            (D.Division.meaning self.now.division.now) self.now.ring.now.variables) (table_of self.now.rows.now) }
    {}
}
