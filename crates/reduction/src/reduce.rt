// Reducing by a table until no term has an involutive divisor.
ghost use Rattle.std.specs.Prelude.{◌≡◌, ℕ, ◌<◌, ◌≤◌, length, drop, IfOk, MatchResult};
ghost use Rattle.monomial.specs.Monomial.{In, quotient as divided};
ghost use Rattle.polynomial.specs.Polynomial.{Written};
ghost use Rattle.polynomial.specs.Check.{Acceptable, most_terms};
ghost use Rattle.involutive.specs.Value.{scaled};
ghost use Rattle.reduction.specs.Table.{setting, terms_of, table_of};
ghost use Rattle.reduction.specs.Subtraction.{Subtracted};
ghost use Rattle.reduction.specs.Reducing.{Reduced, IsUnused};

use crate::buffer::{Buffer, NoRoom};
use crate::refusal::{Denied, Reason};
use crate::room::Room;
use crate::rows::Rows;
use crate::search::find_reducible;
use crate::subtract::{quotient, subtract};
use crate::table::Row;
use field::Field;
use monomial::division::Division;
use monomial::order::Order;
use polynomial::ring::Ring;
use polynomial::term::Term;
use std::alloc::{AllocError, Global};

// How many monomials have exponents up to 40. Reducing acts on falling monomials, so it never takes more turns.
const MONOMIALS: u64 = 4_750_104_241;

// What stands behind a term, less the multiple of what stands behind the row's leading term: the two heads cancel.
fn cancel<F: Field, O: Order>(
    ring: &Ring<F, O>,
    row: &Row,
    term: &Term,
    behind: &[Term],
    room: Room,
    out: &mut Buffer,
) -> Result<(), Reason>
    ensures { (n : ℕ) → Written (F.Field.meaning ring.now.field) (O.Order.meaning ring.now.order) n behind.now → Written (F.Field.meaning ring.now.field) (O.Order.meaning ring.now.order) n (drop 1 (terms_of row.now)) → 0 < term.now.coefficient → term.now.coefficient < (F.Field.meaning ring.now.field).q → In n (divided term.now.monomial.exponents row.now.lead.monomial.exponents) → Subtracted (F.Field.meaning ring.now.field) (O.Order.meaning ring.now.order) n room.terms behind.now (scaled (F.Field.meaning ring.now.field) term.now.coefficient (divided term.now.monomial.exponents row.now.lead.monomial.exponents) (drop 1 (terms_of row.now))) result out.new.terms.items }
{
    let factor = Term {
        coefficient: term.coefficient,
        monomial: quotient(&term.monomial, &row.lead.monomial),
    };
    subtract(ring, behind, &row.terms.as_slice()[1..], &factor, room, out)
}

// The memory that reducing needs: what is still to be reduced, what is done, and room for the differences. Behind a call
// that reduces, `done` has what is left, and nothing behind a refusal.
#[derive(Drop)]
pub struct Work {
    pub(crate) rest: Buffer,
    pub done: Buffer,
    pub(crate) spare: Buffer,
}

impl Work {
    // Empty buffers, or want of memory.
    pub fn new(heap: Global) -> Result<Work, AllocError>
        ensures { IfOk result IsUnused }
    {
        let rest = Buffer::new(heap)?;
        let done = Buffer::new(heap)?;
        let spare = Buffer::new(heap)?;
        Ok(Work { rest, done, spare })
    }

    // These terms are to be reduced, where they are at most 40; else nothing changes.
    pub(crate) fn load(&mut self, terms: &[Term]) -> Result<(), NoRoom>
        ensures { MatchResult result (λ _. (length terms.now ≤ most_terms) × (self.new.rest.terms.items ≡ terms.now))
            (λ _. (most_terms < length terms.now) × (self.new.rest.terms.items ≡ self.old.rest.terms.items)) }
    {
        self.rest.load(terms)
    }
}

impl<F: Field, O: Order, D: Division> Rows<'_, F, O, D> {
    // Reduces what `rest` holds into `done`, with room for so many terms. Terms without a divisor go to `done` and never
    // change again; the difference of the others is made in `spare`.
    pub(crate) fn reduce_within(&self, room: Room, work: &mut Work) -> Result<(), Denied>
        requires acceptable { Acceptable (F.Field.meaning self.now.ring.now.field) (O.Order.meaning self.now.ring.now.order)
            self.now.ring.now.variables work.old.rest.terms.items }
        requires room { length work.old.rest.terms.items ≤ room.terms }
        ensures { Reduced (setting (F.Field.meaning self.now.ring.now.field) (O.Order.meaning self.now.ring.now.order)
            (D.Division.meaning self.now.division.now) self.now.ring.now.variables)
            (table_of self.now.rows.now) room.terms work.old.rest.terms.items result work.new.done.terms.items }
    {
        let table = self.rows;
        let Work { rest, done, spare } = work;
        done.clear();
        for _ in 0..MONOMIALS {
            let terms = rest.terms.as_slice();
            match find_reducible(table, terms) {
                None => {
                    // There is room, here and below.
                    let _ = done.extend(terms, room);
                    return Ok(());
                }
                Some((i, k)) => {
                    let _ = done.extend(&terms[..i], room);
                    let free = room.after(done.terms.len());
                    if let Err(reason) = cancel(
                        self.ring,
                        &table[k],
                        &terms[i],
                        &terms[i + 1..],
                        free,
                        spare,
                    ) {
                        done.clear();
                        return Err(reason.at_row(k + 1));
                    }
                    std::mem::swap(rest, spare);
                }
            }
        }
        Ok(())
    }
}
