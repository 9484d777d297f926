// Which variables are multiplicative for each row. It changes only when a row is appended, so the division is asked then.
ghost use Rattle.std.specs.Prelude.{◌≡◌, ℕ, List, map};
ghost use Rattle.monomial.specs.Lists.{exponents_of};
ghost use Rattle.reduction.specs.Table.{terms_of};
ghost use Rattle.sheet.specs.Rows.{lead_of, flags_of, Asked, Refreshed};

use crate::table::Table;
use monomial::division::Division;
use monomial::{Monomial, WIDTH};
use reduction::table::Row;
use std::array::from_fn;

impl Table {
    // Puts the rows' leading monomials into the list that a division is asked about.
    pub(crate) fn list_leaders(&mut self)
        ensures list { exponents_of self.new.leaders.items ≡ map lead_of self.old.rows.items }
        ensures kept { self.new.rows ≡ self.old.rows }
    {
        let Table { rows, leaders, .. } = self;
        leaders.clear();
        for row in rows.as_slice() {
            leaders.push_reserved(row.lead.monomial);
        }
    }
}

// What the division says of one member.
fn ask_all<D: Division>(division: &D, list: &[Monomial], member: usize) -> [bool; WIDTH]
    ensures { Asked (D.Division.meaning division.now) (exponents_of list.now) member result }
{
    from_fn(|i| {
        division
            .multiplicative(list, member, i + 1)
            .unwrap_or(false)
    })
}

// Asks the division anew for every row.
pub(crate) fn refresh<D: Division>(division: &D, list: &[Monomial], rows: &mut [Row])
    ensures { Refreshed (D.Division.meaning division.now) (exponents_of list.now) rows.old rows.new }
{
    for (i, row) in rows.iter_mut().enumerate() {
        row.lead.multiplicative = ask_all(division, list, i + 1);
    }
}
