// The making of a sheet. It takes all the memory that the sheet will ever use.
ghost use Rattle.std.specs.Prelude.{MatchResult};
ghost use Rattle.reduction.specs.Table.{setting as setting_of};
ghost use Rattle.sheet.specs.Making.{Begins, Denies};
ghost use Rattle.sheet.specs.Marks.{rows_of, state_of};

use crate::copy::CopyBuffer;
use crate::marks::Marks;
use crate::queue::Queue;
use crate::sheet::Sheet;
use crate::table::Table;
use crate::unmade::Unmade;
use field::Field;
use monomial::WIDTH;
use monomial::division::Division;
use monomial::order::Order;
use polynomial::ring::Ring;
use reduction::reduce::Work;
use std::alloc::Global;

impl<F: Field + Drop, O: Order + Drop, D: Division + Drop> Sheet<F, O, D> {
    // A sheet without rows.
    pub fn new(heap: Global, ring: Ring<F, O>, division: D) -> Result<Sheet<F, O, D>, Unmade>
        ensures made { MatchResult result (λ x. Begins (setting_of (F.Field.meaning ring.field) (O.Order.meaning ring.order) (D.Division.meaning division) ring.variables) (setting_of (F.Field.meaning x.ring.field) (O.Order.meaning x.ring.order) (D.Division.meaning x.division) x.ring.variables) (state_of x.table.rows.items (rows_of x.marks))) (Denies ring.variables) }
    {
        if ring.variables == 0 || ring.variables > WIDTH {
            return Err(Unmade::Variables);
        }
        let table = Table::new(heap)?;
        let queue = Queue::new(heap)?;
        let work = Work::new(heap)?;
        let copy = CopyBuffer::new(heap)?;
        Ok(Sheet {
            ring,
            division,
            table,
            marks: Marks::none(),
            queue,
            work,
            copy,
        })
    }
}
