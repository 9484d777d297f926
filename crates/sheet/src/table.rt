// The rows of a sheet. All the memory that they will ever need is taken when the table is made.
ghost use Rattle.std.specs.Prelude.{◌≡◌, ℕ, ◌+◌, ◌≤◌, List, [], IfOk, vec_len, vec_capacity};

use monomial::Monomial;
use polynomial::check::MOST_ROWS;
use reduction::buffer::Buffer;
use reduction::table::Row;
use std::alloc::{AllocError, Global};

// Up to 32 rows, buffers for those to come, and the list of leading monomials that a division is asked about.
#[derive(Drop)]
pub(crate) struct Table {
    pub(crate) rows: Vec<Row>,
    pub(crate) spare: Vec<Buffer>,
    pub(crate) leaders: Vec<Monomial>,
    ghost room: { 32 ≤ vec_capacity rows },
    ghost whole: { vec_len rows + vec_len spare ≡ 32 },
    ghost stock: { 32 ≤ vec_capacity spare },
    ghost list: { 32 ≤ vec_capacity leaders },
}

impl Table {
    // A table without rows, or want of memory.
    pub(crate) fn new(heap: Global) -> Result<Table, AllocError>
        ensures { IfOk result (λ t. t.rows.items ≡ []) }
    {
        let rows = Vec::with_capacity(heap, MOST_ROWS)?;
        let leaders = Vec::with_capacity(heap, MOST_ROWS)?;
        let mut spare = Vec::with_capacity(heap, MOST_ROWS)?;
        for _ in 0..MOST_ROWS {
            spare.push_reserved(Buffer::new(heap)?);
        }
        Ok(Table {
            rows,
            spare,
            leaders,
        })
    }
}
