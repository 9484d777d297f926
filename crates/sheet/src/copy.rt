// The fair copy: the rows that no other divides, each with its other terms reduced, as bytes.
ghost use Rattle.std.specs.Prelude.{◌≡◌, ℕ, ◌+◌, ◌≤◌, Bool, List, [], ◌++◌, length, IfOk, vec_len, vec_capacity, MatchResult};
ghost use mathlib.Core.List.{Memᴰ};
ghost use Rattle.monomial.specs.Division.{Within};
ghost use Rattle.polynomial.specs.Bytes.{poly_bytes, bytes_needed};
ghost use Rattle.involutive.specs.Reduction.{row as line};
ghost use Rattle.involutive.specs.Sheet.{Closed, most_rows};
ghost use Rattle.involutive.specs.Answers.{FairCopies};
ghost use Rattle.calls.specs.Told.{copied};
ghost use Rattle.reduction.specs.Table.{setting, table_of};
ghost use Rattle.sheet.specs.Marks.{state_of};
ghost use Rattle.sheet.specs.Copying.{row_room, copy_room, RowCopied, RowsCopied, Delivered};

use crate::put::put;
use crate::refusal::refusal_of;
use crate::select::select;
use calls::answer::Copied;
use calls::refusal::Refusal;
use field::Field;
use monomial::division::Division;
use monomial::order::Order;
use polynomial::bytes::{TERM_BYTES, term_bytes};
use polynomial::check::{MOST_ROWS, MOST_TERMS};
use polynomial::term::Term;
use reduction::reduce::Work;
use reduction::rows::Rows;
use std::alloc::{AllocError, Global};

// The byte that closes each row of a copy.
const END_OF_ROW: u8 = 0x02;

// Room for the bytes of one row: a leading term, what a buffer can hold behind it, and the closing byte. A copy has at
// most 40 terms; room for one more keeps the buffer's bound free of what reducing promises.
const ROW_BYTES: usize = (1 + MOST_TERMS) * TERM_BYTES + 1;

// Room for the bytes of 32 rows.
const COPY_BYTES: usize = MOST_ROWS * ROW_BYTES;

// The bytes of a copy, with room for those of 32 rows.
#[derive(Drop)]
pub(crate) struct CopyBytes {
    pub(crate) written: Vec<u8>,
    ghost room: { 11840 ≤ vec_capacity written },
}

impl CopyBytes {
    // No bytes, or want of memory.
    fn new(heap: Global) -> Result<CopyBytes, AllocError>
        ensures { IfOk result (λ bytes. bytes.written.items ≡ []) }
    {
        let written = Vec::with_capacity(heap, COPY_BYTES)?;
        Ok(CopyBytes { written })
    }

    // The terms' bytes behind those that are there.
    fn push_terms(&mut self, terms: &[Term])
        requires { vec_len self.old.written + bytes_needed terms.now ≤ copy_room }
        ensures items { self.new.written.items ≡ self.old.written.items ++ poly_bytes terms.now }
        ensures len { vec_len self.new.written ≡ vec_len self.old.written + bytes_needed terms.now }
    {
        for term in terms {
            let _ = self.written.extend_from_slice(&term_bytes(term));
        }
    }
}

// What a fair copy is made in: the numbers of the rows to copy, and the bytes. The room is taken once and outlives each copy,
// so it has numbers and no references to rows.
#[derive(Drop)]
pub(crate) struct CopyBuffer {
    pub(crate) list: Vec<usize>,
    pub(crate) bytes: CopyBytes,
    ghost most: { 32 ≤ vec_capacity list },
}

impl CopyBuffer {
    // An empty buffer, or want of memory.
    pub(crate) fn new(heap: Global) -> Result<CopyBuffer, AllocError>
        ensures { IfOk result (λ buffer. (buffer.list.items ≡ []) × (buffer.bytes.written.items ≡ [])) }
    {
        let list = Vec::with_capacity(heap, MOST_ROWS)?;
        let bytes = CopyBytes::new(heap)?;
        Ok(CopyBuffer { list, bytes })
    }
}

// The bytes to the front of those that were lent, if they suffice.
fn write_copy(rows: usize, bytes: &[u8], out: &mut [u8]) -> Result<Copied, Refusal>
    ensures { Delivered rows bytes.now out.old result out.new }
{
    let bytes = put(bytes, out)?;
    Ok(Copied { rows, bytes })
}

// The copy of row k: its leading term and what reducing leaves of the others, with room for 39 terms, so that the
// copy has at most 40.
fn copy_row<F: Field, O: Order, D: Division>(
    rows: &Rows<F, O, D>,
    k: usize,
    work: &mut Work,
    bytes: &mut CopyBytes,
) -> Result<(), Refusal>
    requires within { Within k (length rows.now.rows.now) }
    requires room { vec_len bytes.old.written + row_room ≤ copy_room }
    ensures len { vec_len bytes.new.written ≤ vec_len bytes.old.written + row_room }
    ensures copy { RowCopied (setting (F.Field.meaning rows.now.ring.now.field) (O.Order.meaning rows.now.ring.now.order) (D.Division.meaning rows.now.division.now) rows.now.ring.now.variables) (table_of rows.now.rows.now) (line (table_of rows.now.rows.now) k) result bytes.old.written.items bytes.new.written.items }
{
    // The row is one of these, so there is such a row.
    rows.reduce_tail(k, work).unwrap().map_err(refusal_of)?;
    bytes.push_terms(&rows.rows[k - 1].terms.as_slice()[..1]);
    bytes.push_terms(work.done.terms.as_slice());
    bytes.written.push_reserved(END_OF_ROW);
    Ok(())
}

// The copies of the listed rows, which count from 1, up to the first that is denied.
fn copy_rows<F: Field, O: Order, D: Division>(
    rows: &Rows<F, O, D>,
    list: &[usize],
    work: &mut Work,
    bytes: &mut CopyBytes,
) -> Result<(), Refusal>
    requires { (length list.now ≤ most_rows) × ((k : ℕ) → Memᴰ k list.now → Within k (length rows.now.rows.now)) }
    ensures { (xs : List (List Bool)) → RowsCopied (setting (F.Field.meaning rows.now.ring.now.field) (O.Order.meaning rows.now.ring.now.order) (D.Division.meaning rows.now.division.now) rows.now.ring.now.variables) (state_of rows.now.rows.now xs) list.now result bytes.new.written.items }
{
    bytes.written.clear();
    for k in list {
        copy_row(rows, *k, work, bytes)?;
    }
    Ok(())
}

// The fair copy of a closed sheet with these rows, into the lent bytes: how many rows and bytes it has.
pub(crate) fn write_fair_copy<F: Field, O: Order, D: Division>(
    rows: &Rows<F, O, D>,
    work: &mut Work,
    buffer: &mut CopyBuffer,
    out: &mut [u8],
) -> Result<Copied, Refusal>
    requires { length rows.now.rows.now ≤ most_rows }
    ensures within { MatchResult result (λ c. c.bytes ≤ length out.old) (λ _. out.new ≡ out.old) }
    ensures answer { let S = setting (F.Field.meaning rows.now.ring.now.field) (O.Order.meaning rows.now.ring.now.order) (D.Division.meaning rows.now.division.now) rows.now.ring.now.variables in (xs : List (List Bool)) → Closed S (state_of rows.now.rows.now xs) → FairCopies S (state_of rows.now.rows.now xs) out.old (copied result) out.new }
{
    select(&rows.ring.order, rows.rows, &mut buffer.list);
    copy_rows(rows, buffer.list.as_slice(), work, &mut buffer.bytes)?;
    write_copy(buffer.list.len(), buffer.bytes.written.as_slice(), out)
}
