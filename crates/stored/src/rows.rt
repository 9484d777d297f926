// The rows of a stored table: its records, each checked behind those before it.
ghost use Rattle.std.specs.Prelude.{◌≡◌, ◌+◌, ◌^◌, ◌<◌, [], map, vec_items};
ghost use Rattle.polynomial.specs.Polynomial.{leading};
ghost use Rattle.stored.specs.Stored.{among, behind, leading_fault, Reads};
ghost use Rattle.stored.specs.Record.{file_length};
ghost use Rattle.stored.specs.Rows.{IsFine, ChecksRow, ReadsRow, ReadsRows, polys};

use crate::fault::{Fault, Reason};
use crate::record::read_record;
use crate::rest::Rest;
use crate::row::Row;
use field::Field;
use monomial::Monomial;
use monomial::order::Order;
use polynomial::bytes::TERM_BYTES;
use polynomial::check::MOST_ROWS;
use polynomial::ring::Ring;
use polynomial::term::Term;
use std::alloc::Global;

// Whether a row leads with the monomial.
fn has_leader(rows: &[Row], monomial: &Monomial) -> bool
    ensures { result ≡ among monomial.now.exponents (map leading (polys rows.now)) }
{
    rows.iter().any(|row| row.leader().is_same(monomial))
}

// Whether a row leads with coefficient 1 and a monomial that no row before it leads with.
fn check_leader(before: &[Row], row: &Row) -> Result<(), Reason>
    ensures { IsFine (leading_fault (map leading (polys before.now)) (vec_items row.now.terms)) result }
{
    let first = row.first();
    if first.coefficient != 1 {
        return Err(Reason::NotMonic);
    }
    if has_leader(before, &first.monomial) {
        return Err(Reason::Repeated);
    }
    Ok(())
}

// The row that a record's polynomial is, behind the rows before it.
fn check_row<F: Field, O: Order>(
    ring: &Ring<F, O>,
    before: &[Row],
    terms: Vec<Term>,
) -> Result<Row, Reason>
    ensures { ChecksRow (F.Field.meaning ring.now.field) (O.Order.meaning ring.now.order) ring.now.variables (polys before.now) terms.items result }
{
    if before.len() >= MOST_ROWS {
        return Err(Reason::TooManyRows);
    }
    ring.check(&terms)?;
    if terms.is_empty() {
        return Err(Reason::Zero);
    }
    let row = Row { terms };
    check_leader(before, &row)?;
    Ok(row)
}

// Where in the file a fault of the record at that offset stands.
fn place_fault(why: Reason, offset: usize) -> usize
    requires { offset + behind why < 2 ^ 64 }
    ensures { result ≡ offset + behind why }
{
    match why {
        Reason::Refused(refusal) => offset + refusal.place().saturating_sub(1) * TERM_BYTES,
        _ => offset,
    }
}

// The row at the front, behind the rows before it, and what is left of the file behind it; nothing at the end of the file.
fn read_row<'a, F: Field, O: Order>(
    heap: Global,
    ring: &Ring<F, O>,
    before: &[Row],
    rest: Rest<'a>,
) -> Result<Option<(Row, Rest<'a>)>, Fault>
    ensures { ReadsRow (F.Field.meaning ring.now.field) (O.Order.meaning ring.now.order) ring.now.variables (polys before.now) rest.entry result }
{
    if rest.bytes.is_empty() {
        return Ok(None);
    }
    let (terms, behind) = read_record(heap, rest)?;
    let row = check_row(ring, before, terms).map_err(|why| Fault::Bad(
        why,
        place_fault(why, rest.offset),
    ))?;
    Ok(Some((row, behind)))
}

// The rows of the records that are left of a file.
pub(crate) fn read_rows<F: Field, O: Order>(
    heap: Global,
    ring: &Ring<F, O>,
    records: Rest<'_>,
) -> Result<Vec<Row>, Fault>
    ensures { ReadsRows (Reads (F.Field.meaning ring.now.field) (O.Order.meaning ring.now.order) ring.now.variables (file_length records.entry) [] records.entry.bytes.now) result }
{
    let mut rows = Vec::new(heap);
    let mut rest = records;
    while let Some((row, behind)) = read_row(heap, ring, &rows, rest)? {
        rows.push(row)?;
        rest = behind;
    }
    Ok(rows)
}
