// A stored table, read and told as text.
ghost use Rattle.std.specs.Prelude.{◌≡◌, [], map, vec_items, IfOk};
ghost use Rattle.stored.specs.Leader.{leader_of};
ghost use Rattle.stored.specs.Text.{table_text};
ghost use Rattle.stored.specs.Stored.{Reads, Displays, TellsFile};
ghost use Rattle.stored.specs.Record.{file_length};
ghost use Rattle.stored.specs.Show.{Tells};

use crate::fault::{Fault, Reason};
use crate::rest::Rest;
use crate::row::Row;
use crate::rows::read_rows;
use crate::text::Table;
use choice::choose::{Task, choose};
use choice::operands::{Operands, SHEET_BYTES};
use field::Field;
use monomial::Monomial;
use monomial::division::Division;
use monomial::order::Order;
use polynomial::ring::Ring;
use std::alloc::{AllocError, Global};

// The leading monomials of the rows, among which a division is asked.
fn leaders_of(heap: Global, rows: &[Row]) -> Result<Vec<Monomial>, AllocError>
    ensures { IfOk result (λ ms. ms.items ≡ map (λ row. leader_of (vec_items row.terms)) rows.now) }
{
    rows.iter().map(|row| row.leader()).collect(heap)
}

// The showing of the records behind a sheet command with these operands.
#[derive(Drop)]
struct Showing<'a> {
    heap: Global,
    operands: Operands,
    records: Rest<'a>,
}

impl Task for Showing<'_> {
    type Done = Result<String, Fault>;

    ghost gives = { λ t F O D n done. Tells (Reads F O n (file_length t.records) [] t.records.bytes.now) (table_text D t.operands.modulus t.operands.variables t.operands.order t.operands.division) done };

    fn run<F: Field + Copy + Drop, O: Order + Copy + Drop, D: Division + Copy + Drop>(
        self,
        ring: Ring<F, O>,
        division: D,
    ) -> Result<String, Fault> {
        let rows = read_rows(self.heap, &ring, self.records)?;
        let leaders = leaders_of(self.heap, &rows)?;
        let table = Table {
            operands: self.operands,
            division: &division,
            leaders: &leaders,
            rows: &rows,
        };
        Ok(table.to_string(self.heap)?)
    }
}

// The table in a file as text, or what is wrong with the file.
pub fn show(heap: Global, input: &[u8]) -> Result<String, Fault>
    ensures { TellsFile (Displays input.now) result }
{
    let [
        0x00,
        kind,
        high,
        low,
        variables,
        order,
        division,
        records @ ..,
    ] = input
    else {
        return Err(Fault::Bad(Reason::NoSheet, 0));
    };
    let operands = Operands::new(&[*kind, *high, *low, *variables, *order, *division]);
    let showing = Showing {
        heap,
        operands,
        records: Rest {
            bytes: records,
            offset: SHEET_BYTES,
        },
    };
    choose(operands, showing)?
}
