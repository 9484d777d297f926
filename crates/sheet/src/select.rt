// The rows that a fair copy has: those whose leading monomial no other row's divides, in rising order.
//
// Rows count from 1 here, as in the answers. The contracts speak of the leading monomials that stand beside the rows. That a
// number is a row's is said in each: it is a fact of the number and the rows together, and a type of both would be taken
// apart in each function, while the list that is kept has numbers alone.
ghost use Rattle.std.specs.Prelude.{◌≡◌, ℕ, ◌≤◌, map, length, vec_len, vec_capacity, Decides};
ghost use mathlib.Core.List.{Memᴰ};
ghost use Rattle.std.specs.List.{insert};
ghost use Rattle.monomial.specs.Division.{Distinct, Within, member};
ghost use Rattle.involutive.specs.Sheet.{most_rows};
ghost use Rattle.sheet.specs.Rows.{lead_of};
ghost use Rattle.sheet.specs.Selecting.{Undivided, placed, Picks, Ascending};

use monomial::order::Order;
use reduction::table::Row;
use std::cmp::Ordering;

// Whether no other row's leading monomial divides that of row k.
fn is_minimal(rows: &[Row], k: usize) -> bool
    requires { Within k (length rows.now) }
    ensures { Decides result (Undivided (map lead_of rows.now) k) }
{
    let own = rows[k - 1].lead.monomial;
    rows.iter()
        .enumerate()
        .all(|(i, row)| i == k - 1 || !row.lead.monomial.divides(&own))
}

// How the leading monomials of rows j and k compare.
fn compare_leads<O: Order>(order: &O, rows: &[Row], j: usize, k: usize) -> Ordering
    requires { Within j (length rows.now) × Within k (length rows.now) }
    ensures { result ≡ O.Order.meaning order.now (member (map lead_of rows.now) j) (member (map lead_of rows.now) k) }
{
    order.compare(&rows[j - 1].lead.monomial, &rows[k - 1].lead.monomial)
}

// Where row k goes in the list: before the first row that does not stand below it. By a loop: a closure for `position` would
// have to show of each number in the list that it is a row's, and did not.
fn place_of<O: Order>(order: &O, rows: &[Row], list: &[usize], k: usize) -> usize
    requires { ((j : ℕ) → Memᴰ j list.now → Within j (length rows.now)) × Within k (length rows.now) }
    ensures range { result ≤ length list.now }
    ensures place { insert list.now result k ≡ placed (O.Order.meaning order.now) (map lead_of rows.now) k list.now }
{
    for (i, j) in list.iter().enumerate() {
        if !compare_leads(order, rows, *j, k).is_lt() {
            return i;
        }
    }
    list.len()
}

// The numbers of the rows to copy. The loop is over the numbers, since of a row nothing else is asked. It counts from 0:
// `1..=n` is left from within its last round, and what a round does would have to be shown twice.
pub(crate) fn select<O: Order>(order: &O, rows: &[Row], list: &mut Vec<usize>)
    requires { (length rows.now ≤ most_rows) × (most_rows ≤ vec_capacity list.old) }
    ensures room { most_rows ≤ vec_capacity list.new }
    ensures few { vec_len list.new ≤ length rows.now }
    ensures picks { Picks (map lead_of rows.now) (length rows.now) list.new.items }
    ensures rises { Distinct (map lead_of rows.now) → Ascending (O.Order.meaning order.now) (map lead_of rows.now) list.new.items }
{
    list.clear();
    for i in 0..rows.len() {
        let k = i + 1;
        if is_minimal(rows, k) {
            let at = place_of(order, rows, list.as_slice(), k);
            let _ = list.insert(at, k);
        }
    }
}
