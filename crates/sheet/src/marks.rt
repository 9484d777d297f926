// Which pairs of a row and a variable are marked.
ghost use Rattle.std.specs.Prelude.{◌≡◌, ℕ, ◌<◌, Bool, true, false, ◌&&◌, ◌||◌, List, length, ◌==◌, slice_set};
ghost use Rattle.monomial.specs.Monomial.{width};
ghost use Rattle.sheet.specs.Marks.{rows_of, marked};

use crate::pair::Pair;
use monomial::WIDTH;
use polynomial::check::MOST_ROWS;

// For each row, at which variables it is marked.
#[derive(Clone, Copy)]
pub(crate) struct Marks {
    pub(crate) rows: [[bool; WIDTH]; MOST_ROWS],
}

// One variable more, counted from 0. It stands apart because it tells how long a row is.
fn with_mark(row: [bool; WIDTH], v: usize) -> [bool; WIDTH]
    requires { v < width }
    ensures changed { result ≡ slice_set row v true }
    ensures wide { v < length row }
{
    let mut marked = row;
    marked[v] = true;
    marked
}

impl Marks {
    // No marks.
    pub(crate) fn none() -> Marks
        ensures { (k v : ℕ) → marked (rows_of result) k v ≡ false }
    {
        Marks {
            rows: [[false; WIDTH]; MOST_ROWS],
        }
    }

    // Marks the pair.
    pub(crate) fn mark(&mut self, pair: Pair)
        ensures { (j u : ℕ) → marked (rows_of self.new) j u ≡ ((j == pair.row && u == pair.variable) || marked (rows_of self.old) j u) }
    {
        let row = self.rows[pair.row - 1];
        self.rows[pair.row - 1] = with_mark(row, pair.variable - 1);
    }

    // Whether the pair is marked.
    pub(crate) fn has(&self, pair: Pair) -> bool
        ensures { result ≡ marked (rows_of self.now) pair.row pair.variable }
    {
        self.rows[pair.row - 1][pair.variable - 1]
    }
}
