// A table is a list of rows. Beside its terms a row keeps what the search for divisors asks of it most.
ghost use Rattle.std.specs.Prelude.{ℕ, ◌<◌, ◌≤◌, vec_len};

use monomial::{Monomial, WIDTH};
use polynomial::term::Term;

// A leading monomial, and for each variable whether it is multiplicative for it.
#[derive(Clone, Copy)]
pub struct Lead {
    pub monomial: Monomial,
    pub multiplicative: [bool; WIDTH],
}

// A polynomial of 1 to 40 terms. Its leading monomial stands a second time in `lead`, where the search reads it without
// going to the terms.
#[derive(Drop)]
pub struct Row {
    pub terms: Vec<Term>,
    pub lead: Lead,
    ghost some: { 0 < vec_len terms },
    ghost few: { vec_len terms ≤ 40 },
}
