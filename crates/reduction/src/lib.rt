// Reducing a polynomial by a table of rows.
//
// buffer    room for the terms of a polynomial, taken once
// room      how many terms there is room for
// table     a row of a table: its terms, its leading monomial and the variables that are multiplicative for it
// refusal   why reducing is refused
// search    the greatest term that has an involutive divisor, and that divisor
// scale     a multiple of a polynomial
// merge     adding up two lists of terms
// subtract  subtracting a multiple of a row
// prolong   a row times a variable
// reduce    reducing until no term has a divisor
// rows      the rows of a table, lent, and what is reduced by them
#![tactic(auto)]

pub mod buffer;
mod merge;
mod prolong;
pub mod reduce;
pub mod refusal;
mod room;
pub mod rows;
pub mod scale;
mod search;
mod subtract;
pub mod table;
#[cfg(test)]
mod tests;
