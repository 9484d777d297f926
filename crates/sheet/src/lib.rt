// A sheet: its rows, its marks, and the calls on it.
//
// sheet    a sheet
// making   its making
// unmade   why there is none
// six      the six calls
//
// table    the rows, and the memory for those to come
// flags    which variables are multiplicative for each row
// marks    which pairs of a row and a variable are marked
// pair     a row and a variable
// queue    the pairs in the order in which steps take them
// choose   the pair that a step takes
// append   a row more
// refusal  what reducing refuses, as the calls tell it
// settle   what the rows leave of a polynomial becomes a row
// treat    what a step does with its pair
// put      terms or bytes to the front of what was lent
// select   the rows of a fair copy
// copy     the fair copy as bytes
// unit     whether a row leads with 1
#![tactic(auto)]

mod append;
mod choose;
mod copy;
mod flags;
mod making;
mod marks;
mod pair;
mod put;
mod queue;
mod refusal;
mod select;
mod settle;
pub mod sheet;
pub mod six;
mod table;
mod treat;
mod unit;
pub mod unmade;
