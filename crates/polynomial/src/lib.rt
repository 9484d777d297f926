// Polynomials as runs of terms: what they are, the checks on one that is handed over, and their bytes.
//
// term     a coefficient and a monomial
// refusal  why a polynomial that is handed over is refused
// ring     a field, an order and a number of variables
// check    the checks on a polynomial that is handed over
// bytes    reading and writing terms as bytes
#![tactic(auto)]

pub mod bytes;
pub mod check;
pub mod refusal;
pub mod ring;
pub mod term;
#[cfg(test)]
mod tests;
