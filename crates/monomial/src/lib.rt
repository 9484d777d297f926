// Monomials, the orders that compare them, and the divisions that say which variables are multiplicative.
//
// order              the interface of an order: meaning and laws
// lexicographic      the three orders, in a module each
// degree_lexicographic
// degree_reverse
// division           the interface of a division: meaning and laws
// janet, thomas      the two divisions
#![tactic(auto)]

ghost use Rattle.std.specs.Prelude.{◌≡◌, ℕ, ◌+◌, ◌<◌, ◌≤◌, Decides, MatchOption};
ghost use Rattle.monomial.specs.Monomial.{Bounded, Divides, degree as degree_of, same, times, quotient as divided};

pub mod degree_lexicographic;
pub mod degree_reverse;
pub mod division;
pub mod janet;
pub mod lexicographic;
pub mod order;
pub mod thomas;

use std::array::from_fn;

// How many exponents a monomial has.
pub const WIDTH: usize = 6;

// A product of powers of the variables x1 to x6, by its exponents.
#[derive(Clone, Copy, PartialEq, Eq, Debug)]
pub struct Monomial {
    pub exponents: [u8; WIDTH],
}

impl Monomial {
    // The product of no variables.
    pub const ONE: Monomial = Monomial {
        exponents: [0; WIDTH],
    };

    // The product, or nothing where an exponent of it does not fit a byte.
    pub fn product(&self, other: &Monomial) -> Option<Monomial>
        ensures { MatchOption result (Bounded 255 (times self.now.exponents other.now.exponents) → ⊥) (λ m. (m.exponents ≡ times self.now.exponents other.now.exponents) × Bounded 255 (times self.now.exponents other.now.exponents)) }
    {
        // By index: `try_from_fn` promises that each member comes of a call of its closure, but not that the closure then
        // held these two monomials, so the proof does not close. An array of sums for `try_map` to open is no plainer.
        let mut exponents = [0; WIDTH];
        for i in 0..WIDTH {
            exponents[i] = self.exponents[i].checked_add(other.exponents[i])?;
        }
        Some(Monomial { exponents })
    }

    // Whether the two have the same exponents.
    pub fn is_same(&self, other: &Monomial) -> bool
        ensures { result ≡ same self.now.exponents other.now.exponents }
    {
        self == other
    }

    // Whether this monomial divides the other.
    pub fn divides(&self, other: &Monomial) -> bool
        ensures { Decides result (Divides self.now.exponents other.now.exponents) }
    {
        self.exponents
            .iter()
            .zip(&other.exponents)
            .all(|(mine, theirs)| mine <= theirs)
    }

    // The quotient, or nothing where the divisor does not divide this monomial.
    pub fn quotient(&self, divisor: &Monomial) -> Option<Monomial>
        ensures { MatchOption result (Divides divisor.now.exponents self.now.exponents → ⊥) (λ m. (m.exponents ≡ divided self.now.exponents divisor.now.exponents) × Divides divisor.now.exponents self.now.exponents) }
    {
        if !divisor.divides(self) {
            return None;
        }
        Some(Monomial {
            exponents: from_fn(|i| self.exponents[i].saturating_sub(divisor.exponents[i])),
        })
    }

    // The sum of the exponents.
    pub fn degree(&self) -> u16
        ensures { result ≡ degree_of self.now.exponents }
    {
        self.exponents.iter().map(|e| u16::from(*e)).sum()
    }
}

#[cfg(test)]
mod tests;
