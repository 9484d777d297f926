// Degree reverse lexicographic order: the larger sum of exponents is greater; at equal sums the last exponent that
// differs decides, and the smaller is greater.
ghost use Rattle.std.specs.Prelude.{◌≡◌, reverse};
ghost use Rattle.std.specs.Ordering.{ordering_reverse};
ghost use Rattle.monomial.specs.Digits.{Digits, spelled};
ghost use Rattle.monomial.specs.Order.{lexicographic, degree_reverse};
ghost use Rattle.monomial.specs.Orders.{degree_reverse_laws};

use crate::Monomial;
use crate::order::Order;
use std::cmp::Ordering;

#[derive(Clone, Copy)]
pub struct DegreeReverse;

impl Order for DegreeReverse {
    ghost meaning = { λ _. degree_reverse };

    ghost laws = { λ x. degree_reverse_laws };

    fn compare(&self, a: &Monomial, b: &Monomial) -> Ordering {
        a.degree()
            .cmp(&b.degree())
            .then_with(|| compare_from_last(a, b))
    }
}

// By the last exponent that differs: the smaller is greater.
fn compare_from_last(a: &Monomial, b: &Monomial) -> Ordering
    ensures { result ≡ ordering_reverse (lexicographic (reverse a.now.exponents) (reverse b.now.exponents)) }
{
    spell_from_last(b).cmp(&spell_from_last(a))
}

// The number that the exponents spell as digits in base 256, the last of them the highest: two such numbers are compared at
// once, and not exponent by exponent. The lexicographic order does not do so: there the digits would have to be turned around
// first, and that took longer.
fn spell_from_last(m: &Monomial) -> u64
    ensures number { result ≡ spelled (reverse m.now.exponents) }
    ensures digits { Digits m.now.exponents }
{
    let [a, b, c, d, e, f] = m.exponents;
    u64::from_le_bytes([a, b, c, d, e, f, 0, 0])
}
