// Lexicographic order: the first exponent that differs decides, and the larger is greater.
ghost use Rattle.std.specs.Prelude.{◌≡◌};
ghost use Rattle.monomial.specs.Order.{lexicographic};
ghost use Rattle.monomial.specs.Orders.{lexicographic_laws};

use crate::Monomial;
use crate::order::Order;
use std::cmp::Ordering;

#[derive(Clone, Copy)]
pub struct Lexicographic;

impl Order for Lexicographic {
    ghost meaning = { λ _. lexicographic };

    ghost laws = { λ x. lexicographic_laws };

    fn compare(&self, a: &Monomial, b: &Monomial) -> Ordering {
        compare_exponents(a, b)
    }
}

// By the first exponent that differs.
pub(crate) fn compare_exponents(a: &Monomial, b: &Monomial) -> Ordering
    ensures { result ≡ lexicographic a.now.exponents b.now.exponents }
{
    a.exponents.cmp(&b.exponents)
}
