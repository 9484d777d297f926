// Degree lexicographic order: the larger sum of exponents is greater; at equal sums the order is lexicographic.
ghost use Rattle.std.specs.Prelude.{◌≡◌};
ghost use Rattle.monomial.specs.Order.{degree_lexicographic};
ghost use Rattle.monomial.specs.Orders.{degree_lexicographic_laws};

use crate::Monomial;
use crate::lexicographic::compare_exponents;
use crate::order::Order;
use std::cmp::Ordering;

#[derive(Clone, Copy)]
pub struct DegreeLexicographic;

impl Order for DegreeLexicographic {
    ghost meaning = { λ _. degree_lexicographic };

    ghost laws = { λ x. degree_lexicographic_laws };

    fn compare(&self, a: &Monomial, b: &Monomial) -> Ordering {
        // As in the other graded order but for what breaks the tie: a function over that would be no shorter.
        a.degree()
            .cmp(&b.degree())
            .then_with(|| compare_exponents(a, b))
    }
}
