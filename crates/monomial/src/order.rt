// An order of monomials: it compares any two, and always answers.
ghost use Rattle.std.specs.Prelude.{◌≡◌};
ghost use Rattle.monomial.specs.Order.{Compare, OrderLaws};

use crate::Monomial;
use std::cmp::Ordering;

pub trait Order {
    // How the order compares two lists of exponents of any size.
    ghost meaning: { Self → Compare };

    fn compare(&self, a: &Monomial, b: &Monomial) -> Ordering
        ensures { result ≡ meaning self.now a.now.exponents b.now.exponents };

    ghost laws: { (x : Self) → OrderLaws (meaning x) };
}

// An order that is lent is an order.
impl<O: Order> Order for &O {
    ghost meaning = { λ x. O.Order.meaning x.now };

    ghost laws = { λ x. O.Order.laws x.now };

    fn compare(&self, a: &Monomial, b: &Monomial) -> Ordering {
        (**self).compare(a, b)
    }
}
