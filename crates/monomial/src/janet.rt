// Janet's division: a variable is multiplicative for u where its exponent in u is the largest among the members that
// agree with u in all variables before it.
ghost use Rattle.std.specs.Prelude.{◌≡◌};
ghost use Rattle.monomial.specs.Division.{janet as by_janet};
ghost use Rattle.monomial.specs.Divisions.{janet_laws};

use crate::Monomial;
use crate::division::{Division, find_member, is_largest};

#[derive(Clone, Copy)]
pub struct Janet;

impl Division for Janet {
    const CODE: u8 = 1;

    ghost number = { 1 };

    ghost meaning = { λ _. by_janet };

    ghost laws = { λ x. janet_laws };

    fn read_code() -> u8 {
        Self::CODE
    }

    fn multiplicative(&self, list: &[Monomial], member: usize, variable: usize) -> Option<bool> {
        let u = find_member(list, member, variable)?;
        Some(is_largest(list, &u, variable, variable - 1))
    }
}
