// Thomas's division: a variable is multiplicative for u where its exponent in u is the largest among all members.
ghost use Rattle.std.specs.Prelude.{◌≡◌};
ghost use Rattle.monomial.specs.Division.{thomas as by_thomas};
ghost use Rattle.monomial.specs.Divisions.{thomas_laws};

use crate::Monomial;
use crate::division::{Division, find_member, is_largest};

#[derive(Clone, Copy)]
pub struct Thomas;

impl Division for Thomas {
    const CODE: u8 = 2;

    ghost number = { 2 };

    ghost meaning = { λ _. by_thomas };

    ghost laws = { λ x. thomas_laws };

    fn read_code() -> u8 {
        Self::CODE
    }

    fn multiplicative(&self, list: &[Monomial], member: usize, variable: usize) -> Option<bool> {
        let u = find_member(list, member, variable)?;
        Some(is_largest(list, &u, variable, 0))
    }
}
