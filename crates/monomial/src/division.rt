// An involutive division: it tells which variables are multiplicative for a member of a list of monomials.
ghost use Rattle.std.specs.Prelude.{◌≡◌, ℕ, ◌-◌, ◌≤◌, length, MatchOption, slice_index_or};
ghost use Rattle.monomial.specs.Monomial.{width};
ghost use Rattle.monomial.specs.Division.{Split, DivisionLaws, Within, agrees, largest};
ghost use Rattle.monomial.specs.Lists.{exponents_of};

use crate::{Monomial, WIDTH};

pub trait Division {
    // The number by which a sheet's command names the division.
    const CODE: u8;

    ghost number: { ℕ };

    // What the division answers, for lists and exponents of any size.
    ghost meaning: { Self → Split };

    // No clause can speak of a constant, so a method tells what it is.
    fn read_code() -> u8
        ensures { result ≡ number };

    // Whether the variable is multiplicative for the member, both counted from 1; nothing where the list has no such
    // member or the variable is not 1 to 6.
    fn multiplicative(&self, list: &[Monomial], member: usize, variable: usize) -> Option<bool>
        ensures { result ≡ meaning self.now (exponents_of list.now) member variable };

    ghost laws: { (x : Self) → DivisionLaws (meaning x) };
}

// The member, where there is one and the variable is one of the six.
pub(crate) fn find_member(list: &[Monomial], member: usize, variable: usize) -> Option<Monomial>
    ensures { MatchOption result (Within member (length list.now) × Within variable width → ⊥) (λ u. (u ≡ slice_index_or list.now (member - 1) u) × (Within member (length list.now) × Within variable width)) }
{
    if member == 0 || variable == 0 || variable > WIDTH {
        return None;
    }
    list.get(member - 1).copied()
}

// Whether two monomials have the same exponents in the first variables.
pub(crate) fn agree(a: &Monomial, b: &Monomial, count: usize) -> bool
    requires { count ≤ width }
    ensures { result ≡ agrees count b.now.exponents a.now.exponents }
{
    a.exponents[..count] == b.exponents[..count]
}

// What a division answers of a member. The two here share this and `find_member` and no more: one function over both would
// have to be told how many variables stand before one that is none.
//
// Whether no member that has u's exponents in the first `before` variables has a larger exponent of the variable.
pub(crate) fn is_largest(list: &[Monomial], u: &Monomial, variable: usize, before: usize) -> bool
    requires { Within variable width × (before ≤ width) }
    ensures { result ≡ largest (agrees before u.now.exponents) (exponents_of list.now) variable u.now.exponents }
{
    let place = variable - 1;
    // The exponent first: comparing that alone mostly tells.
    list.iter().all(|w| w.exponents[place] <= u.exponents[place] || !agree(w, u, before))
}
