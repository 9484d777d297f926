ghost use Rattle.std.specs.Prelude.{◌≡◌, ℕ};
ghost use Rattle.field.specs.Field.{FieldMeaning};

use crate::choose::{Task, choose};
use crate::operands::Operands;
use crate::unnamed::Unnamed;
use field::Field;
use monomial::Monomial;
use monomial::division::Division;
use monomial::order::Order;
use polynomial::ring::Ring;
use std::cmp::Ordering;
use std::test::Fail;

// What is seen of a choice: the size of the field, how the order compares x1 and x1 x3 with x2², whether x2 is
// multiplicative for the first of x1 and x2, and the number of variables.
#[derive(Clone, Copy, PartialEq, Eq, Debug)]
struct Seen {
    size: u16,
    first: Ordering,
    second: Ordering,
    multiplicative: Option<bool>,
    variables: usize,
}

#[derive(Drop)]
struct Look;

fn monomial(exponents: [u8; 6]) -> Monomial {
    Monomial { exponents }
}

impl Task for Look {
    type Done = Seen;

    ghost gives = { λ _ F _ _ n seen. (seen.size ≡ F.q) × (seen.variables ≡ n) };

    fn run<F: Field + Copy + Drop, O: Order + Copy + Drop, D: Division + Copy + Drop>(
        self,
        ring: Ring<F, O>,
        division: D,
    ) -> Seen {
        let square = monomial([0, 2, 0, 0, 0, 0]);
        let list = [monomial([1, 0, 0, 0, 0, 0]), monomial([0, 1, 0, 0, 0, 0])];
        Seen {
            size: ring.field.size(),
            first: ring.order.compare(&list[0], &square),
            second: ring.order.compare(&monomial([1, 0, 1, 0, 0, 0]), &square),
            multiplicative: division.multiplicative(&list, 1, 2),
            variables: ring.variables,
        }
    }
}

fn seen_under(bytes: [u8; 6]) -> Result<Seen, Unnamed> {
    choose(Operands::new(&bytes), Look)
}

#[test]
fn operands_have_the_high_byte_first(rt: HostRuntime) {
    let expected = Operands {
        kind: 1,
        modulus: 258,
        variables: 3,
        order: 4,
        division: 5,
    };
    assert_eq!(rt; Operands::new(&[1, 1, 2, 3, 4, 5]), expected);
}

#[test]
fn a_prime_field_lexicographic_by_janet(rt: HostRuntime) {
    let expected = Seen {
        size: 3,
        first: Ordering::Greater,
        second: Ordering::Greater,
        multiplicative: Some(true),
        variables: 2,
    };
    assert_eq!(rt; seen_under([1, 0, 3, 2, 1, 1]), Ok(expected));
}

#[test]
fn four_elements_degree_lexicographic_by_thomas(rt: HostRuntime) {
    let expected = Seen {
        size: 4,
        first: Ordering::Less,
        second: Ordering::Greater,
        multiplicative: Some(false),
        variables: 6,
    };
    assert_eq!(rt; seen_under([2, 0, 4, 6, 2, 2]), Ok(expected));
}

#[test]
fn the_largest_prime_degree_reverse(rt: HostRuntime) {
    let expected = Seen {
        size: 251,
        first: Ordering::Less,
        second: Ordering::Less,
        multiplicative: Some(true),
        variables: 1,
    };
    assert_eq!(rt; seen_under([1, 0, 251, 1, 3, 1]), Ok(expected));
}

// In each line all that follows is wrong too.
#[test]
fn the_first_that_is_missing_is_told(rt: HostRuntime) {
    assert_eq!(rt; seen_under([0, 0, 3, 0, 0, 0]), Err(Unnamed::Field));
    assert_eq!(rt; seen_under([3, 0, 3, 7, 4, 3]), Err(Unnamed::Field));
    assert_eq!(rt; seen_under([1, 0, 4, 0, 0, 0]), Err(Unnamed::Field));
    assert_eq!(rt; seen_under([1, 3, 0, 0, 0, 0]), Err(Unnamed::Field));
    assert_eq!(rt; seen_under([2, 0, 2, 0, 0, 0]), Err(Unnamed::Field));
    assert_eq!(rt; seen_under([1, 0, 3, 0, 0, 0]), Err(Unnamed::Variables));
    assert_eq!(rt; seen_under([2, 0, 4, 7, 4, 3]), Err(Unnamed::Variables));
    assert_eq!(rt; seen_under([1, 0, 3, 1, 0, 0]), Err(Unnamed::Order));
    assert_eq!(rt; seen_under([1, 0, 3, 6, 4, 3]), Err(Unnamed::Order));
    assert_eq!(rt; seen_under([1, 0, 3, 2, 3, 0]), Err(Unnamed::Division));
    assert_eq!(rt; seen_under([1, 0, 3, 2, 1, 3]), Err(Unnamed::Division));
}

#[test]
fn what_is_missing_in_words(rt: HostRuntime) {
    let heap = rt.alloc();
    let text = format!(in heap;
        "{}, {}, {}, {}",
        Unnamed::Field,
        Unnamed::Variables,
        Unnamed::Order,
        Unnamed::Division
    );
    let expected = "no such field, not 1 to 6 variables, no such order, no such division";
    assert_eq!(rt; text.expect(&rt, "memory").as_str(), expected);
}
