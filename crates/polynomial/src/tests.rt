use crate::bytes::{NoRun, read_run, write_terms};
use crate::refusal::Refusal;
use crate::ring::Ring;
use crate::term::Term;
use field::four::Four;
use monomial::Monomial;
use monomial::lexicographic::Lexicographic;
use std::test::Fail;

fn ring() -> Ring<Four, Lexicographic> {
    Ring {
        field: Four,
        order: Lexicographic,
        variables: 2,
    }
}

fn power(coefficient: u16, exponent: u8) -> Term {
    Term {
        coefficient,
        monomial: Monomial {
            exponents: [exponent, 0, 0, 0, 0, 0],
        },
    }
}

// x1^40 + x1^39 + … + x1, with 40 terms.
fn longest() -> [Term; 40] {
    let mut terms = [power(1, 40); 40];
    for i in 0..40u8 {
        terms[i as usize] = power(1, 40 - i);
    }
    terms
}

// What the checks say of it where the term with that number is another.
fn with_term(number: usize, term: Term) -> Result<(), Refusal> {
    let mut terms = longest();
    if number > 0 && number <= 40 {
        terms[number - 1] = term;
    }
    ring().check(&terms)
}

#[test]
fn accepts_the_longest(rt: HostRuntime) {
    assert_eq!(rt; with_term(0, power(1, 0)), Ok(()));
    assert_eq!(rt; ring().check(&[]), Ok(()));
    let terms = [power(1, 1); 41];
    assert_eq!(rt; ring().check(&terms), Err(Refusal::TooManyTerms));
}

#[test]
fn refuses_coefficients(rt: HostRuntime) {
    assert_eq!(rt; with_term(1, power(0, 40)), Err(Refusal::Coefficient(1)));
    assert_eq!(rt; with_term(40, power(4, 1)), Err(Refusal::Coefficient(40)));
}

#[test]
fn refuses_exponents(rt: HostRuntime) {
    assert_eq!(rt; with_term(1, power(1, 41)), Err(Refusal::Exponent(1)));
    let mut last = power(1, 1);
    last.monomial.exponents[2] = 1;
    assert_eq!(rt; with_term(40, last), Err(Refusal::Exponent(40)));
}

// The first term has none before it, so the second is the first that may fail to fall.
#[test]
fn refuses_rising_terms(rt: HostRuntime) {
    assert_eq!(rt; with_term(2, power(1, 40)), Err(Refusal::NotFalling(2)));
    assert_eq!(rt; with_term(40, power(1, 2)), Err(Refusal::NotFalling(40)));
}

// 2·x1² + 3, byte by byte.
const TWO_TERMS: [u8; 18] = [1, 0, 2, 2, 0, 0, 0, 0, 0, 1, 0, 3, 0, 0, 0, 0, 0, 0];

#[test]
fn writes_to_the_front(rt: HostRuntime) {
    let terms = [power(2, 2), power(3, 0)];
    let mut out = [7; 20];
    assert!(rt; write_terms(&terms, &mut out[0..17]).is_err());
    assert_eq!(rt; write_terms(&terms, &mut out).is_ok(), true);
    assert!(rt; out[0..18] == TWO_TERMS[0..18]);
    assert!(rt; out[18] == 7 && out[19] == 7);
}

#[test]
fn reads_at_every_length(rt: HostRuntime) -> Result<(), Fail> {
    for n in 0..19usize {
        match read_run(rt.alloc(), &TWO_TERMS[0..n]) {
            Ok((terms, rest)) => assert!(rt; n % 9 == 0 && terms.len() == n / 9 && rest.len() == 0),
            Err(NoRun::Cut(at)) => assert!(rt; n % 9 != 0 && at == n / 9 * 9),
            Err(NoRun::Memory) => return Err(Fail::new("no memory")),
        }
    }
    Ok(())
}
