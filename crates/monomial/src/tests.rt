use super::*;
use crate::degree_lexicographic::DegreeLexicographic;
use crate::degree_reverse::DegreeReverse;
use crate::division::Division;
use crate::janet::Janet;
use crate::lexicographic::Lexicographic;
use crate::order::Order;
use crate::thomas::Thomas;
use std::cmp::Ordering;
use std::test::Fail;

fn powers(exponents: [u8; 6]) -> Monomial {
    Monomial { exponents }
}

// Whether x1 and x2 are multiplicative for each of x1²x2, x1x2² and x2⁴.
fn split<D: Division>(division: &D) -> [Option<bool>; 6] {
    let list = [
        powers([2, 1, 0, 0, 0, 0]),
        powers([1, 2, 0, 0, 0, 0]),
        powers([0, 4, 0, 0, 0, 0]),
    ];
    [
        division.multiplicative(&list, 1, 1),
        division.multiplicative(&list, 1, 2),
        division.multiplicative(&list, 2, 1),
        division.multiplicative(&list, 2, 2),
        division.multiplicative(&list, 3, 1),
        division.multiplicative(&list, 3, 2),
    ]
}

#[test]
fn janet_splits_three_members(rt: HostRuntime) {
    let expected = [
        Some(true),
        Some(true),
        Some(false),
        Some(true),
        Some(false),
        Some(true),
    ];
    assert_eq!(rt; split(&Janet), expected);
}

#[test]
fn thomas_splits_three_members(rt: HostRuntime) {
    let expected = [
        Some(true),
        Some(false),
        Some(false),
        Some(false),
        Some(false),
        Some(true),
    ];
    assert_eq!(rt; split(&Thomas), expected);
}

#[test]
fn divisions_refuse_strangers(rt: HostRuntime) {
    let list = [powers([1, 0, 0, 0, 0, 0])];
    assert_eq!(rt; Janet.multiplicative(&list, 0, 1), None);
    assert_eq!(rt; Janet.multiplicative(&list, 2, 1), None);
    assert_eq!(rt; Janet.multiplicative(&list, 1, 0), None);
    assert_eq!(rt; Janet.multiplicative(&list, 1, 7), None);
    assert_eq!(rt; Thomas.multiplicative(&list, 2, 1), None);
    assert_eq!(rt; Thomas.multiplicative(&list, 1, 7), None);
    assert_eq!(rt; Thomas.multiplicative(&list, 1, 6), Some(true));
}

#[test]
fn divisions_have_their_codes(rt: HostRuntime) {
    assert_eq!(rt; <Janet as Division>::read_code(), 1);
    assert_eq!(rt; <Thomas as Division>::read_code(), 2);
}

// x1·x3 stands above x2² in the first two orders, and below it in the third.
#[test]
fn orders_differ(rt: HostRuntime) {
    let a = powers([1, 0, 1, 0, 0, 0]);
    let b = powers([0, 2, 0, 0, 0, 0]);
    assert_eq!(rt; Lexicographic.compare(&a, &b), Ordering::Greater);
    assert_eq!(rt; DegreeLexicographic.compare(&a, &b), Ordering::Greater);
    assert_eq!(rt; DegreeReverse.compare(&a, &b), Ordering::Less);
    assert_eq!(rt; Lexicographic.compare(&b, &a), Ordering::Less);
    assert_eq!(rt; DegreeReverse.compare(&b, &b), Ordering::Equal);
}

#[test]
fn products_and_quotients(rt: HostRuntime) -> Result<(), Fail> {
    let a = powers([255, 1, 0, 0, 0, 3]);
    let b = powers([1, 1, 0, 0, 0, 0]);
    assert!(rt; a.product(&b).is_none());
    let c = b.product(&powers([254, 0, 0, 0, 0, 3])).ok_or("too large")?;
    assert_eq!(rt; c.degree(), 259);
    assert!(rt; b.divides(&a));
    assert!(rt; !a.divides(&b));
    let q = a.quotient(&b).ok_or("no divisor")?;
    assert_eq!(rt; q.degree(), 257);
    assert!(rt; b.quotient(&a).is_none());
    Ok(())
}
