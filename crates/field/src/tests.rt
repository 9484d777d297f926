use crate::Field;
use crate::four::Four;
use crate::prime::Prime;
use std::test::Fail;

#[test]
fn four_elements(rt: HostRuntime) {
    assert_eq!(rt; Four.add(2, 3), Some(1));
    assert_eq!(rt; Four.mul(2, 2), Some(3));
    assert_eq!(rt; Four.mul(2, 3), Some(1));
    assert_eq!(rt; Four.mul(3, 3), Some(2));
    assert_eq!(rt; Four.inv(2), Some(3));
}

#[test]
fn four_refuses(rt: HostRuntime) {
    assert_eq!(rt; Four.add(3, 4), None);
    assert_eq!(rt; Four.neg(4), None);
    assert_eq!(rt; Four.mul(4, 3), None);
    assert_eq!(rt; Four.inv(4), None);
    assert_eq!(rt; Four.inv(0), None);
}

#[test]
fn modulo_seven(rt: HostRuntime) -> Result<(), Fail> {
    let Some(seven) = Prime::new(7) else {
        return Err(Fail::new("7 is a prime"));
    };
    assert_eq!(rt; seven.size(), 7);
    assert_eq!(rt; seven.inv(3), Some(5));
    assert_eq!(rt; seven.add(6, 7), None);
    assert_eq!(rt; seven.neg(7), None);
    assert_eq!(rt; seven.mul(7, 6), None);
    assert_eq!(rt; seven.inv(7), None);
    assert_eq!(rt; seven.inv(0), None);
    Ok(())
}

#[test]
fn which_are_primes(rt: HostRuntime) {
    assert!(rt; Prime::new(2).is_some());
    assert!(rt; Prime::new(251).is_some());
    for n in [0, 1, 4, 9, 252, 253, 257] {
        assert!(rt; Prime::new(n).is_none());
    }
}
