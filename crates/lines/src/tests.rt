use super::*;
use monomial::Monomial;
use std::test::Fail;

// The line of a granted remainder x2, at offset 57.
#[test]
fn remainder_line(rt: HostRuntime) -> Result<(), Fail> {
    let mut out = Vec::new(rt.alloc());
    let terms = [Term {
        coefficient: 1,
        monomial: Monomial {
            exponents: [0, 1, 0, 0, 0, 0],
        },
    }];
    let line = Line {
        at: 57,
        byte: 4,
        number: 0,
        value: 1,
        more: More::Terms(&terms),
    };
    line.write_to(&mut out)?;
    assert!(rt; out.as_slice() == b"57 04 0 1 010001000100000000\n".as_slice());
    Ok(())
}

// A step that is denied for its operands, with no step before it.
#[test]
fn steps_line(rt: HostRuntime) -> Result<(), Fail> {
    let mut out = Vec::new(rt.alloc());
    let line = Line {
        at: 7,
        byte: 3,
        number: 16,
        value: 7,
        more: More::Count(0),
    };
    line.write_to(&mut out)?;
    assert!(rt; out.as_slice() == b"7 03 16 7 0\n".as_slice());
    Ok(())
}
