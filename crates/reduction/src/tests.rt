use crate::search::find_reducible;
use crate::table::{Lead, Row};
use monomial::Monomial;
use polynomial::term::Term;
use std::alloc::{AllocError, Global};
use std::test::Fail;

// c x1^a x2^b
fn power(coefficient: u16, a: u8, b: u8) -> Term {
    Term {
        coefficient,
        monomial: Monomial {
            exponents: [a, b, 0, 0, 0, 0],
        },
    }
}

fn row(
    heap: Global,
    first: Term,
    second: Term,
    multiplicative: [bool; 6],
) -> Result<Row, AllocError> {
    let mut terms = Vec::with_capacity(heap, 2)?;
    terms.push_reserved(first);
    terms.push_reserved(second);
    let lead = Lead {
        monomial: first.monomial,
        multiplicative,
    };
    Ok(Row { terms, lead })
}

// x1 + 2 x2 and x2^2 + 3; x1 is not multiplicative for the second.
fn table(heap: Global) -> Result<Vec<Row>, AllocError> {
    let all = [true, true, true, true, true, true];
    let few = [false, true, true, true, true, true];
    let mut rows = Vec::with_capacity(heap, 2)?;
    rows.push_reserved(row(heap, power(1, 1, 0), power(2, 0, 1), all)?);
    rows.push_reserved(row(heap, power(1, 0, 2), power(3, 0, 0), few)?);
    Ok(rows)
}

#[test]
fn asks_for_multiplicative_variables(rt: HostRuntime) -> Result<(), Fail> {
    let rows = table(rt.alloc())?;
    assert_eq!(rt;
        find_reducible(rows.as_slice(), &[power(1, 0, 1), power(1, 0, 3)]),
        Some((1, 1))
    );
    assert_eq!(rt;
        find_reducible(&rows.as_slice()[1..], &[power(1, 1, 3)]),
        None
    );
    Ok(())
}
