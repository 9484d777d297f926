use calls::answer::{Step, Verdict};
use calls::calls::Calls;
use calls::refusal::Refusal;
use field::Field;
use field::four::Four;
use field::prime::Prime;
use monomial::Monomial;
use monomial::janet::Janet;
use monomial::lexicographic::Lexicographic;
use polynomial::ring::Ring;
use polynomial::term::Term;
use sheet::sheet::Sheet;
use sheet::unmade::Unmade;
use std::alloc::Global;
use std::test::Fail;

type Rules = Sheet<Prime, Lexicographic, Janet>;

// c x1^a x2^b
fn term(coefficient: u16, a: u8, b: u8) -> Term {
    Term {
        coefficient,
        monomial: Monomial {
            exponents: [a, b, 0, 0, 0, 0],
        },
    }
}

fn make(heap: Global, variables: usize) -> Result<Rules, Unmade> {
    match Prime::new(3) {
        None => Err(Unmade::Memory),
        Some(field) => {
            let ring = Ring {
                field,
                order: Lexicographic,
                variables,
            };
            Sheet::new(heap, ring, Janet)
        }
    }
}

fn told<T: Drop>(answer: Result<T, Refusal>) -> (u8, usize) {
    match answer {
        Ok(_) => (0, 0),
        Err(refusal) => (refusal.number(), refusal.place()),
    }
}

// x1^2 + 2 and x1 x2 + 2, closed after six steps; nothing where a call is denied.
fn closed(heap: Global) -> Option<Rules> {
    match make(heap, 2) {
        Err(_) => None,
        Ok(mut sheet) => {
            let first = sheet.add(&[term(1, 2, 0), term(2, 0, 0)]).is_ok();
            let second = sheet.add(&[term(1, 1, 1), term(2, 0, 0)]).is_ok();
            let mut all = first && second;
            for _ in 0..6 {
                all = sheet.step().is_ok() && all;
            }
            if all { Some(sheet) } else { None }
        }
    }
}

#[test]
fn too_few_lent_terms_stay(rt: HostRuntime) -> Result<(), Fail> {
    match closed(rt.alloc()) {
        None => Err(Fail::new("no closed sheet")),
        Some(mut sheet) => {
            let mut out = [term(7, 7, 7)];
            assert_eq!(rt; told(sheet.row(1, &mut out)), (14, 2));
            assert_eq!(rt; out[0].coefficient, 7);
            assert_eq!(rt;
                told(sheet.remainder(&[term(1, 1, 2)], &mut out[0..0])),
                (14, 1)
            );
            Ok(())
        }
    }
}

#[test]
fn too_few_lent_bytes_stay(rt: HostRuntime) -> Result<(), Fail> {
    match closed(rt.alloc()) {
        None => Err(Fail::new("no closed sheet")),
        Some(mut sheet) => {
            let mut bytes = [9u8; 37];
            assert_eq!(rt; told(sheet.fair_copy(&mut bytes)), (14, 38));
            assert_eq!(rt; bytes[0], 9);
            Ok(())
        }
    }
}

#[test]
fn what_stands_behind_stays(rt: HostRuntime) -> Result<(), Fail> {
    match closed(rt.alloc()) {
        None => Err(Fail::new("no closed sheet")),
        Some(mut sheet) => {
            let mut out = [term(7, 7, 7); 3];
            assert_eq!(rt; told(sheet.remainder(&[term(1, 1, 2)], &mut out)), (0, 0));
            assert_eq!(rt; out[0].coefficient, 1);
            assert_eq!(rt; out[0].monomial.exponents[1], 1);
            assert_eq!(rt; out[1].coefficient, 7);
            let mut bytes = [9u8; 40];
            assert_eq!(rt; told(sheet.fair_copy(&mut bytes)), (0, 0));
            assert_eq!(rt; bytes[37], 2);
            assert_eq!(rt; bytes[38], 9);
            Ok(())
        }
    }
}

#[test]
fn a_closed_sheet_takes_no_step(rt: HostRuntime) -> Result<(), Fail> {
    match closed(rt.alloc()) {
        None => Err(Fail::new("no closed sheet")),
        Some(mut sheet) => match sheet.step() {
            Ok(Step::Closed) => Ok(()),
            _ => Err(Fail::new("a step was made")),
        },
    }
}

#[test]
fn a_refused_add_leaves_the_sheet_closed(rt: HostRuntime) -> Result<(), Fail> {
    match closed(rt.alloc()) {
        None => Err(Fail::new("no closed sheet")),
        Some(mut sheet) => {
            assert_eq!(rt; told(sheet.add(&[term(3, 1, 0)])), (6, 1));
            match sheet.verdict() {
                Ok(verdict) => {
                    assert_eq!(rt; verdict, Verdict::Possible);
                    Ok(())
                },
                Err(_) => Err(Fail::new("the sheet is open")),
            }
        }
    }
}

#[test]
fn one_to_six_variables(rt: HostRuntime) -> Result<(), Fail> {
    match make(rt.alloc(), 0) {
        Ok(_) => return Err(Fail::new("a sheet of no variables")),
        Err(unmade) => assert_eq!(rt; unmade, Unmade::Variables),
    }
    match make(rt.alloc(), 7) {
        Ok(_) => return Err(Fail::new("a sheet of seven variables")),
        Err(unmade) => assert_eq!(rt; unmade, Unmade::Variables),
    }
    assert!(rt; make(rt.alloc(), 6).is_ok());
    Ok(())
}

// A sheet over the field of four elements with the rows x1 + 2 x2^b and x2^2 + 3; nothing where memory is wanting or a row is
// denied.
fn over_four(heap: Global, b: u8) -> Option<Sheet<Four, Lexicographic, Janet>> {
    let ring = Ring {
        field: Four,
        order: Lexicographic,
        variables: 2,
    };
    match Sheet::new(heap, ring, Janet) {
        Err(_) => None,
        Ok(mut sheet) => {
            let first = sheet.add(&[term(1, 1, 0), term(2, 0, b)]).is_ok();
            let second = sheet.add(&[term(1, 0, 2), term(3, 0, 0)]).is_ok();
            if first && second { Some(sheet) } else { None }
        }
    }
}

#[test]
fn reduces_to_a_constant(rt: HostRuntime) -> Result<(), Fail> {
    match over_four(rt.alloc(), 1) {
        None => Err(Fail::new("no sheet")),
        Some(mut sheet) => {
            // x2^2 + 3 times x1 reduces to zero, which closes the sheet.
            assert!(rt; sheet.step().is_ok());
            let mut out = [term(7, 7, 7); 2];
            // x1^2 = 3 x2^2 = 3 * 3 = 2
            assert_eq!(rt; told(sheet.remainder(&[term(1, 2, 0)], &mut out)), (0, 0));
            assert!(rt; out[..1] == [term(2, 0, 0)]);
            assert!(rt; out[1..] == [term(7, 7, 7)]);
            Ok(())
        }
    }
}

#[test]
fn refuses_an_exponent_above_40(rt: HostRuntime) -> Result<(), Fail> {
    match over_four(rt.alloc(), 40) {
        None => Err(Fail::new("no sheet")),
        Some(mut sheet) => {
            assert_eq!(rt; told(sheet.add(&[term(1, 1, 1)])), (9, 1));
            Ok(())
        }
    }
}
