// What is timed: completing a sheet, the fair copy of a complete one, and a remainder by it.
use crate::problem::Problem;
use crate::timing::{nanoseconds_since, time};
use anyhow::anyhow;
use calls::answer::{MOST_COPY_BYTES, Step};
use calls::calls::Calls;
use calls::refusal::Refusal;
use field::Field;
use monomial::Monomial;
use monomial::division::Division;
use monomial::order::Order;
use polynomial::check::MOST_TERMS;
use polynomial::ring::Ring;
use polynomial::term::Term;
use sheet::sheet::Sheet;
use std::time::Instant;

// No problem takes more steps than one steps command asks for.
const MOST_STEPS: u64 = 65_535;

// How large a complete sheet is, and how many steps led to it.
#[derive(Clone, Copy)]
pub(crate) struct Size {
    pub(crate) rows: u64,
    pub(crate) steps: u64,
}

// The size of a problem's sheet, and the nanoseconds that each piece of work takes.
#[derive(Clone, Copy)]
pub(crate) struct Figures {
    pub(crate) size: Size,
    pub(crate) completing: u64,
    pub(crate) copying: u64,
    pub(crate) remainder: u64,
}

fn incomplete(_refusal: Refusal) -> anyhow::Error {
    anyhow!("a sheet could not be completed")
}

// Adds the generators and steps until the sheet is closed.
fn complete<C: Calls>(sheet: &mut C, generators: &[Vec<Term>]) -> anyhow::Result<Size> {
    let mut rows: u64 = 0;
    for generator in generators {
        rows = sheet.add(generator.as_slice()).map_err(incomplete)? as u64;
    }
    for steps in 0..MOST_STEPS {
        match sheet.step().map_err(incomplete)? {
            Step::Closed => return Ok(Size { rows, steps }),
            Step::Marked => {}
            Step::Appended => rows = rows.saturating_add(1),
        }
    }
    Err(anyhow!("a sheet could not be completed"))
}

// Completing new sheets. The making is not timed.
fn repeat_completing<C: Calls + Drop, M: Fn() -> anyhow::Result<C>>(
    rt: &HostRuntime,
    new_sheet: &M,
    generators: &[Vec<Term>],
    times: u64,
) -> anyhow::Result<u64>
    requires { M.IsAlwaysCallable new_sheet.now }
{
    let mut sum: u64 = 0;
    for _ in 0..times {
        let mut sheet = new_sheet()?;
        let start = Instant::now(rt)?;
        let _ = complete(&mut sheet, generators)?;
        sum = sum.saturating_add(nanoseconds_since(rt, start)?);
    }
    Ok(sum)
}

// Doing the same work again and again.
fn repeat<T: Drop, W: FnMut() -> anyhow::Result<T>>(
    rt: &HostRuntime,
    mut work: W,
    times: u64,
) -> anyhow::Result<u64>
    requires { W.IsAlwaysCallable work }
{
    let start = Instant::now(rt)?;
    for _ in 0..times {
        let _ = work()?;
    }
    nanoseconds_since(rt, start)
}

// The figures of a problem over this ring and division.
pub(crate) fn measure<F: Field + Copy + Drop, O: Order + Copy + Drop, D: Division + Copy + Drop>(
    rt: &HostRuntime,
    ring: Ring<F, O>,
    division: D,
    problem: &Problem,
) -> anyhow::Result<Figures> {
    let heap = rt.alloc();
    let generators = problem.generators.as_slice();
    let new_sheet = || {
        Sheet::new(heap, ring, division).map_err(|_| anyhow!("a sheet could not be made"))
    };
    let completing = time(|times| repeat_completing(rt, &new_sheet, generators, times))?;
    let mut sheet = new_sheet()?;
    let size = complete(&mut sheet, generators)?;
    let mut bytes = vec![in heap; 0u8; MOST_COPY_BYTES]?;
    let copying = time(|times| {
        let copy = || {
            sheet
                .fair_copy(&mut bytes)
                .map_err(|_| anyhow!("a fair copy was refused"))
        };
        repeat(rt, copy, times)
    })?;
    let zero = Term {
        coefficient: 0,
        monomial: Monomial::ONE,
    };
    let mut terms = vec![in heap; zero; MOST_TERMS]?;
    let probe = problem.probe.as_slice();
    let remainder = time(|times| {
        let remain = || {
            sheet
                .remainder(probe, &mut terms)
                .map_err(|_| anyhow!("a remainder was refused"))
        };
        repeat(rt, remain, times)
    })?;
    Ok(Figures {
        size,
        completing,
        copying,
        remainder,
    })
}
