// Measuring a problem over the field, the order and the division that it names.
use crate::figures::{Figures, measure};
use crate::problem::Problem;
use choice::choose::{Task, choose};
use choice::operands::Operands;
use choice::unnamed::Unnamed;
use field::Field;
use monomial::division::Division;
use monomial::order::Order;
use polynomial::ring::Ring;

#[derive(Clone, Copy)]
struct Measuring<'a> {
    rt: &'a HostRuntime,
    problem: &'a Problem,
}

impl Task for Measuring<'_> {
    type Done = anyhow::Result<Figures>;

    // Nothing is promised of times.
    ghost gives = { λ _ _ _ _ _ _. Unit {0} };

    fn run<F: Field + Copy + Drop, O: Order + Copy + Drop, D: Division + Copy + Drop>(
        self,
        ring: Ring<F, O>,
        division: D,
    ) -> anyhow::Result<Figures> {
        measure(self.rt, ring, division, self.problem)
    }
}

// The operands under which a problem is measured: its kind counts only where it tells four elements from a prime.
fn with_kind(operands: Operands) -> Operands {
    match (operands.kind, operands.modulus) {
        (2, 4) => operands,
        _ => Operands {
            kind: 1,
            ..operands
        },
    }
}

// What keeps a problem from being measured. Of the number of variables that is said last, since a sheet is made last.
fn describe(operands: Operands, unnamed: Unnamed) -> &'static str {
    let has_order = matches!(operands.order, 1..=3);
    let has_division = matches!(operands.division, 1..=2);
    match unnamed {
        Unnamed::Field => "a problem names no field",
        Unnamed::Variables if has_order && has_division => "a sheet could not be made",
        Unnamed::Variables if has_order => "a problem names no division",
        Unnamed::Variables | Unnamed::Order => "a problem names no order",
        Unnamed::Division => "a problem names no division",
    }
}

// The figures of a problem.
pub(crate) fn measure_problem(rt: &HostRuntime, problem: &Problem) -> anyhow::Result<Figures> {
    let operands = with_kind(problem.operands);
    choose(operands, Measuring { rt, problem }).map_err(|unnamed| anyhow::Error::msg(describe(
        operands, unnamed,
    )))?
}
