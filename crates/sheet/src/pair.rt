// A row and a variable of a sheet, by their numbers.
ghost use Rattle.monomial.specs.Division.{Within};
ghost use Rattle.monomial.specs.Monomial.{width};
ghost use Rattle.involutive.specs.Sheet.{most_rows};

// Both count from 1, up to the most rows and the most variables of any sheet.
#[derive(Clone, Copy)]
pub(crate) struct Pair {
    pub(crate) row: usize,
    pub(crate) variable: usize,
    ghost in_rows: { Within row most_rows },
    ghost in_variables: { Within variable width },
}
