// A table as people write it.
ghost use Rattle.std.specs.Prelude.{◌≡◌, ◌++◌, [], codes, length, Some as the, vec_items};
ghost use Rattle.monomial.specs.Lists.{exponents_of};
ghost use Rattle.stored.specs.Rows.{polys};
ghost use Rattle.stored.specs.Text.{power_text, powers_text, has_coefficient as shows_coefficient, term_text, poly_text, is_multiplicative, variables_text, row_text, rows_text, order_text, division_text, setting_text};

use crate::row::Row;
use choice::operands::Operands;
use monomial::Monomial;
use monomial::division::Division;
use polynomial::term::Term;
use std::fmt;

// A table whose rows have those leading monomials, in a list of their own since that is what a division is asked about.
#[derive(Clone, Copy)]
pub(crate) struct Table<'a, D> {
    pub(crate) operands: Operands,
    pub(crate) division: &'a D,
    pub(crate) leaders: &'a [Monomial],
    pub(crate) rows: &'a [Row],
}

impl<D: Division> Table<'_, D> {
    // Whether the variable is multiplicative for the row, each told by its number.
    fn is_multiplicative(&self, row: usize, variable: usize) -> bool
        ensures { result ≡ is_multiplicative (D.Division.meaning self.now.division.now) (exponents_of self.now.leaders.now) row variable }
    {
        self.division
            .multiplicative(self.leaders, row, variable)
            .unwrap_or(false)
    }
}

// One power of a monomial: x2, or x2^3.
#[derive(Clone, Copy)]
struct Power {
    variable: usize,
    exponent: u8,
}

impl fmt::Display for Power {
    ghost output = { λ power. the (power_text power.variable power.exponent) };

    fn fmt<W: fmt::Write>(&self, f: &mut fmt::Formatter<W>) -> fmt::Result {
        let variable = self.variable;
        match self.exponent {
            1 => write!(f, "x{variable}"),
            exponent => write!(f, "x{variable}^{exponent}"),
        }
    }
}

// The powers of a monomial by its exponents; the mark parts the first from what stands before it.
#[derive(Clone, Copy)]
struct Powers<'a> {
    mark: &'static str,
    exponents: &'a [u8],
}

impl fmt::Display for Powers<'_> {
    ghost output = { λ powers. the (powers_text 1 powers.mark.now powers.exponents.now) };

    fn fmt<W: fmt::Write>(&self, f: &mut fmt::Formatter<W>) -> fmt::Result {
        let mut mark = self.mark;
        for (i, exponent) in self.exponents.iter().enumerate() {
            if *exponent > 0 {
                let power = Power {
                    variable: i + 1,
                    exponent: *exponent,
                };
                write!(f, "{mark}{power}")?;
                mark = "*";
            }
        }
        Ok(())
    }
}

// The coefficient is written unless it is 1 before a power.
fn has_coefficient(term: &Term) -> bool
    ensures { result ≡ shows_coefficient term.now }
{
    term.monomial.degree() == 0 || term.coefficient != 1
}

// A term: its coefficient, where it is written, and its powers.
#[derive(Clone, Copy)]
struct Written<'a>(&'a Term);

impl fmt::Display for Written<'_> {
    ghost output = { λ written. the (term_text written.0.now) };

    fn fmt<W: fmt::Write>(&self, f: &mut fmt::Formatter<W>) -> fmt::Result {
        let coefficient = self.0.coefficient;
        let exponents = &self.0.monomial.exponents;
        if has_coefficient(self.0) {
            let powers = Powers {
                mark: "*",
                exponents,
            };
            write!(f, "{coefficient}{powers}")
        } else {
            let powers = Powers {
                mark: "",
                exponents,
            };
            write!(f, "{powers}")
        }
    }
}

// A polynomial as a sum of its terms.
#[derive(Clone, Copy)]
struct Sum<'a>(&'a [Term]);

impl fmt::Display for Sum<'_> {
    ghost output = { λ sum. the (poly_text sum.0.now) };

    fn fmt<W: fmt::Write>(&self, f: &mut fmt::Formatter<W>) -> fmt::Result {
        let [first, behind @ ..] = self.0 else {
            return write!(f, "0");
        };
        write!(f, "{}", Written(first))?;
        for term in behind {
            write!(f, " + {}", Written(term))?;
        }
        Ok(())
    }
}

// The multiplicative variables of a row.
#[derive(Clone, Copy)]
struct Variables<'t, 'a, D> {
    table: &'t Table<'a, D>,
    row: usize,
}

impl<D: Division> fmt::Display for Variables<'_, '_, D> {
    ghost output = { λ x. the (variables_text (is_multiplicative (D.Division.meaning x.table.now.division.now) (exponents_of x.table.now.leaders.now) x.row) 1 [] x.table.now.operands.variables) };

    fn fmt<W: fmt::Write>(&self, f: &mut fmt::Formatter<W>) -> fmt::Result {
        let mut mark = "";
        for number in 1..=usize::from(self.table.operands.variables) {
            if self.table.is_multiplicative(self.row, number) {
                write!(f, "{mark}x{number}")?;
                mark = ", ";
            }
        }
        Ok(())
    }
}

// A row's number, its polynomial and its multiplicative variables.
#[derive(Clone, Copy)]
struct Line<'t, 'a, D> {
    table: &'t Table<'a, D>,
    number: usize,
    row: &'a Row,
}

impl<D: Division> fmt::Display for Line<'_, '_, D> {
    ghost output = { λ x. the (row_text (D.Division.meaning x.table.now.division.now) (exponents_of x.table.now.leaders.now) x.table.now.operands.variables x.number (vec_items x.row.now.terms)) };

    fn fmt<W: fmt::Write>(&self, f: &mut fmt::Formatter<W>) -> fmt::Result {
        let number = self.number;
        let sum = Sum(self.row.terms.as_slice());
        let variables = Variables {
            table: self.table,
            row: number,
        };
        write!(f, "{number}: {sum} {{{variables}}}\n")
    }
}

// The order and the division are known to their traits by what they answer alone: their names come by the operands.
fn order_name(code: u8) -> &'static str
    ensures { result.now ≡ order_text code }
{
    match code {
        1 => "lex",
        2 => "deglex",
        _ => "degrevlex",
    }
}

fn division_name(code: u8) -> &'static str
    ensures { result.now ≡ division_text code }
{
    match code {
        1 => "Janet",
        _ => "Thomas",
    }
}

// The line on the setting of a table with that many rows.
#[derive(Clone, Copy)]
struct Heading {
    operands: Operands,
    rows: usize,
}

impl fmt::Display for Heading {
    ghost output = { λ h. the (setting_text h.operands.modulus h.operands.variables h.operands.order h.operands.division h.rows) };

    fn fmt<W: fmt::Write>(&self, f: &mut fmt::Formatter<W>) -> fmt::Result {
        let Operands {
            modulus,
            variables,
            ..
        } = self.operands;
        let order = order_name(self.operands.order);
        let division = division_name(self.operands.division);
        let rows = self.rows;
        write!(
            f,
            "GF({modulus}), variables {variables}, {order}, {division}, rows {rows}\n"
        )
    }
}

// The heading, then a line for each row.
impl<D: Division> fmt::Display for Table<'_, D> {
    ghost output = { λ t. the (setting_text t.operands.modulus t.operands.variables t.operands.order t.operands.division (length t.rows.now) ++ rows_text (D.Division.meaning t.division.now) (exponents_of t.leaders.now) t.operands.variables 1 (polys t.rows.now)) };

    fn fmt<W: fmt::Write>(&self, f: &mut fmt::Formatter<W>) -> fmt::Result {
        let heading = Heading {
            operands: self.operands,
            rows: self.rows.len(),
        };
        write!(f, "{heading}")?;
        for (i, row) in self.rows.iter().enumerate() {
            let line = Line {
                table: self,
                number: i + 1,
                row,
            };
            write!(f, "{line}")?;
        }
        Ok(())
    }
}
