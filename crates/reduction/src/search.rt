// The search for involutive divisors.
ghost use Rattle.reduction.specs.Search.{Finds};

use crate::table::Row;
use monomial::WIDTH;
use polynomial::term::Term;

// The first of these terms that has an involutive divisor in the table, and the first row that is one; both are
// counted from 0. In falling order the first such term is the greatest. A place of the monomials is at once one of the
// list of variables, so the innermost loop counts places. The search over terms, rows and variables is left by a label:
// no flag has to be carried out of the inner loops.
pub(crate) fn find_reducible(table: &[Row], terms: &[Term]) -> Option<(usize, usize)>
    ensures { Finds table.now terms.now result }
{
    let mut found = None;
    'search: for (i, term) in terms.iter().enumerate() {
        'row: for (k, row) in table.iter().enumerate() {
            for v in 0..WIDTH {
                let mine = row.lead.monomial.exponents[v];
                let other = term.monomial.exponents[v];
                if mine > other || (mine < other && !row.lead.multiplicative[v]) {
                    continue 'row;
                }
            }
            found = Some((i, k));
            break 'search;
        }
    }
    found
}
