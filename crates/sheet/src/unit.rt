// Whether a row of the table leads with the monomial 1.
ghost use Rattle.std.specs.Prelude.{◌≡◌};
ghost use Rattle.sheet.specs.Units.{has_unit};

use monomial::Monomial;
use reduction::table::Row;

pub(crate) fn leads_with_one(rows: &[Row]) -> bool
    ensures { result ≡ has_unit rows.now }
{
    rows.iter()
        .any(|row| row.lead.monomial.is_same(&Monomial::ONE))
}
