// What reducing refuses, as the calls tell it.
ghost use Rattle.std.specs.Prelude.{◌≡◌};
ghost use Rattle.calls.specs.Told.{told};
ghost use Rattle.reduction.specs.Reducing.{told as told_of};

use calls::refusal::Refusal;
use reduction::refusal::Denied;

// No `From`: each of the two types belongs to another crate.
pub(crate) fn refusal_of(denied: Denied) -> Refusal
    ensures { told result ≡ told_of denied }
{
    match denied {
        Denied::Polynomial(unfit) => Refusal::Polynomial(unfit),
        Denied::Wide(row) => Refusal::Wide(row),
        Denied::Long(row) => Refusal::Long(row),
    }
}
