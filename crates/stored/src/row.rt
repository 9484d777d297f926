// A row of a stored table.
ghost use Rattle.std.specs.Prelude.{◌≡◌, ◌<◌, ◌∷◌, drop, vec_items, vec_len};
ghost use Rattle.polynomial.specs.Polynomial.{leading};
ghost use Rattle.stored.specs.Leader.{leader_of};

use monomial::Monomial;
use polynomial::term::Term;

// A polynomial that is not zero.
#[derive(Drop)]
pub(crate) struct Row {
    pub(crate) terms: Vec<Term>,
    ghost leads: { 0 < vec_len terms },
}

impl Row {
    // Its leading term.
    pub(crate) fn first(&self) -> Term
        ensures { vec_items self.now.terms ≡ result ∷ drop 1 (vec_items self.now.terms) }
    {
        self.terms[0]
    }

    // Its leading monomial.
    pub(crate) fn leader(&self) -> Monomial
        ensures value { result ≡ leader_of (vec_items self.now.terms) }
        ensures leads { result.exponents ≡ leading (vec_items self.now.terms) }
    {
        self.first().monomial
    }
}
