// How many terms there is room for.
ghost use Rattle.std.specs.Prelude.{◌≡◌, ◌-◌, ◌≤◌, min};
ghost use Rattle.polynomial.specs.Check.{most_terms};

use polynomial::check::MOST_TERMS;

// Room for so many terms, of which there are at most 40: a buffer always holds them.
#[derive(Clone, Copy)]
pub(crate) struct Room {
    pub terms: usize,
    ghost few: { terms ≤ 40 },
}

impl Room {
    // All the room that there ever is.
    pub const ALL: Room = Room { terms: MOST_TERMS };

    // Room for so many terms, and never for more than 40.
    pub fn new(terms: usize) -> Room
        ensures { result.terms ≡ min terms most_terms }
    {
        Room {
            terms: terms.min(MOST_TERMS),
        }
    }

    // What so many terms leave of it.
    pub fn after(self, terms: usize) -> Room
        ensures { result.terms ≡ self.terms - terms }
    {
        Room {
            terms: self.terms.saturating_sub(terms),
        }
    }
}
