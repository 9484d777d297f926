// Room for the terms of a polynomial. It is taken once, so that nothing is allocated while polynomials are reduced.
ghost use Rattle.std.specs.Prelude.{◌≡◌, ℕ, ◌+◌, ◌<◌, ◌≤◌, List, [], ◌∷◌, ◌++◌, length, IfOk, vec_len, vec_capacity, MatchResult};
ghost use Rattle.polynomial.specs.Check.{most_terms};

use crate::room::Room;
use polynomial::check::MOST_TERMS;
use polynomial::term::Term;
use std::alloc::{AllocError, Global};

// At most 40 terms, with room for 40.
#[derive(Drop)]
pub struct Buffer {
    pub terms: Vec<Term>,
    ghost room: { 40 ≤ vec_capacity terms },
    ghost few: { vec_len terms ≤ 40 },
}

// There is no room for the terms, and nothing changed.
#[derive(Clone, Copy, PartialEq, Eq, Debug)]
pub struct NoRoom;

impl Buffer {
    // An empty buffer, or want of memory.
    pub fn new(heap: Global) -> Result<Buffer, AllocError>
        ensures { IfOk result (λ buffer. buffer.terms.items ≡ []) }
    {
        let terms = Vec::with_capacity(heap, MOST_TERMS)?;
        Ok(Buffer { terms })
    }

    // No terms; the room stays.
    pub fn clear(&mut self)
        ensures { self.new.terms.items ≡ [] }
    {
        self.terms.clear();
    }

    // These terms in place of the old ones, where they are at most 40; else nothing changes.
    pub fn load(&mut self, terms: &[Term]) -> Result<(), NoRoom>
        ensures { MatchResult result (λ _. (length terms.now ≤ most_terms) × (self.new.terms.items ≡ terms.now)) (λ _. (most_terms < length terms.now) × (self.new.terms.items ≡ self.old.terms.items)) }
    {
        if terms.len() > MOST_TERMS {
            return Err(NoRoom);
        }
        self.clear();
        // There is room.
        let _ = self.terms.extend_from_slice(terms);
        Ok(())
    }

    // One term more, where there is room; else nothing changes.
    pub(crate) fn push(&mut self, term: Term, room: Room) -> Result<(), NoRoom>
        ensures { MatchResult result (λ _. (length self.old.terms.items < room.terms) × (self.new.terms.items ≡ self.old.terms.items ++ term ∷ [])) (λ _. (room.terms ≤ length self.old.terms.items) × (self.new.terms.items ≡ self.old.terms.items)) }
    {
        if self.terms.len() >= room.terms {
            return Err(NoRoom);
        }
        self.terms.push_reserved(term);
        Ok(())
    }

    // All these terms more, where there is room; else nothing changes.
    pub(crate) fn extend(&mut self, more: &[Term], room: Room) -> Result<(), NoRoom>
        ensures { MatchResult result (λ _. (length self.old.terms.items + length more.now ≤ room.terms) × (self.new.terms.items ≡ self.old.terms.items ++ more.now)) (λ _. (room.terms < length self.old.terms.items + length more.now) × (self.new.terms.items ≡ self.old.terms.items)) }
    {
        if self.terms.len() + more.len() > room.terms {
            return Err(NoRoom);
        }
        // There is room.
        let _ = self.terms.extend_from_slice(more);
        Ok(())
    }
}
