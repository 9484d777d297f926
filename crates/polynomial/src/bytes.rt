// Terms as bytes: 01, two bytes of coefficient with the high one first, and the six exponents.
ghost use Rattle.std.specs.Prelude.{◌≡◌, ℕ, ◌<◌, List, ◌++◌, length, drop, MatchResult};
ghost use Rattle.polynomial.specs.Polynomial.{Poly};
ghost use Rattle.polynomial.specs.Bytes.{term_bytes, poly_bytes, bytes_needed};
ghost use Rattle.polynomial.specs.declared.bytes.NoRun.TheVariants.{Memory};
ghost use Rattle.polynomial.specs.Reading.{ReadsTerm, ReadsRun, IsRun, ReadsBack};

use crate::term::Term;
use monomial::WIDTH;
use std::alloc::{AllocFailed, Global};

// How many bytes a term takes.
pub const TERM_BYTES: usize = 3 + WIDTH;

// The byte of a term, and too few bytes behind it.
#[derive(Clone, Copy, PartialEq, Eq, Debug)]
pub struct Cut;

// The term at the front of some bytes and the bytes behind it, or nothing where they begin with no term.
pub fn read_term(input: &[u8]) -> Result<Option<(Term, &[u8])>, Cut>
    ensures { ReadsTerm input.now result }
{
    match input {
        [0x01, high, low, a, b, c, d, e, f, behind @ ..] => {
            let term = Term::from_bytes(&[*high, *low, *a, *b, *c, *d, *e, *f]);
            Ok(Some((term, behind)))
        }
        [0x01, ..] => Err(Cut),
        _ => Ok(None),
    }
}

// The bytes of a term.
pub fn term_bytes(term: &Term) -> [u8; TERM_BYTES]
    ensures { result ≡ term_bytes term.now }
{
    let [high, low] = term.coefficient.to_be_bytes();
    let [a, b, c, d, e, f] = term.monomial.exponents;
    [0x01, high, low, a, b, c, d, e, f]
}

// Why no run is read.
#[derive(Clone, Copy, PartialEq, Eq, Debug)]
pub enum NoRun {
    // The bytes end inside a term, which begins at that offset.
    Cut(usize),
    // There is no memory for the terms.
    Memory,
}

impl<T: Drop> From<AllocFailed<T>> for NoRun {
    ghost from_gives = { λ _ why. why ≡ Memory };

    fn from(_failed: AllocFailed<T>) -> NoRun {
        NoRun::Memory
    }
}

// The run of terms at the front and the bytes behind it, of which the first begins no term.
pub fn read_run(heap: Global, input: &[u8]) -> Result<(Vec<Term>, &[u8]), NoRun>
    ensures run { ReadsRun input.now result }
    ensures back { (f : Poly) (rest : List ℕ) → IsRun input.now f rest → ReadsBack result f rest }
{
    let mut terms = Vec::new(heap);
    let mut rest = input;
    while let Some((term, behind)) = read_term(rest).map_err(|_| NoRun::Cut(
        input.len() - rest.len(),
    ))? {
        terms.push(term)?;
        rest = behind;
    }
    Ok((terms, rest))
}

// Too few bytes were lent.
#[derive(Clone, Copy, PartialEq, Eq, Debug)]
pub struct Short {
    pub needed: usize,
}

// Writes the terms to the front of the lent bytes, and tells how many bytes they take.
pub fn write_terms(terms: &[Term], out: &mut [u8]) -> Result<usize, Short>
    ensures { MatchResult result (λ n. (n ≡ bytes_needed terms.now) × (out.new ≡ poly_bytes terms.now ++ drop n out.old)) (λ e. (e.needed ≡ bytes_needed terms.now) × (length out.old < bytes_needed terms.now) × (out.new ≡ out.old)) }
{
    let needed = terms.len() * TERM_BYTES;
    if out.len() < needed {
        return Err(Short { needed });
    }
    // By place: a proof would know nothing of the bytes behind `chunks_exact_mut`.
    for (i, term) in terms.iter().enumerate() {
        let at = i * TERM_BYTES;
        out[at..at + TERM_BYTES].copy_from_slice(&term_bytes(term));
    }
    Ok(needed)
}
