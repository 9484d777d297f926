// A coefficient, by its code in the field, and a monomial.
ghost use Rattle.std.specs.Prelude.{◌≡◌, ◌+◌, ◌*◌, drop, slice_index};
ghost use Rattle.polynomial.specs.Polynomial.{term};

use monomial::Monomial;

#[derive(Clone, Copy, PartialEq, Eq, Debug)]
pub struct Term {
    pub coefficient: u16,
    pub monomial: Monomial,
}

impl Term {
    // The term that two bytes of coefficient, the high one first, and six exponents tell.
    pub fn from_bytes(bytes: &[u8; 8]) -> Term
        ensures { result ≡ term (slice_index bytes.now 0 * 256 + slice_index bytes.now 1) (drop 2 bytes.now) }
    {
        let [high, low, a, b, c, d, e, f] = *bytes;
        Term {
            coefficient: u16::from_be_bytes([high, low]),
            monomial: Monomial {
                exponents: [a, b, c, d, e, f],
            },
        }
    }
}
