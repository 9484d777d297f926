// The integers modulo a prime up to 251.
ghost use Rattle.std.specs.Prelude.{◌≡◌, ◌+◌, ◌*◌, ◌/◌, ◌%◌, ◌^◌, ◌<◌, true, false, MatchOption};
ghost use Rattle.field.specs.Primes.{listed, prime_meaning, ListedAreThePrimes};
ghost use Rattle.field.specs.PrimeLaws.{prime_laws};

use crate::Field;

// A prime up to 251. It is below 256, so that a product of two elements fits a u16.
// Its reciprocal stands beside it, so that a product is taken modulo p without a division.
#[derive(Clone, Copy)]
pub struct Prime {
    p: u16,
    reciprocal: u32,
    ghost prime: { listed p ≡ true },
    ghost small: { (1 < p) × (p < 256) },
    ghost inverse: { reciprocal ≡ 16777216 / p + 1 },
}

// A reciprocal stands for SCALE / p. SCALE, 16777216 in the clauses, is above 255 * 255 * 255, so that the rounding of
// the reciprocal changes no quotient in `remainder`.
const SCALE: u32 = 1 << 24;

const PRIMES: [u16; 54] = [
    2, 3, 5, 7, 11, 13, 17, 19, 23, 29, 31, 37, 41, 43, 47, 53, 59, 61, 67, 71, 73, 79, 83, 89, 97,
    101, 103, 107, 109, 113, 127, 131, 137, 139, 149, 151, 157, 163, 167, 173, 179, 181, 191, 193,
    197, 199, 211, 223, 227, 229, 233, 239, 241, 251,
];

impl Prime {
    // The prime p; None where p is no prime up to 251.
    pub fn new(p: u16) -> Option<Prime>
        ensures answer { MatchOption result (listed p ≡ false) (λ x. (listed p ≡ true) × (x.p ≡ p)) }
        ensures primes { ListedAreThePrimes }
    {
        if PRIMES.contains(&p) {
            Some(Prime {
                p,
                reciprocal: SCALE / p as u32 + 1,
            })
        } else {
            None
        }
    }
}

impl Field for Prime {
    ghost meaning = { λ x. prime_meaning x.p };

    ghost laws = { λ x. prime_laws x.p x.prime };

    fn size(&self) -> u16 {
        self.p
    }

    fn add(&self, a: u16, b: u16) -> Option<u16> {
        if a < self.p && b < self.p {
            Some(wrap(a + b, self.p))
        } else {
            None
        }
    }

    fn neg(&self, a: u16) -> Option<u16> {
        if a < self.p {
            Some(wrap(self.p - a, self.p))
        } else {
            None
        }
    }

    fn mul(&self, a: u16, b: u16) -> Option<u16> {
        if a < self.p && b < self.p {
            Some(remainder(a * b, self.p, self.reciprocal))
        } else {
            None
        }
    }

    // a^(p-1) is 1 modulo p, so a^(p-2) is the inverse of a.
    fn inv(&self, a: u16) -> Option<u16> {
        if 0 < a && a < self.p {
            Some(power(a, self.p - 2, self.p))
        } else {
            None
        }
    }
}

// x modulo p, where x is below 2p: a comparison and a difference take less time than a division.
fn wrap(x: u16, p: u16) -> u16
    requires { x < p + p }
    ensures { result ≡ x % p }
{
    if x < p { x } else { x - p }
}

// x modulo p, where x is below p * p: two products and a shift take less time than a division.
// The reciprocal is above SCALE / p, but by so little that x * reciprocal / SCALE, rounded down, is x / p.
fn remainder(x: u16, p: u16, reciprocal: u32) -> u16
    requires { (1 < p) × (p < 256) × (x < p * p) × (reciprocal ≡ 16777216 / p + 1) }
    ensures { result ≡ x % p }
{
    let quotient = (x as u32 * reciprocal / SCALE) as u16;
    x - quotient * p
}

// a to the n modulo p: a turn for each binary digit of n.
fn power(a: u16, n: u16, p: u16) -> u16
    requires { (a < p) × (1 < p) × (p < 256) }
    ensures { result ≡ (a ^ n) % p }
{
    let mut answer = 1;
    let mut square = a;
    let mut left = n;
    while left > 0 {
        if left % 2 == 1 {
            answer = (answer * square) % p;
        }
        square = (square * square) % p;
        left /= 2;
    }
    answer
}
