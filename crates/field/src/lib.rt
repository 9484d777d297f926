// Finite fields of at most 65535 elements.
//
// An element is a number below the field's size q: 0 is the zero and 1 the one.
//
//   prime    the integers modulo a prime up to 251
//   four     the field of four elements
#![tactic(auto)]

pub mod four;
pub mod prime;
#[cfg(test)]
mod tests;

ghost use Rattle.std.specs.Prelude.{◌≡◌};
ghost use Rattle.field.specs.Field.{FieldMeaning, FieldLaws, checked, code, codes, nonzero_code};

// What the operations mean is `meaning`, and `laws` says that they make a field.
// A method refuses a number that is no element: it answers None, and never takes it modulo q.
pub trait Field {
    ghost meaning: { Self → FieldMeaning };

    // How many elements there are.
    fn size(&self) -> u16
        ensures { result ≡ (meaning self.now).q };

    fn add(&self, a: u16, b: u16) -> Option<u16>
        ensures { result ≡ checked (codes (meaning self.now).q a b) ((meaning self.now).add a b) };

    fn neg(&self, a: u16) -> Option<u16>
        ensures { result ≡ checked (code (meaning self.now).q a) ((meaning self.now).neg a) };

    fn mul(&self, a: u16, b: u16) -> Option<u16>
        ensures { result ≡ checked (codes (meaning self.now).q a b) ((meaning self.now).mul a b) };

    // Zero has no inverse.
    fn inv(&self, a: u16) -> Option<u16>
        ensures { result ≡ checked (nonzero_code (meaning self.now).q a) ((meaning self.now).inv a) };

    ghost laws: { (x : Self) → FieldLaws (meaning x) };
}

// A field that is lent is a field.
impl<F: Field> Field for &F {
    ghost meaning = { λ x. F.Field.meaning x.now };

    ghost laws = { λ x. F.Field.laws x.now };

    fn size(&self) -> u16 {
        (**self).size()
    }

    fn add(&self, a: u16, b: u16) -> Option<u16> {
        (**self).add(a, b)
    }

    fn neg(&self, a: u16) -> Option<u16> {
        (**self).neg(a)
    }

    fn mul(&self, a: u16, b: u16) -> Option<u16> {
        (**self).mul(a, b)
    }

    fn inv(&self, a: u16) -> Option<u16> {
        (**self).inv(a)
    }
}
