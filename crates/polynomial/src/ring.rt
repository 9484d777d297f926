// The polynomials over a field, with their terms in falling order, in the first so many of the six variables.
use field::Field;
use monomial::order::Order;

#[derive(Clone, Copy, Drop)]
pub struct Ring<F: Field, O: Order> {
    pub field: F,
    pub order: O,
    pub variables: usize,
}
