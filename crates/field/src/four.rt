// The field of four elements: 0, 1, 2 and 3 = 2 + 1, where 2 * 2 = 3.
ghost use Rattle.field.specs.Four.{four_meaning};
ghost use Rattle.field.specs.FourLaws.{four_laws};

use crate::Field;

#[derive(Clone, Copy)]
pub struct Four;

// The product of a and b stands at 4 * a + b.
const PRODUCTS: [u16; 16] = [0, 0, 0, 0, 0, 1, 2, 3, 0, 2, 3, 1, 0, 3, 1, 2];

impl Field for Four {
    ghost meaning = { λ _. four_meaning };

    ghost laws = { λ x. four_laws };

    fn size(&self) -> u16 {
        4
    }

    fn add(&self, a: u16, b: u16) -> Option<u16> {
        if a < 4 && b < 4 { Some(a ^ b) } else { None }
    }

    fn neg(&self, a: u16) -> Option<u16> {
        if a < 4 { Some(a) } else { None }
    }

    fn mul(&self, a: u16, b: u16) -> Option<u16> {
        if a < 4 && b < 4 {
            Some(PRODUCTS[(4 * a + b) as usize])
        } else {
            None
        }
    }

    fn inv(&self, a: u16) -> Option<u16> {
        match a {
            1 => Some(1),
            2 => Some(3),
            3 => Some(2),
            _ => None,
        }
    }
}
