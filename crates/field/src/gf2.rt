// The field of two elements, on bits.
ghost use Rattle.std.specs.Prelude.{◌≡◌};
ghost use Rattle.field.specs.Bits.{binary_field};
ghost use Rattle.field.specs.BinaryLaws.{binary_laws};

use crate::Field;

const ORDER: u16 = 2;

#[derive(Clone, Copy, Debug)]
pub struct Gf2;

// Each operation has its own guard, no longer than a call of a shared one.
impl Field for Gf2 {
    ghost arithmetic = { λ _. binary_field };

    ghost laws = { λ f. binary_laws };

    fn order(&self) -> u32 {
        ORDER as u32
    }

    fn sum(&self, a: u16, b: u16) -> u16 {
        if a < ORDER && b < ORDER { a ^ b } else { 0 }
    }

    fn negative(&self, a: u16) -> u16 {
        if a < ORDER { a } else { 0 }
    }

    fn product(&self, a: u16, b: u16) -> u16 {
        if a < ORDER && b < ORDER { a & b } else { 0 }
    }

    fn inverse(&self, a: u16) -> u16 {
        u16::from(a == 1)
    }
}
