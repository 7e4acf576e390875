// The field that was chosen last, one of several.
ghost use Rattle.std.specs.Prelude.{◌≡◌};
ghost use Rattle.hall.specs.Chosen.{chosen};
ghost use Rattle.customer.specs.FourLaws.{four_laws};
ghost use Rattle.customer.specs.NineLaws.{nine_laws};
ghost use Rattle.field.specs.BinaryLaws.{binary_laws};
ghost use Rattle.field.specs.ResidueLaws.{prime_laws};
ghost use Rattle.hall.specs.declared.fields.AnyField.TheVariants.{Two, Prime, Four, Nine};

use crate::answers::Fault;
use crate::numbers::number;
use customer::gf4::Gf4;
use customer::gf9::Gf9;
use field::Field;
use field::gf2::Gf2;
use field::gfp::GfP;
use std::str::FromStr;

#[derive(Clone, Copy)]
pub enum AnyField {
    Two(Gf2),
    Prime(GfP),
    Four(Gf4),
    Nine(Gf9),
}

// The field that a line chooses.
impl FromStr for AnyField {
    type Err = Fault;

    fn from_str(rest: &str) -> Result<AnyField, Fault> {
        match rest {
            "gf2" => Ok(AnyField::Two(Gf2)),
            "gf4" => Ok(AnyField::Four(Gf4)),
            "gf9" => Ok(AnyField::Nine(Gf9)),
            _ => {
                let modulus = rest.strip_prefix("gfp ").ok_or(Fault::Unknown)?;
                Ok(AnyField::Prime(GfP::new(number(modulus, u16::MAX)?)?))
            }
        }
    }
}

// The call at the field that was chosen, whichever it is.
macro_rules! at_chosen {
    ($chosen:expr, $field:ident => $call:expr) => {
        match $chosen {
            AnyField::Two($field) => $call,
            AnyField::Prime($field) => $call,
            AnyField::Four($field) => $call,
            AnyField::Nine($field) => $call,
        }
    };
}

impl Field for AnyField {
    ghost arithmetic = { chosen };

    ghost laws = { elim [
      | Two f ↦ binary_laws
      | Prime f ↦ prime_laws f.p f.odd_prime
      | Four f ↦ four_laws
      | Nine f ↦ nine_laws
    ] };

    fn order(&self) -> u32 {
        at_chosen!(self, field => field.order())
    }

    fn sum(&self, a: u16, b: u16) -> u16 {
        at_chosen!(self, field => field.sum(a, b))
    }

    fn negative(&self, a: u16) -> u16 {
        at_chosen!(self, field => field.negative(a))
    }

    fn product(&self, a: u16, b: u16) -> u16 {
        at_chosen!(self, field => field.product(a, b))
    }

    fn inverse(&self, a: u16) -> u16 {
        at_chosen!(self, field => field.inverse(a))
    }
}
