// Looking through a list of codes.
ghost use Rattle.std.specs.Prelude.{◌≡◌};
ghost use Rattle.checking.specs.Claims.{has_outside_of, has_nonzero_of};

use field::Field;

// Is one of them not below the field's order?
pub(crate) fn has_outside<F: Field>(field: &F, codes: &[u16]) -> bool
    ensures { result ≡ has_outside_of (F.arithmetic field.now) codes.now }
{
    codes.iter().any(|code| *code as u32 >= field.order())
}

// Is one of them not 0?
pub(crate) fn has_nonzero(codes: &[u16]) -> bool
    ensures { result ≡ has_nonzero_of codes.now }
{
    codes.iter().any(|code| *code != 0)
}
