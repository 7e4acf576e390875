// Finite fields: the trait that every field implements, GF(2), GF(p), fields by tables, and rows of codes over any field.
#![tactic(auto)]

ghost use Rattle.std.specs.Prelude.{◌≡◌};
ghost use Rattle.field.specs.Arithmetic.{Arithmetic, FieldLaws};

pub mod gf2;
pub mod gfp;
pub mod rows;
pub mod tables;

// A finite field whose elements are the codes 0 to order - 1, code 0 its zero and code 1 its one.
// What a function is given beyond the codes, it answers by 0.
pub trait Field {
    ghost arithmetic: { Self → Arithmetic };

    fn order(&self) -> u32
        ensures { result ≡ (arithmetic self.now).order };

    fn sum(&self, a: u16, b: u16) -> u16
        ensures { result ≡ (arithmetic self.now).sum a b };

    fn negative(&self, a: u16) -> u16
        ensures { result ≡ (arithmetic self.now).negative a };

    fn product(&self, a: u16, b: u16) -> u16
        ensures { result ≡ (arithmetic self.now).product a b };

    // The inverse of a nonzero code; that of 0 is 0.
    fn inverse(&self, a: u16) -> u16
        ensures { result ≡ (arithmetic self.now).inverse a };

    ghost laws: { (f : Self) → FieldLaws (arithmetic f) };
}
