// Fields that are given by tables.
ghost use Rattle.std.specs.Prelude.{◌≡◌, [], map, slice_index, slice_index_or};
ghost use Rattle.field.specs.Arithmetic.{Arithmetic, FieldLaws};
ghost use Rattle.field.specs.Guarded.{guard};
ghost use Rattle.field.specs.Tables.{table, table₂};

use crate::Field;
use std::convert::AsSlice;

// The tables of a field: its answers for each code, and for two codes a row for each first one.
pub trait Tables {
    // the field's operations on its codes
    ghost codes: { Arithmetic };

    type Row: AsSlice<u16> + 'static;

    fn sums() -> &'static [Self::Row]
        ensures { map Self.Row.items result.now ≡ table₂ codes.order codes.sum };

    fn negatives() -> &'static [u16]
        ensures { result.now ≡ table codes.order codes.negative };

    fn products() -> &'static [Self::Row]
        ensures { map Self.Row.items result.now ≡ table₂ codes.order codes.product };

    fn inverses() -> &'static [u16]
        ensures { result.now ≡ table codes.order codes.inverse };

    ghost laws: { FieldLaws (guard codes) };
}

impl<T: Tables> Field for T {
    ghost arithmetic = { λ _. guard T.codes };

    ghost laws = { λ _. T.laws };

    fn order(&self) -> u32 {
        T::negatives().len() as u32
    }

    fn sum(&self, a: u16, b: u16) -> u16 {
        binary(T::sums(), a, b)
    }

    fn negative(&self, a: u16) -> u16 {
        unary(T::negatives(), a)
    }

    fn product(&self, a: u16, b: u16) -> u16 {
        binary(T::products(), a, b)
    }

    fn inverse(&self, a: u16) -> u16 {
        unary(T::inverses(), a)
    }
}

// The entry of a table at a code, and 0 for what is no code.
pub fn unary(table: &[u16], a: u16) -> u16
    ensures { result ≡ slice_index table.now a }
{
    table.get(a as usize).copied().unwrap_or(0)
}

// The entry of a table at two codes, row and column, and 0 where one is no code.
pub fn binary<R: AsSlice<u16>>(table: &[R], a: u16, b: u16) -> u16
    ensures { result ≡ slice_index (slice_index_or (map R.items table.now) a []) b }
{
    table
        .get(a as usize)
        .and_then(|row| row.as_slice().get(b as usize))
        .copied()
        .unwrap_or(0)
}
