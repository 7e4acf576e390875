// The field of four elements, by tables: a code's base-2 digits are a polynomial modulo x^2 + x + 1 over GF(2).
ghost use Rattle.customer.specs.Polynomials.{polynomials};
ghost use Rattle.customer.specs.FourLaws.{four_laws};

use field::tables::Tables;

#[derive(Clone, Copy, Debug)]
pub struct Gf4;

impl Tables for Gf4 {
    ghost codes = { polynomials 2 1 1 };

    ghost laws = { four_laws };

    type Row = [u16; 4];

    fn sums() -> &'static [[u16; 4]] {
        &[[0, 1, 2, 3], [1, 0, 3, 2], [2, 3, 0, 1], [3, 2, 1, 0]]
    }

    fn negatives() -> &'static [u16] {
        &[0, 1, 2, 3]
    }

    fn products() -> &'static [[u16; 4]] {
        &[[0, 0, 0, 0], [0, 1, 2, 3], [0, 2, 3, 1], [0, 3, 1, 2]]
    }

    fn inverses() -> &'static [u16] {
        &[0, 1, 3, 2]
    }
}
