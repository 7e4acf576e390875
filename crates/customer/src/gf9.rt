// The field of nine elements, by tables: a code's base-3 digits are a polynomial modulo x^2 + 1 over GF(3).
ghost use Rattle.customer.specs.Polynomials.{polynomials};
ghost use Rattle.customer.specs.NineLaws.{nine_laws};

use field::tables::Tables;

#[derive(Clone, Copy, Debug)]
pub struct Gf9;

impl Tables for Gf9 {
    ghost codes = { polynomials 3 0 2 };

    ghost laws = { nine_laws };

    type Row = [u16; 9];

    fn sums() -> &'static [[u16; 9]] {
        &[
            [0, 1, 2, 3, 4, 5, 6, 7, 8],
            [1, 2, 0, 4, 5, 3, 7, 8, 6],
            [2, 0, 1, 5, 3, 4, 8, 6, 7],
            [3, 4, 5, 6, 7, 8, 0, 1, 2],
            [4, 5, 3, 7, 8, 6, 1, 2, 0],
            [5, 3, 4, 8, 6, 7, 2, 0, 1],
            [6, 7, 8, 0, 1, 2, 3, 4, 5],
            [7, 8, 6, 1, 2, 0, 4, 5, 3],
            [8, 6, 7, 2, 0, 1, 5, 3, 4],
        ]
    }

    fn negatives() -> &'static [u16] {
        &[0, 2, 1, 6, 8, 7, 3, 5, 4]
    }

    fn products() -> &'static [[u16; 9]] {
        &[
            [0, 0, 0, 0, 0, 0, 0, 0, 0],
            [0, 1, 2, 3, 4, 5, 6, 7, 8],
            [0, 2, 1, 6, 8, 7, 3, 5, 4],
            [0, 3, 6, 2, 5, 8, 1, 4, 7],
            [0, 4, 8, 5, 6, 1, 7, 2, 3],
            [0, 5, 7, 8, 1, 3, 4, 6, 2],
            [0, 6, 3, 1, 7, 4, 2, 8, 5],
            [0, 7, 5, 4, 2, 6, 8, 3, 1],
            [0, 8, 4, 7, 3, 2, 5, 1, 6],
        ]
    }

    fn inverses() -> &'static [u16] {
        &[0, 1, 2, 6, 5, 4, 3, 8, 7]
    }
}
