// A customer's store: matrices of the shapes that a rule takes, one code to a place of the memory lent to it, column by column.
// It is written in full, as a customer would, and not over the dense store.
ghost use Rattle.std.specs.Prelude.{◌≡◌, ℕ, ◌+◌, ◌-◌, ◌*◌, ◌<◌, ◌≤◌, Bool, true, length, slice_index, slice_set};
ghost use Rattle.matrix.specs.Matrix.{count, blank};
ghost use Rattle.matrix.specs.Layout.{laid_outside};
ghost use Rattle.matrix.specs.Terms.{itself};
ghost use Rattle.customer.specs.Shapes.{shaped, shaped_terms};

use matrix::grid::Grid;
use matrix::layout::{Shape, not_zero};
use matrix::store::Store;
use refusal::Refusal;
use std::marker::PhantomData;

// Which shapes a store takes, where its memory holds them.
pub trait ShapeRule {
    ghost takes: { ℕ → ℕ → Bool };

    fn takes(shape: Shape) -> bool
        ensures { result ≡ takes shape.rows shape.columns };

    // A new store has no row and no column.
    ghost starts: { takes 0 0 ≡ true };
}

#[derive(Drop)]
pub struct Shaped<'a, R: ShapeRule> {
    shape: Shape,
    used: u64,
    codes: &'a mut [u16],
    rule: PhantomData<R>,
    ghost allowed: { R.takes shape.rows shape.columns ≡ true },
    ghost fits: { shape.rows * shape.columns ≤ length codes.now },
    ghost counted: { used ≡ count (shaped shape.rows shape.columns codes.now) },
}

impl<'a, R: ShapeRule> Shaped<'a, R> {
    // A store of shape 0 by 0, whatever the memory holds.
    pub fn new(codes: &'a mut [u16]) -> Shaped<'a, R>
        ensures holds { shaped result.shape.rows result.shape.columns result.codes.now ≡ blank 0 0 }
        ensures terms { shaped_terms R.takes (length result.codes.now) ≡ shaped_terms R.takes (length codes.old) }
    {
        Shaped {
            shape: Shape::default(),
            used: 0,
            codes,
            rule: PhantomData,
        }
    }
}

impl<'a, R: ShapeRule> Grid for Shaped<'a, R> {
    ghost holds = { λ s. shaped s.shape.rows s.shape.columns s.codes.now };

    ghost outside = { λ s. laid_outside s.shape.rows s.shape.columns (λ q. slice_index s.codes.now q) };

    fn rows(&self) -> u32 {
        self.shape.rows
    }

    fn columns(&self) -> u32 {
        self.shape.columns
    }

    fn entry(&self, row: u32, column: u32) -> u16 {
        match self.shape.place(row, column) {
            Some(at) => self.codes[at],
            None => 0,
        }
    }
}

impl<'a, R: ShapeRule> Store for Shaped<'a, R> {
    ghost terms = { λ s. shaped_terms R.takes (length s.codes.now) };

    ghost backing = { λ _. itself };

    fn begin(&mut self, rows: u32, columns: u32) -> Result<(), Refusal> {
        let shape = Shape { rows, columns };
        if !R::takes(shape) || shape.size() > self.codes.len() as u64 {
            return Err(Refusal::ShapeNotTaken);
        }
        self.codes[..shape.size() as usize].fill(0);
        self.shape = shape;
        self.used = 0;
        Ok(())
    }

    fn put(&mut self, row: u32, column: u32, code: u16) -> Result<(), Refusal> {
        let at = self.shape.place(row, column).ok_or(Refusal::OutsideShape)?;
        let old = self.codes[at];
        self.codes[at] = code;
        self.used = self.used + not_zero(code) - not_zero(old);
        Ok(())
    }

    fn nonzero(&self) -> u64 {
        self.used
    }

    fn code_bound(&self) -> u32 {
        65536
    }
}
