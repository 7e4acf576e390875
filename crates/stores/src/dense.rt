// A store that packs its entries into bytes lent to it, column by column, each in so many bits.
ghost use Rattle.std.specs.Prelude.{◌≡◌, ◌+◌, ◌-◌, ◌*◌, ◌≤◌, length};
ghost use Rattle.matrix.specs.Matrix.{count, blank};
ghost use Rattle.matrix.specs.Layout.{laid_outside};
ghost use Rattle.matrix.specs.Terms.{itself};
ghost use Rattle.stores.specs.Packed.{code_at, per_byte_of, bytes_for};
ghost use Rattle.stores.specs.Dense.{matrix_of, terms_of};
ghost use Rattle.stores.specs.Widths.{bits_of};

use crate::packed::{read, scan, scan_back, write};
use crate::width::EntryWidth;
use matrix::grid::Grid;
use matrix::layout::{Shape, not_zero};
use matrix::store::Store;
use refusal::Refusal;

#[derive(Drop)]
pub struct Dense<'a> {
    width: EntryWidth,
    shape: Shape,
    used: u64,
    bytes: &'a mut [u8],
    ghost fits: { shape.rows * shape.columns ≤ length bytes.now * per_byte_of (bits_of width) },
    ghost counted: { used ≡ count (matrix_of width shape bytes.now) },
}

impl<'a> Dense<'a> {
    // A store of shape 0 by 0, whatever the bytes hold.
    pub fn new(width: EntryWidth, bytes: &'a mut [u8]) -> Dense<'a>
        ensures holds { matrix_of result.width result.shape result.bytes.now ≡ blank 0 0 }
        ensures terms { terms_of result.width result.bytes.now ≡ terms_of width bytes.old }
    {
        Dense {
            width,
            shape: Shape::default(),
            used: 0,
            bytes,
        }
    }
}

// The bytes that a shape takes.
fn bytes_of(width: EntryWidth, shape: Shape) -> u64
    ensures { result ≡ bytes_for (bits_of width) (shape.rows * shape.columns) }
{
    shape.size().div_ceil(width.per_byte() as u64)
}

impl<'a> Grid for Dense<'a> {
    ghost holds = { λ d. matrix_of d.width d.shape d.bytes.now };

    ghost outside = { λ d. laid_outside d.shape.rows d.shape.columns (code_at (bits_of d.width) d.bytes.now) };

    fn rows(&self) -> u32 {
        self.shape.rows
    }

    fn columns(&self) -> u32 {
        self.shape.columns
    }

    #[inline(always)]
    fn entry(&self, row: u32, column: u32) -> u16 {
        match self.shape.place(row, column) {
            Some(at) => read(self.bytes, self.width, at) as u16,
            None => 0,
        }
    }

    // Goes by places, and passes an empty byte whole.
    #[inline(always)]
    fn next_nonzero(&self, column: u32, first: u32) -> Option<u32> {
        let top = self.shape.place(1, column)?;
        let start = top + first.saturating_sub(1) as usize;
        let end = top + self.shape.rows as usize;
        let found = scan(self.bytes, self.width, start, end)?;
        Some((found - top) as u32 + 1)
    }

    // The same backwards.
    fn last_nonzero(&self, column: u32, last: u32) -> Option<u32> {
        let start = self.shape.place(1, column)?;
        let end = start + last.min(self.shape.rows) as usize;
        let found = scan_back(self.bytes, self.width, start, end)?;
        Some((found - start) as u32 + 1)
    }
}

impl<'a> Store for Dense<'a> {
    ghost terms = { λ d. terms_of d.width d.bytes.now };

    ghost backing = { λ d. itself };

    fn begin(&mut self, rows: u32, columns: u32) -> Result<(), Refusal> {
        let shape = Shape { rows, columns };
        let wanted = bytes_of(self.width, shape);
        if wanted > self.bytes.len() as u64 {
            return Err(Refusal::ShapeNotTaken);
        }
        self.bytes[..wanted as usize].fill(0);
        self.shape = shape;
        self.used = 0;
        Ok(())
    }

    // In place where it is called, so that an addition to an entry finds its byte once.
    #[inline(always)]
    fn put(&mut self, row: u32, column: u32, code: u16) -> Result<(), Refusal> {
        let at = self.shape.place(row, column).ok_or(Refusal::OutsideShape)?;
        if code as u32 >= self.width.bound() {
            return Err(Refusal::CodeTooLarge);
        }
        // by a name of their own: through `self.bytes` the count would have to be right before it is brought up to date
        let bytes = &mut *self.bytes;
        let old = read(bytes, self.width, at) as u16;
        write(bytes, self.width, at, code as u8);
        self.used = self.used + not_zero(code) - not_zero(old);
        Ok(())
    }

    fn nonzero(&self) -> u64 {
        self.used
    }

    fn code_bound(&self) -> u32 {
        self.width.bound()
    }
}
