// A sparse store over cells and column heads lent to it.
ghost use Rattle.std.specs.Prelude.{◌≡◌, length};
ghost use Rattle.matrix.specs.Matrix.{blank};
ghost use Rattle.matrix.specs.Terms.{itself};
ghost use Rattle.sparse.specs.Cells.{held, held_outside, sparse_terms};
ghost use Rattle.sparse.specs.Sound.{Sound};

use crate::cell::{CODE_BOUND, Cell, MAX_ROWS};
use crate::chains::{Spare, clear};
use field::Field;
use matrix::grid::Grid;
use matrix::layout::Shape;
use matrix::store::Store;
use refusal::Refusal;

#[derive(Drop)]
pub struct Sparse<'a> {
    pub(crate) shape: Shape,
    pub(crate) used: u16,
    pub(crate) spare: Spare,
    pub(crate) cells: &'a mut [Cell],
    pub(crate) heads: &'a mut [u16],
    ghost sound: { Sound shape.rows shape.columns used spare.free spare.fresh heads.now cells.now },
}

impl<'a> Sparse<'a> {
    // A store of shape 0 by 0, whatever the cells and the heads hold.
    pub fn new(cells: &'a mut [Cell], heads: &'a mut [u16]) -> Sparse<'a>
        ensures holds { held result.shape.rows result.shape.columns result.cells.now ≡ blank 0 0 }
        ensures terms { sparse_terms (length result.cells.now) (length result.heads.now) ≡ sparse_terms (length cells.old) (length heads.old) }
    {
        cells.fill(Cell::default());
        Sparse {
            shape: Shape {
                rows: 0,
                columns: 0,
            },
            used: 0,
            spare: Spare::default(),
            cells,
            heads,
        }
    }
}

impl<'a> Grid for Sparse<'a> {
    ghost holds = { λ s. held s.shape.rows s.shape.columns s.cells.now };

    ghost outside = { λ s. held_outside s.shape.rows s.shape.columns s.cells.now };

    fn rows(&self) -> u32 {
        self.shape.rows
    }

    fn columns(&self) -> u32 {
        self.shape.columns
    }

    fn entry(&self, row: u32, column: u32) -> u16 {
        match self.spot_within(row, column) {
            Some(spot) => self.code(spot),
            None => 0,
        }
    }

    // One walk, to the first cell that is not before the row.
    fn next_nonzero(&self, column: u32, first: u32) -> Option<u32> {
        let spot = self.spot(first.max(1), column)?;
        let cell = self.cell(spot.at)?;
        Some(cell.row as u32)
    }

    // One walk, to the last cell that is not after the row.
    fn last_nonzero(&self, column: u32, last: u32) -> Option<u32> {
        let spot = self.spot(last.min(self.shape.rows) + 1, column)?;
        let cell = self.cell(spot.before)?;
        Some(cell.row as u32)
    }
}

impl<'a> Store for Sparse<'a> {
    ghost terms = { λ s. sparse_terms (length s.cells.now) (length s.heads.now) };

    ghost backing = { λ s. itself };

    fn begin(&mut self, rows: u32, columns: u32) -> Result<(), Refusal> {
        if rows > MAX_ROWS || columns as usize > self.heads.len() {
            return Err(Refusal::ShapeNotTaken);
        }
        let fresh = self.spare.fresh as usize;
        clear(self.cells, fresh, self.heads, columns as usize);
        self.shape = Shape { rows, columns };
        self.used = 0;
        self.spare = Spare::default();
        Ok(())
    }

    // Inlined, since a put at the head of a chain is hardly longer than a call.
    #[inline(always)]
    fn put(&mut self, row: u32, column: u32, code: u16) -> Result<(), Refusal> {
        match self.spot_within(row, column) {
            Some(spot) => {
                let old = self.code(spot);
                self.set(spot, old, code)
            }
            None => Err(Refusal::OutsideShape),
        }
    }

    fn nonzero(&self) -> u64 {
        self.used as u64
    }

    fn code_bound(&self) -> u32 {
        CODE_BOUND
    }

    // One walk along both chains: the rows of `from` rise, so that each search in `to` goes on where the last one ended. Whether the
    // shape has the column `to` is tested once, before the walk.
    fn add_multiple<F: Field>(
        &mut self,
        field: &F,
        from: u32,
        to: u32,
        factor: u16,
    ) -> Result<(), Refusal> {
        let Some(first) = self.spot(1, from) else {
            return Ok(());
        };
        if to == 0 || to > self.shape.columns {
            let start = self.cell(first.at);
            return match start {
                Some(_) => Err(Refusal::OutsideShape),
                None => Ok(()),
            };
        }
        let mut link = first.at;
        let mut before = 0;
        while let Some(cell) = self.cell(link) {
            let spot = self.spot_after(cell.row as u32, to, before);
            let old = self.code(spot);
            let sum = field.sum(old, field.product(factor, cell.code));
            self.set(spot, old, sum)?;
            before = spot.before;
            link = cell.next;
        }
        Ok(())
    }
}
