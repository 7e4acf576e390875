// The edits of one entry of a sparse store, at its spot.
ghost use Rattle.std.specs.Prelude.{◌≡◌, ◌<◌, min, length, ◌≢◌};
ghost use Rattle.matrix.specs.Matrix.{put_at};
ghost use Rattle.matrix.specs.Terms.{told, put_outcome, put_after};
ghost use Rattle.sparse.specs.States.{cells_of, entry_at, matrix_of, terms_of, Taken, Inside, Stays, Left};

use crate::cell::{Cell, MAX_CELLS};
use crate::chains::{Spare, Spot, edit, recode};
use crate::sparse::Sparse;
use refusal::Refusal;

impl<'a> Sparse<'a> {
    // The most cells that can be in use.
    fn limit(&self) -> usize
        ensures { result ≡ min (length (cells_of self.now)) 65535 }
    {
        self.cells.len().min(MAX_CELLS)
    }

    // The link to a cell that is not in use, and the cells that are spare when that one is taken.
    fn idle(&self) -> (u16, Spare)
        requires { self.now.used < min (length (cells_of self.now)) 65535 }
        ensures { Taken (cells_of self.now) self.now.spare result.0 result.1 }
    {
        let Spare { free, fresh } = self.spare;
        match free.checked_sub(1) {
            None => (
                fresh + 1,
                Spare {
                    free,
                    fresh: fresh + 1,
                },
            ),
            Some(place) => (
                free,
                Spare {
                    free: self.cells[usize::from(place)].next,
                    fresh,
                },
            ),
        }
    }

    // Gives an entry that is 0 a cell.
    fn insert(&mut self, spot: Spot, code: u16)
        requires spot { Inside self.old spot }
        requires none { entry_at self.old spot ≡ 0 }
        requires code { code ≢ 0 }
        requires room { self.old.used < min (length (cells_of self.old)) 65535 }
        ensures { Left self.old self.new spot code }
    {
        let (link, spare) = self.idle();
        let cell = Cell {
            column: spot.column,
            row: spot.row as u16,
            code,
            next: spot.at,
        };
        edit(self.cells, self.heads, spot, link, cell, link);
        self.used += 1;
        // Field by field: as one value, the two would be packed at each put.
        self.spare.free = spare.free;
        self.spare.fresh = spare.fresh;
    }

    // Takes the cell of an entry out of use.
    fn remove(&mut self, spot: Spot)
        requires spot { Inside self.old spot }
        requires there { entry_at self.old spot ≢ 0 }
        ensures { Left self.old self.new spot 0 }
    {
        let next = self.next(spot.at);
        let cell = Cell {
            next: self.spare.free,
            ..Cell::default()
        };
        edit(self.cells, self.heads, spot, spot.at, cell, next);
        self.used -= 1;
        self.spare.free = spot.at;
    }

    // Changes the code of an entry that has a cell.
    fn replace(&mut self, spot: Spot, code: u16)
        requires spot { Inside self.old spot }
        requires there { entry_at self.old spot ≢ 0 }
        requires code { code ≢ 0 }
        ensures { Left self.old self.new spot code }
    {
        recode(self.cells, spot.at, code);
    }

    // Sets the entry of a spot, which is `old` so far. Inlined, since each step of an addition comes to it.
    #[inline(always)]
    pub(crate) fn set(&mut self, spot: Spot, old: u16, code: u16) -> Result<(), Refusal>
        requires spot { Inside self.old spot }
        requires old { old ≡ entry_at self.old spot }
        ensures answer { told result ≡ put_outcome (terms_of self.old) (matrix_of self.old) (put_at spot.row spot.column code) }
        ensures after { matrix_of self.new ≡ put_after (terms_of self.old) (matrix_of self.old) (put_at spot.row spot.column code) }
        ensures stays { Stays self.old self.new spot }
    {
        match (old, code) {
            (0, 0) => Ok(()),
            (0, _) if self.used as usize >= self.limit() => Err(Refusal::StoreFull),
            (0, _) => {
                self.insert(spot, code);
                Ok(())
            }
            (_, 0) => {
                self.remove(spot);
                Ok(())
            }
            _ => {
                self.replace(spot, code);
                Ok(())
            }
        }
    }
}
