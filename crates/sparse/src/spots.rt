// Where the entries of a sparse store stand in the chains of their columns.
ghost use Rattle.std.specs.Prelude.{◌≡◌, ◌-◌, ◌<◌, ◌≤◌, length};
ghost use Rattle.sparse.specs.Cells.{next_at};
ghost use Rattle.sparse.specs.Chains.{Leads, Stands, row_of};
ghost use Rattle.sparse.specs.States.{cells_of, entry_at, Sought, Located, Placed};

use crate::cell::Cell;
use crate::chains::{Spot, cell_at, next_of, seek};
use crate::sparse::Sparse;

impl<'a> Sparse<'a> {
    // The spot of a row in a column, none where either is 0 or the column is past the last.
    pub(crate) fn spot(&self, row: u32, column: u32) -> Option<Spot>
        ensures { Sought self.now row column result }
    {
        if row == 0 || column == 0 || column > self.shape.columns {
            return None;
        }
        Some(self.spot_after(row, column, 0))
    }

    // The spot of a place of the shape, none outside it. The row is tested first: for one past the last, a walk would go along the
    // whole chain.
    pub(crate) fn spot_within(&self, row: u32, column: u32) -> Option<Spot>
        ensures { Placed self.now row column result }
    {
        if row > self.shape.rows {
            return None;
        }
        self.spot(row, column)
    }

    // The spot of a row in a column of the shape, where the walk begins after a link of the column, and at its head where that is 0, as a spot's
    // `before` may be. It tests nothing, since each step of an addition comes to it.
    pub(crate) fn spot_after(&self, row: u32, column: u32, from: u16) -> Spot
        requires column { (1 ≤ column) × (column ≤ self.now.shape.columns) }
        requires stands { Stands (cells_of self.now) column from }
        requires below { row_of (cells_of self.now) from < row }
        ensures { (result.row ≡ row) × (result.column ≡ column) × Located self.now result }
    {
        seek(self.cells, self.heads, row, column, from)
    }

    // The cell that a link of the store leads to, none where the chain ends.
    pub(crate) fn cell(&self, link: u16) -> Option<Cell>
        requires { link ≤ length (cells_of self.now) }
        ensures { Leads (cells_of self.now) link result }
    {
        cell_at(self.cells, link)
    }

    // The link that a cell of the store leads on to.
    pub(crate) fn next(&self, link: u16) -> u16
        requires { (1 ≤ link) × (link ≤ length (cells_of self.now)) }
        ensures { result ≡ next_at (cells_of self.now) (link - 1) }
    {
        next_of(self.cells, link)
    }

    // The entry at a spot.
    pub(crate) fn code(&self, spot: Spot) -> u16
        requires { Located self.now spot }
        ensures { result ≡ entry_at self.now spot }
    {
        match self.cell(spot.at) {
            Some(cell) if cell.row as u32 == spot.row => cell.code,
            _ => 0,
        }
    }
}
