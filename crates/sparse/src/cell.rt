// The record of one entry of a sparse store.

// An entry's place and code, and the link to the next cell of its column. Row 0 marks a cell that is not in use.
// The link has the form of a column's head: heads are lent as numbers of 16 bits, with 0 for none.
#[derive(Clone, Copy, Debug, Default)]
pub struct Cell {
    pub(crate) column: u32,
    pub(crate) row: u16,
    pub(crate) code: u16,
    pub(crate) next: u16,
}

// The last row that a cell can name.
pub(crate) const MAX_ROWS: u32 = u16::MAX as u32;

// The most cells that links can tell apart.
pub(crate) const MAX_CELLS: usize = u16::MAX as usize;

// Every code of 16 bits is below it.
pub(crate) const CODE_BOUND: u32 = 65536;
