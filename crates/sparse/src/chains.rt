// Chains of cells, one to a column, rows rising. A link is a cell's place plus one, and 0 ends a chain.
// Cells and heads are two parameters here, since the functions work in place over the two slices that are lent.
ghost use Rattle.std.specs.Prelude.{◌≡◌, ℕ, ◌-◌, ◌<◌, ◌≤◌, length, slice_index, slice_set};
ghost use Rattle.sparse.specs.Cells.{cell, next_at};
ghost use Rattle.sparse.specs.Chains.{Leads, Walkable, Stands, Follows, Spotted, Unused, row_of, recoded, linked_cells, linked_heads};

use crate::cell::Cell;

// Where a row belongs in the chain of a column: the last link before it, and the first that is not.
// Its links, and that of `Spare`, are kept as cells and heads hold them, with 0 for none, since an edit writes them there.
#[derive(Clone, Copy)]
pub(crate) struct Spot {
    pub(crate) row: u32,
    pub(crate) column: u32,
    pub(crate) before: u16,
    pub(crate) at: u16,
}

// The cells that are not in use: those that were cleared, chained from the link `free`, and those from the place `fresh` on.
#[derive(Clone, Copy, Default)]
pub(crate) struct Spare {
    pub(crate) free: u16,
    pub(crate) fresh: u16,
}

// The cell that a link leads to, none where the chain ends.
pub(crate) fn cell_at(cells: &[Cell], link: u16) -> Option<Cell>
    requires { link ≤ length cells.now }
    ensures { Leads cells.now link result }
{
    let place = link.checked_sub(1)?;
    Some(cells[usize::from(place)])
}

// The link that a cell leads on to.
pub(crate) fn next_of(cells: &[Cell], link: u16) -> u16
    requires { (1 ≤ link) × (link ≤ length cells.now) }
    ensures { result ≡ next_at cells.now (link - 1) }
{
    cells[(link - 1) as usize].next
}

// The link after a cell of the column, or the column's first.
fn link_after(cells: &[Cell], heads: &[u16], column: u32, before: u16) -> u16
    requires chain { Walkable column heads.now cells.now }
    requires before { Stands cells.now column before }
    ensures { Follows cells.now column (row_of cells.now before) result }
{
    match cell_at(cells, before) {
        Some(cell) => cell.next,
        None => heads[(column - 1) as usize],
    }
}

// Walks from a link of the column, or from its head, to the spot of a row.
pub(crate) fn seek(cells: &[Cell], heads: &[u16], row: u32, column: u32, from: u16) -> Spot
    requires chain { Walkable column heads.now cells.now }
    requires stands { Stands cells.now column from }
    requires below { row_of cells.now from < row }
    ensures place { (result.row ≡ row) × (result.column ≡ column) }
    ensures spotted { Spotted cells.now column row result.before result.at }
{
    // A walk by hand, since an iterator over the cells would not tell the link before.
    let mut before = from;
    let mut at = link_after(cells, heads, column, from);
    while let Some(cell) = cell_at(cells, at) {
        if cell.row as u32 >= row {
            break;
        }
        before = at;
        at = cell.next;
    }
    Spot {
        row,
        column,
        before,
        at,
    }
}

// Clears every cell before the place `fresh`, and empties the first so many chains. No cell from `fresh` on is in use.
pub(crate) fn clear(cells: &mut [Cell], fresh: usize, heads: &mut [u16], columns: usize)
    requires fresh { fresh ≤ length cells.old }
    requires past { Unused fresh cells.old }
    requires columns { columns ≤ length heads.old }
    ensures cells { Unused 0 cells.new }
    ensures heads { (k : ℕ) → k < columns → slice_index heads.new k ≡ 0 }
    ensures many { length cells.new ≡ length cells.old }
    ensures wide { length heads.new ≡ length heads.old }
{
    cells[..fresh].fill(Cell::default());
    heads[..columns].fill(0);
}

// Writes `value` to the cell at `link`, and makes `to` the link after the spot's `before`: the next of that cell, or, where
// `before` is 0, the head of the spot's column.
pub(crate) fn edit(
    cells: &mut [Cell],
    heads: &mut [u16],
    spot: Spot,
    link: u16,
    value: Cell,
    to: u16,
)
    requires column { (1 ≤ spot.column) × (spot.column ≤ length heads.old) }
    requires before { spot.before ≤ length cells.old }
    requires link { (1 ≤ link) × (link ≤ length cells.old) }
    ensures cells { cells.new ≡ linked_cells (slice_set cells.old (link - 1) value) spot.before to }
    ensures heads { heads.new ≡ linked_heads heads.old spot.column spot.before to }
{
    cells[(link - 1) as usize] = value;
    match spot.before.checked_sub(1) {
        None => heads[(spot.column - 1) as usize] = to,
        Some(place) => cells[usize::from(place)].next = to,
    }
}

// Changes the code of a cell.
pub(crate) fn recode(cells: &mut [Cell], link: u16, code: u16)
    requires { (1 ≤ link) × (link ≤ length cells.old) }
    ensures { cells.new ≡ slice_set cells.old (link - 1) (recoded (cell cells.old (link - 1)) code) }
{
    cells[(link - 1) as usize].code = code;
}
