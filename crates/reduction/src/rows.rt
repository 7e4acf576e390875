// Walking along a column of a grid.
ghost use Rattle.std.specs.Prelude.{◌≡◌, ◌<◌, ◌≤◌};
ghost use Rattle.std.specs.Iterator.{YieldsFirst, item_count};
ghost use Rattle.reduction.specs.Rows.{rows_from};

use matrix::grid::Grid;

// The rows of a column, rising, whose entry is not 0: those from `next` up to `last`.
#[derive(Drop)]
pub(crate) struct NonzeroRows<'g, G: Grid> {
    pub(crate) grid: &'g G,
    pub(crate) column: u32,
    pub(crate) next: u32,
    pub(crate) last: u32,
    ghost few: { last ≤ 512 },
}

impl<'g, G: Grid> NonzeroRows<'g, G> {
    // Those of the whole column.
    pub(crate) fn of(grid: &'g G, column: u32, last: u32) -> NonzeroRows<'g, G>
        requires { last ≤ 512 }
        ensures { rows_from (G.Grid.holds result.grid.now) result.column result.next result.last ≡ rows_from (G.Grid.holds grid.now) column 1 last }
    {
        NonzeroRows {
            grid,
            column,
            next: 1,
            last,
        }
    }
}

impl<'g, G: Grid> Iterator for NonzeroRows<'g, G> {
    type Item = u32;

    ghost next_gives = { YieldsFirst (λ s. rows_from (G.Grid.holds s.grid.now) s.column s.next s.last) };

    ghost remaining = { item_count (λ s. rows_from (G.Grid.holds s.grid.now) s.column s.next s.last) };

    fn next(&mut self) -> Option<u32> {
        let row = self.grid.next_nonzero(self.column, self.next)?;
        if row > self.last {
            return None;
        }
        self.next = row + 1;
        Some(row)
    }
}
