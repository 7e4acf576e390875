// The equations of a filling and of a block, tested on any grid: the first rows and columns of it, and the column after them.
ghost use Rattle.std.specs.Prelude.{◌≡◌, ◌≤◌, length};
ghost use Rattle.checking.specs.Equations.{along};

use field::Field;
use matrix::grid::Grid;

// Rows and columns are counted from 1, and there are no more of them than a survey has edges and triangles.
#[derive(Drop)]
pub(crate) struct Equations<'a, F: Field, G: Grid> {
    pub(crate) field: &'a F,
    pub(crate) grid: &'a G,
    pub(crate) rows: u32,
    pub(crate) columns: u32,
    ghost few_rows: { rows ≤ 512 },
    ghost few_columns: { columns ≤ 1024 },
}

// A row or a column, by its number.
#[derive(Clone, Copy)]
enum Line {
    Row(u32),
    Column(u32),
}

// The entry at a place of a row or a column.
fn entry_of<G: Grid>(grid: &G, line: Line, place: u32) -> u16
    ensures { result ≡ along (G.holds grid.now).at line place }
{
    match line {
        Line::Row(row) => grid.entry(row, place),
        Line::Column(column) => grid.entry(place, column),
    }
}

impl<'a, F: Field, G: Grid> Equations<'a, F, G> {
    ghost use Rattle.homology.specs.Certificate.{vector};
    ghost use Rattle.checking.specs.Equations.{weighted, system_in, solves as solves_system, closes as closes_system, separates as separates_system};

    // The first entries of a row or a column, weighted by the codes.
    fn weighted_sum(&self, line: Line, codes: &[u16]) -> u16
        requires { length codes.now ≤ 1024 }
        ensures { result ≡ weighted (F.arithmetic self.now.field.now) (length codes.now) (vector codes.now) (along (G.holds self.now.grid.now).at line) }
    {
        let mut sum = 0;
        for (i, code) in codes.iter().enumerate() {
            let entry = entry_of(self.grid, line, i as u32 + 1);
            sum = self.field.sum(sum, self.field.product(*code, entry));
        }
        sum
    }

    // Do the columns, weighted by the codes, give the next column in each row?
    pub(crate) fn solves(&self, codes: &[u16]) -> bool
        requires { length codes.now ≡ self.now.columns }
        ensures { result ≡ solves_system (F.arithmetic self.now.field.now) (system_in self.now.rows self.now.columns (G.holds self.now.grid.now)) (vector codes.now) }
    {
        let target = self.columns + 1;
        (1..=self.rows).all(|row| self.weighted_sum(Line::Row(row), codes)
            == self.grid.entry(row, target))
    }

    // Are the columns, their rows weighted by the codes, all 0?
    fn closes(&self, codes: &[u16]) -> bool
        requires { length codes.now ≡ self.now.rows }
        ensures { result ≡ closes_system (F.arithmetic self.now.field.now) (system_in self.now.rows self.now.columns (G.holds self.now.grid.now)) (vector codes.now) }
    {
        (1..=self.columns).all(|column| self.weighted_sum(Line::Column(column), codes) == 0)
    }

    // Are the columns, their rows weighted by the codes, all 0, and is the next column, so weighted, 1?
    pub(crate) fn separates(&self, codes: &[u16]) -> bool
        requires { length codes.now ≡ self.now.rows }
        ensures { result ≡ separates_system (F.arithmetic self.now.field.now) (system_in self.now.rows self.now.columns (G.holds self.now.grid.now)) (vector codes.now) }
    {
        self.closes(codes) && self.weighted_sum(Line::Column(self.columns + 1), codes) == 1
    }
}
