// Loading the starting matrix of a system: the codes that a grid holds for it, and the record of each column.
ghost use Rattle.std.specs.Prelude.{◌≡◌, ◌+◌, ◌<◌, ◌≤◌};
ghost use Rattle.homology.specs.Reduction.{column_puts};
ghost use Rattle.matrix.specs.Terms.{told, puts_outcome, puts_after};
ghost use Rattle.reduction.specs.Grids.{code_of, codes_of, system_in, column_loads, loads};
ghost use Rattle.reduction.specs.Stores.{Stays};

use crate::reducer::Reducer;
use crate::rows::NonzeroRows;
use field::Field;
use matrix::grid::Grid;
use matrix::store::Store;
use refusal::Refusal;

// The code, or 0 for what is no code of the field.
fn code<F: Field>(field: &F, x: u16) -> u16
    ensures { result ≡ code_of (F.Field.arithmetic field.now) x }
{
    if (x as u32) < field.order() { x } else { 0 }
}

impl<'a, F: Field> Reducer<'a, F> {
    // Puts the codes that the grid holds in the first rows of a column.
    fn load_codes<G: Grid, S: Store>(
        &self,
        start: &G,
        store: &mut S,
        column: u32,
    ) -> Result<(), Refusal>
        ensures answer { told result ≡ puts_outcome (S.Store.terms store.old) (S.Grid.holds store.old) (column_puts self.now.shape.edges (codes_of (F.Field.arithmetic self.now.field.now) (G.Grid.holds start.now)) column) }
        ensures after { S.Grid.holds store.new ≡ puts_after (S.Store.terms store.old) (S.Grid.holds store.old) (column_puts self.now.shape.edges (codes_of (F.Field.arithmetic self.now.field.now) (G.Grid.holds start.now)) column) }
        ensures stays { Stays S.Store.terms S.Store.backing store.old store.new }
    {
        for row in NonzeroRows::of(start, column, self.shape.edges) {
            let code = code(self.field, start.entry(row, column));
            if code != 0 {
                store.put(row, column, code)?;
            }
        }
        Ok(())
    }

    // Puts one column: its codes, and for a triangle a 1 in the row that records it.
    fn load_column<G: Grid, S: Store>(
        &self,
        start: &G,
        store: &mut S,
        column: u32,
    ) -> Result<(), Refusal>
        requires { (1 ≤ column) × (column ≤ self.now.shape.triangles + 1) }
        ensures answer { told result ≡ puts_outcome (S.Store.terms store.old) (S.Grid.holds store.old) (column_loads (system_in (F.Field.arithmetic self.now.field.now) self.now.shape (G.Grid.holds start.now)) column) }
        ensures after { S.Grid.holds store.new ≡ puts_after (S.Store.terms store.old) (S.Grid.holds store.old) (column_loads (system_in (F.Field.arithmetic self.now.field.now) self.now.shape (G.Grid.holds start.now)) column) }
        ensures stays { Stays S.Store.terms S.Store.backing store.old store.new }
    {
        self.load_codes(start, store, column)?;
        if column <= self.shape.triangles {
            store.put(self.shape.edges + column, column, 1)?;
        }
        Ok(())
    }

    // Puts the starting matrix column by column, rows rising, up to the first put that is refused.
    pub(crate) fn load<G: Grid, S: Store>(&self, start: &G, store: &mut S) -> Result<(), Refusal>
        ensures answer { told result ≡ puts_outcome (S.Store.terms store.old) (S.Grid.holds store.old) (loads (system_in (F.Field.arithmetic self.now.field.now) self.now.shape (G.Grid.holds start.now))) }
        ensures after { S.Grid.holds store.new ≡ puts_after (S.Store.terms store.old) (S.Grid.holds store.old) (loads (system_in (F.Field.arithmetic self.now.field.now) self.now.shape (G.Grid.holds start.now))) }
        ensures stays { Stays S.Store.terms S.Store.backing store.old store.new }
    {
        for column in 1..=self.shape.triangles + 1 {
            self.load_column(start, store, column)?;
        }
        Ok(())
    }
}
