// Reducing the columns of a loaded matrix, each by the additions that are due to it.
ghost use Rattle.std.specs.Prelude.{◌≡◌, ◌+◌, ◌-◌, ◌<◌, ◌≤◌};
ghost use Rattle.reduction.specs.Pivots.{Table};
ghost use Rattle.reduction.specs.Progress.{Ready, Settles, SettlesAll, Clears};
ghost use Rattle.reduction.specs.Stores.{Stays};

use crate::reducer::Reducer;
use field::Field;
use matrix::store::Store;
use refusal::Refusal;

// The low of a column that is reduced, and how many additions there were so far. The count is handed on, since a `Reducer` that
// counted would have to be lent for writing, and each method would have to promise that field, shape and pivots stay.
#[derive(Clone, Copy)]
pub(crate) struct Settled {
    pub(crate) low: Option<u32>,
    pub(crate) additions: u32,
}

impl<'a, F: Field> Reducer<'a, F> {
    // Adds earlier columns to the column, until its low is that of none of them.
    fn settle_column<S: Store>(
        &self,
        store: &mut S,
        column: u32,
        mut additions: u32,
    ) -> Result<Settled, Refusal>
        requires ready { Ready (F.Field.arithmetic self.now.field.now) self.now.shape.edges self.now.shape.triangles (S.Grid.holds store.old) additions }
        requires pivots { Table self.now.shape.edges (S.Grid.holds store.old).at (column - 1) self.now.pivots.owners }
        requires inside { (1 ≤ column) × (column ≤ self.now.shape.triangles) }
        ensures settles { Settles (F.Field.arithmetic self.now.field.now) self.now.shape.edges self.now.shape.triangles (S.Store.terms store.old) (S.Grid.holds store.old) additions column self.now.pivots.owners (S.Grid.holds store.new) result }
        ensures stays { Stays S.Store.terms S.Store.backing store.old store.new }
    {
        let mut low = (*store).last_nonzero(column, self.shape.edges);
        while let Some(row) = low
            && let Some(owner) = self.pivots.owner_of(row)
        {
            self.clear(store, row, owner, column)?;
            additions += 1;
            low = (*store).last_nonzero(column, row - 1);
        }
        Ok(Settled { low, additions })
    }

    // Reduces the columns of the triangles in turn, and tells how many additions it took.
    pub(crate) fn settle_columns<S: Store>(&mut self, store: &mut S) -> Result<u32, Refusal>
        requires ready { Ready (F.Field.arithmetic self.old.field.now) self.old.shape.edges self.old.shape.triangles (S.Grid.holds store.old) 0 }
        requires pivots { Table self.old.shape.edges (S.Grid.holds store.old).at 0 self.old.pivots.owners }
        ensures settles { SettlesAll (F.Field.arithmetic self.old.field.now) self.old.shape.edges self.old.shape.triangles (S.Store.terms store.old) (S.Grid.holds store.old) self.new.pivots.owners (S.Grid.holds store.new) result }
        ensures stays { Stays S.Store.terms S.Store.backing store.old store.new }
        ensures field { self.new.field ≡ self.old.field }
        ensures shape { self.new.shape ≡ self.old.shape }
    {
        let mut additions = 0;
        for column in 1..=self.shape.triangles {
            let settled = self.settle_column(store, column, additions)?;
            additions = settled.additions;
            if let Some(row) = settled.low {
                self.pivots.own(row, column);
            }
        }
        Ok(additions)
    }

    // Removes from the last column, from the last row up, every entry in a row that is a low, and tells how many additions
    // there were so far.
    pub(crate) fn settle_target<S: Store>(
        &self,
        store: &mut S,
        mut additions: u32,
    ) -> Result<u32, Refusal>
        requires ready { Ready (F.Field.arithmetic self.now.field.now) self.now.shape.edges self.now.shape.triangles (S.Grid.holds store.old) additions }
        requires pivots { Table self.now.shape.edges (S.Grid.holds store.old).at self.now.shape.triangles self.now.pivots.owners }
        ensures clears { Clears (F.Field.arithmetic self.now.field.now) self.now.shape.edges self.now.shape.triangles (S.Store.terms store.old) (S.Grid.holds store.old) additions self.now.pivots.owners (S.Grid.holds store.new) result }
        ensures stays { Stays S.Store.terms S.Store.backing store.old store.new }
    {
        let last = self.shape.triangles + 1;
        for row in (1..=self.shape.edges).rev() {
            if let Some(owner) = self.pivots.owner_of(row)
                && (*store).entry(row, last) != 0
            {
                self.clear(store, row, owner, last)?;
                additions += 1;
            }
        }
        Ok(additions)
    }
}
