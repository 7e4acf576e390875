// A store: a grid that can be edited, within its code bound, the shapes that it takes and an entry limit for each.
ghost use Rattle.std.specs.Prelude.{◌≡◌};
ghost use Rattle.matrix.specs.Matrix.{count, put_at};
ghost use Rattle.matrix.specs.Terms.{Terms, Backing, told, begin_outcome, begin_after, put_outcome, put_after, puts_outcome, puts_after};
ghost use Rattle.matrix.specs.Multiples.{adding};
ghost use Rattle.matrix.specs.Theorems.{PutCounts, HighestSplits, HighestTells, FirstPastLimit, AcceptedPlayed};

use crate::grid::Grid;
use crate::put::Put;
use field::Field;
use refusal::Refusal;

// An edit leaves terms and backing alone: two clauses, since an implementer shows them apart. Rows, columns and codes are plain numbers,
// since customers implement these methods.
pub trait Store: Grid {
    // The code bound, the shapes taken and the entry limits.
    ghost terms: { Self → Terms };

    // The stores that it lies upon.
    ghost backing: { Self → Backing };

    // Takes a shape, with every entry 0. A shape that the store does not take is refused, and nothing changes.
    fn begin(&mut self, rows: u32, columns: u32) -> Result<(), Refusal>
        ensures answer { told result ≡ begin_outcome (terms self.old) rows columns }
        ensures after { Self.Grid.holds self.new ≡ begin_after (terms self.old) (Self.Grid.holds self.old) rows columns }
        ensures terms { terms self.new ≡ terms self.old }
        ensures backing { backing self.new ≡ backing self.old };

    // Sets one entry. Refused in this order: a place outside the shape, a code not below the bound, and one nonzero entry
    // more than the limit of the shape; then nothing changes. A code of 0 never wants room.
    fn put(&mut self, row: u32, column: u32, code: u16) -> Result<(), Refusal>
        ensures answer { told result ≡ put_outcome (terms self.old) (Self.Grid.holds self.old) (put_at row column code) }
        ensures after { Self.Grid.holds self.new ≡ put_after (terms self.old) (Self.Grid.holds self.old) (put_at row column code) }
        ensures terms { terms self.new ≡ terms self.old }
        ensures backing { backing self.new ≡ backing self.old };

    // The number of nonzero entries.
    fn nonzero(&self) -> u64
        ensures { result ≡ count (Self.Grid.holds self.now) };

    // What every code is below.
    fn code_bound(&self) -> u32
        ensures { result ≡ (terms self.now).bound };

    // Adds `factor` times the column `from` to the column `to`: puts, rows rising, wherever the column `from` is not 0,
    // up to the first put that is refused.
    fn add_multiple<F: Field>(
        &mut self,
        field: &F,
        from: u32,
        to: u32,
        factor: u16,
    ) -> Result<(), Refusal>
        ensures answer { told result ≡ puts_outcome (terms self.old) (Self.Grid.holds self.old) (adding (F.Field.arithmetic field.now) factor from to (Self.Grid.holds self.old).at (Self.Grid.holds self.old).rows) }
        ensures after { Self.Grid.holds self.new ≡ puts_after (terms self.old) (Self.Grid.holds self.old) (adding (F.Field.arithmetic field.now) factor from to (Self.Grid.holds self.old).at (Self.Grid.holds self.old).rows) }
        ensures terms { terms self.new ≡ terms self.old }
        ensures backing { backing self.new ≡ backing self.old }
    {
        // Not a `for` over the rows: a store finds its next nonzero row faster than row by row, and `done + 1` could overflow after the last row.
        let mut done = 0;
        while done < self.rows() {
            let Some(row) = self.next_nonzero(from, done + 1) else {
                return Ok(());
            };
            let code = self.entry(row, from);
            let sum = field.sum(self.entry(row, to), field.product(factor, code));
            self.put(row, to, sum)?;
            done = row;
        }
        Ok(())
    }
}

// Makes puts in turn, up to the first that is refused.
pub fn put_all<S: Store>(store: &mut S, puts: &[Put]) -> Result<(), Refusal>
    ensures answer { told result ≡ puts_outcome (S.terms store.old) (S.Grid.holds store.old) puts.now }
    ensures after { S.Grid.holds store.new ≡ puts_after (S.terms store.old) (S.Grid.holds store.old) puts.now }
    ensures terms { S.terms store.new ≡ S.terms store.old }
    ensures backing { S.backing store.new ≡ S.backing store.old }
    ensures counts { PutCounts }
    ensures splits { HighestSplits }
    ensures tells { HighestTells }
    ensures past { FirstPastLimit }
    ensures played { AcceptedPlayed }
{
    for p in puts {
        store.put(p.row, p.column, p.code)?;
    }
    Ok(())
}
