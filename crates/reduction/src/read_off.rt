// Reading the answer off a reduced matrix: the coefficients of a filling, or the values of a block.
ghost use Rattle.std.specs.Prelude.{◌≡◌, ℕ, ◌+◌, ◌-◌, ◌<◌, ◌≤◌, ◌++◌, length, drop, cond, ◌==◌};
ghost use Rattle.homology.specs.Certificate.{values, vector};
ghost use Rattle.homology.specs.Kinds.{kind_of, filled_of};
ghost use Rattle.homology.specs.Linear.{total};
ghost use Rattle.reduction.specs.Pivots.{Table};
ghost use Rattle.reduction.specs.Readings.{target_low, filling_of, block_of};

use crate::reducer::Reducer;
use crate::rows::NonzeroRows;
use field::Field;
use homology::kind::Kind;
use matrix::grid::Grid;

impl<'a, F: Field> Reducer<'a, F> {
    // Writes the coefficients of a filling: what the last column records of each triangle, negated.
    fn write_filling<G: Grid>(&self, reduced: &G, codes: &mut [u16])
        requires { self.now.shape.triangles ≤ length codes.old }
        ensures { codes.new ≡ filling_of (F.Field.arithmetic self.now.field.now) self.now.shape (G.Grid.holds reduced.now) ++ drop self.now.shape.triangles codes.old }
    {
        let last = self.shape.triangles + 1;
        // by index, since of a slice that was written through `zip` a proof knows the length alone
        for t in 0..self.shape.triangles {
            let record = reduced.entry(self.shape.edges + t + 1, last);
            codes[t as usize] = self.field.negative(record);
        }
    }

    // The sum of a column in the rows up to `last`, each row weighted by its value.
    fn weighted<G: Grid>(&self, reduced: &G, values: &[u16], column: u32, last: u32) -> u16
        requires { (last ≤ length values.now) × (last ≤ 512) }
        ensures { result ≡ total (F.Field.arithmetic self.now.field.now) last (λ i. (F.Field.arithmetic self.now.field.now).product (vector values.now i) ((G.Grid.holds reduced.now).at i column)) }
    {
        let mut sum = 0;
        for row in NonzeroRows::of(reduced, column, last) {
            let value = values[(row - 1) as usize];
            sum = self
                .field
                .sum(sum, self.field.product(value, reduced.entry(row, column)));
        }
        sum
    }

    // The value of a row, given those of the rows before it: what makes the sum of its column 0 where it is a low, the inverse
    // of the entry where it is the greatest row that is left of the target, and else 0.
    fn block_value<G: Grid>(&self, reduced: &G, top: u32, codes: &[u16], before: u32) -> u16
        requires pivots { Table self.now.shape.edges (G.Grid.holds reduced.now).at self.now.shape.triangles self.now.pivots.owners }
        requires top { top ≡ target_low self.now.shape (G.Grid.holds reduced.now) }
        requires inside { (before < self.now.shape.edges) × (self.now.shape.edges ≤ length codes.now) }
        requires values { (i : ℕ) → 1 ≤ i → i ≤ before → vector codes.now i ≡ values (F.Field.arithmetic self.now.field.now) self.now.shape.edges self.now.shape.triangles (G.Grid.holds reduced.now).at before i }
        ensures { result ≡ values (F.Field.arithmetic self.now.field.now) self.now.shape.edges self.now.shape.triangles (G.Grid.holds reduced.now).at (before + 1) (before + 1) }
    {
        let row = before + 1;
        if let Some(owner) = self.pivots.owner_of(row) {
            let sum = self.weighted(reduced, codes, owner, before);
            self.minus_over(sum, reduced.entry(row, owner))
        } else if top == row {
            self.field
                .inverse(reduced.entry(row, self.shape.triangles + 1))
        } else {
            0
        }
    }

    // Writes the values of a block, row by row.
    fn write_block<G: Grid>(&self, reduced: &G, top: u32, codes: &mut [u16])
        requires pivots { Table self.now.shape.edges (G.Grid.holds reduced.now).at self.now.shape.triangles self.now.pivots.owners }
        requires top { top ≡ target_low self.now.shape (G.Grid.holds reduced.now) }
        requires room { self.now.shape.edges ≤ length codes.old }
        ensures { codes.new ≡ block_of (F.Field.arithmetic self.now.field.now) self.now.shape (G.Grid.holds reduced.now) ++ drop self.now.shape.edges codes.old }
    {
        // by index, since each value is worked out from the codes before it
        for before in 0..self.shape.edges {
            codes[before as usize] = self.block_value(reduced, top, codes, before);
        }
    }

    // Writes the filling or the block to the front of the list, and says which it is.
    pub(crate) fn read_off<G: Grid>(&self, reduced: &G, codes: &mut [u16]) -> Kind
        requires pivots { Table self.now.shape.edges (G.Grid.holds reduced.now).at self.now.shape.triangles self.now.pivots.owners }
        requires room { (self.now.shape.edges ≤ length codes.old) × (self.now.shape.triangles ≤ length codes.old) }
        ensures kind { result ≡ kind_of (target_low self.now.shape (G.Grid.holds reduced.now) == 0) }
        ensures codes { codes.new ≡ cond (filled_of result) (filling_of (F.Field.arithmetic self.now.field.now) self.now.shape (G.Grid.holds reduced.now) ++ drop self.now.shape.triangles codes.old) (block_of (F.Field.arithmetic self.now.field.now) self.now.shape (G.Grid.holds reduced.now) ++ drop self.now.shape.edges codes.old) }
    {
        match reduced.last_nonzero(self.shape.triangles + 1, self.shape.edges) {
            None => {
                self.write_filling(reduced, codes);
                Kind::Filling
            }
            Some(top) => {
                self.write_block(reduced, top, codes);
                Kind::Block
            }
        }
    }
}
