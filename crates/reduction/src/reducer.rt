// What a reduction works with: the field, the shape of the system, and the pivots of the columns that are reduced.
ghost use Rattle.std.specs.Prelude.{◌≡◌};
ghost use Rattle.homology.specs.Reduction.{addition_puts};
ghost use Rattle.matrix.specs.Terms.{told, puts_outcome, puts_after};
ghost use Rattle.reduction.specs.Stores.{Stays};

use crate::pivots::Pivots;
use crate::shape::Shape;
use field::Field;
use matrix::store::Store;
use refusal::Refusal;

// The store is passed beside it. Were the store held here, each method would have to promise that field, shape and pivots stay, and
// each clause would speak of the whole.
#[derive(Drop)]
pub(crate) struct Reducer<'a, F: Field> {
    pub(crate) field: &'a F,
    pub(crate) shape: Shape,
    pub(crate) pivots: Pivots,
}

impl<'a, F: Field> Reducer<'a, F> {
    // Minus x over y.
    #[inline(always)]
    pub(crate) fn minus_over(&self, x: u16, y: u16) -> u16
        ensures { result ≡ (F.Field.arithmetic self.now.field.now).product ((F.Field.arithmetic self.now.field.now).negative x) ((F.Field.arithmetic self.now.field.now).inverse y) }
    {
        self.field
            .product(self.field.negative(x), self.field.inverse(y))
    }

    // Adds the column `from` to the column `to`, so many times that the entry at the row goes: minus the entry of `to` over
    // that of `from`. Inlined, since as a call it costs some two per cent of a reduction's instructions.
    #[inline(always)]
    pub(crate) fn clear<S: Store>(
        &self,
        store: &mut S,
        row: u32,
        from: u32,
        to: u32,
    ) -> Result<(), Refusal>
        ensures answer { told result ≡ puts_outcome (S.Store.terms store.old) (S.Grid.holds store.old) (addition_puts (F.Field.arithmetic self.now.field.now) (S.Grid.holds store.old).rows (S.Grid.holds store.old).at (record { from = from; to = to; row = row })) }
        ensures after { S.Grid.holds store.new ≡ puts_after (S.Store.terms store.old) (S.Grid.holds store.old) (addition_puts (F.Field.arithmetic self.now.field.now) (S.Grid.holds store.old).rows (S.Grid.holds store.old).at (record { from = from; to = to; row = row })) }
        ensures stays { Stays S.Store.terms S.Store.backing store.old store.new }
    {
        // `(*store)` asks the store itself, and not the impl for a store that is lent
        let factor = self.minus_over((*store).entry(row, to), (*store).entry(row, from));
        store.add_multiple(self.field, from, to, factor)
    }
}
