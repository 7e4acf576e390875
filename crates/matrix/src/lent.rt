// A grid that is lent is a grid, and a store that is lent is a store. Each method is handed on, also the provided ones, since a store may
// have faster ones of its own.
ghost use Rattle.matrix.specs.Terms.{upon};

use crate::grid::Grid;
use crate::store::Store;
use field::Field;
use refusal::Refusal;

impl<'a, S: Grid> Grid for &'a mut S {
    ghost holds = { λ q. S.Grid.holds q.now };

    ghost outside = { λ q. S.Grid.outside q.now };

    fn rows(&self) -> u32 {
        (**self).rows()
    }

    fn columns(&self) -> u32 {
        (**self).columns()
    }

    fn entry(&self, row: u32, column: u32) -> u16 {
        (**self).entry(row, column)
    }

    fn next_nonzero(&self, column: u32, first: u32) -> Option<u32> {
        (**self).next_nonzero(column, first)
    }

    fn last_nonzero(&self, column: u32, last: u32) -> Option<u32> {
        (**self).last_nonzero(column, last)
    }
}

impl<'a, S: Store> Store for &'a mut S {
    ghost terms = { λ q. S.Store.terms q.now };

    ghost backing = { λ q. upon q.ghost_name (S.Store.terms q.now) (S.Store.backing q.now) };

    fn begin(&mut self, rows: u32, columns: u32) -> Result<(), Refusal> {
        (**self).begin(rows, columns)
    }

    fn put(&mut self, row: u32, column: u32, code: u16) -> Result<(), Refusal> {
        (**self).put(row, column, code)
    }

    fn nonzero(&self) -> u64 {
        (**self).nonzero()
    }

    fn code_bound(&self) -> u32 {
        (**self).code_bound()
    }

    fn add_multiple<F: Field>(
        &mut self,
        field: &F,
        from: u32,
        to: u32,
        factor: u16,
    ) -> Result<(), Refusal> {
        (**self).add_multiple(field, from, to, factor)
    }
}
