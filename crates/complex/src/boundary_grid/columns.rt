// The first nonzero row of a column, by looking up the few edges whose rows can be nonzero.
ghost use Rattle.std.specs.Prelude.{◌≡◌, ℕ, ◌+◌, ◌-◌, ◌≤◌, ◌↔◌, length, IsTrue};
ghost use Rattle.matrix.specs.Nonzero.{next_in};
ghost use Rattle.complex.specs.Grids.{matrix_of, Before, HasRow, Meets, Nearer};
ghost use Rattle.complex.specs.Orders.{Stands};

use super::BoundaryGrid;
use crate::order::{find, is_below};
use matrix::grid::Grid;
use survey::edge::{Edge, Triangle};
use survey::fence::next;

// Is the row before the one found, if one was?
fn is_before(row: u32, found: Option<u32>) -> bool
    ensures { IsTrue result ↔ Before row found }
{
    found.is_none_or(|found| row < found)
}

impl<'e, 't, 'f> BoundaryGrid<'e, 't, 'f> {
    // Is the edge that of the row found so far, or one behind it, so that it stands in no row before?
    #[inline(always)]
    fn is_behind(&self, edge: Edge, so_far: Option<u32>) -> bool
        ensures { IsTrue result → (i : ℕ) → 1 ≤ i → Before i so_far → Stands self.now.edges.now (i - 1) edge → ⊥ }
    {
        let Some(row) = so_far else {
            return false;
        };
        let place = row.saturating_sub(1) as usize;
        place < self.edges.len() && !is_below(&edge, &self.edges[place])
    }

    // The row of the edge, if it has one from `first` on: the rows before are not searched. Inlined with `nearer`, since the load asks for
    // each edge of each column.
    #[inline(always)]
    fn row_of(&self, first: u32, edge: Edge) -> Option<u32>
        ensures { HasRow self.now.edges.now first edge result }
    {
        let passed = first.saturating_sub(1) as usize;
        if passed >= self.edges.len() || is_below(&edge, &self.edges[passed]) {
            return None;
        }
        let place = find(&self.edges[passed..], &edge)?;
        Some((passed + place) as u32 + 1)
    }

    // The nearest of the row found so far and that of the edge, if this is nonzero in the column and lies from `first` on. The edge is one
    // of the column, which is 0 there only if the code for -1 is: no field's is, and so the entry need not be worked out.
    #[inline(always)]
    fn nearer(&self, column: u32, first: u32, edge: Edge, so_far: Option<u32>) -> Option<u32>
        requires { Meets (λ i. (matrix_of self.now).at i column) self.now.minus self.now.edges.now edge }
        ensures { Nearer (λ i. (matrix_of self.now).at i column) self.now.edges.now first edge so_far result }
    {
        if self.is_behind(edge, so_far) {
            return so_far;
        }
        let Some(row) = self.row_of(first, edge) else {
            return so_far;
        };
        if is_before(row, so_far) && (self.minus != 0 || self.entry(row, column) != 0) {
            Some(row)
        } else {
            so_far
        }
    }

    // In the column of a triangle only its own row and those of its three edges can be nonzero. The lowest edge first: the others are
    // then behind it, and not looked up.
    pub(crate) fn next_in_boundary(&self, column: u32, first: u32) -> Option<u32>
        requires { (1 ≤ column) × (column ≤ length self.now.triangles.now) }
        ensures { result ≡ next_in (matrix_of self.now) column first }
    {
        let own = self.edges.len() as u32 + column;
        if first > own {
            return None;
        }
        let Triangle { a, b, c } = self.triangles[column as usize - 1];
        let nearest = self.nearer(column, first, Edge { a, b }, Some(own));
        let nearest = self.nearer(column, first, Edge { a, b: c }, nearest);
        self.nearer(column, first, Edge { a: b, b: c }, nearest)
    }

    // In the column of the fence only the rows of its steps can be nonzero.
    pub(crate) fn next_in_fence(&self, first: u32) -> Option<u32>
        ensures { result ≡ next_in (matrix_of self.now) (length self.now.triangles.now + 1) first }
    {
        let column = self.triangles.len() as u32 + 1;
        let mut nearest = None;
        for (i, from) in self.fence.iter().enumerate() {
            let to = next(self.fence, i);
            let forth = self.nearer(column, first, Edge { a: *from, b: to }, nearest);
            nearest = self.nearer(column, first, Edge { a: to, b: *from }, forth);
        }
        nearest
    }
}
