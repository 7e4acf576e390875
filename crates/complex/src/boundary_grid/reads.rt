// Making the grid, and reading it.
ghost use Rattle.std.specs.Prelude.{◌≡◌, ◌&&◌, length, nat_le};
ghost use Rattle.complex.specs.Orders.{ascends, edge_less};

use super::BoundaryGrid;
use crate::boundary::{boundary_code, fence_code};
use crate::order::is_ascending;
use matrix::grid::Grid;
use survey::edge::{Edge, Triangle};
use survey::limits::{MAX_LINKS, MAX_TRIANGLES};

// Do they ascend, and are they no more than a survey can have?
fn are_edges(list: &[Edge]) -> bool
    ensures { result ≡ (nat_le (length list.now) 512 && ascends edge_less list.now) }
{
    list.len() <= MAX_LINKS as usize && is_ascending(list)
}

impl<'e, 't, 'f> BoundaryGrid<'e, 't, 'f> {
    ghost use Rattle.complex.specs.Boundaries.{listed_system};
    ghost use Rattle.complex.specs.Grids.{matrix_of, usable_edges_of, usable_triangles_of, OfSurveys};
    ghost use Rattle.complex.specs.Systems.{starting_matrix};

    // The grid of listed edges and triangles, a fence, and a field's code for -1. A list that no survey can have counts as empty.
    pub fn new(
        edges: &'e [Edge],
        triangles: &'t [Triangle],
        fence: &'f [u16],
        minus: u16,
    ) -> BoundaryGrid<'e, 't, 'f>
        ensures holds { matrix_of result ≡ starting_matrix (listed_system minus (usable_edges_of edges.now) (usable_triangles_of triangles.now) fence.now) }
        ensures survey { OfSurveys edges.now triangles.now fence.now minus (matrix_of result) }
    {
        let edges = if are_edges(edges) { edges } else { &[] };
        let triangles = if triangles.len() <= MAX_TRIANGLES as usize {
            triangles
        } else {
            &[]
        };
        BoundaryGrid {
            edges,
            triangles,
            fence,
            minus,
        }
    }
}

impl<'e, 't, 'f> Grid for BoundaryGrid<'e, 't, 'f> {
    ghost use Rattle.complex.specs.Grids.{matrix_of, starting_outside};

    ghost holds = { matrix_of };

    ghost outside = { λ g. starting_outside _ };

    // A row for each edge, and one for each triangle.
    fn rows(&self) -> u32 {
        (self.edges.len() + self.triangles.len()) as u32
    }

    // A column for each triangle, and one for the fence.
    fn columns(&self) -> u32 {
        self.triangles.len() as u32 + 1
    }

    // What a triangle's boundary or the fence has on an edge, and 1 where a triangle's column meets its own row.
    #[inline]
    fn entry(&self, row: u32, column: u32) -> u16 {
        let edges = self.edges.len() as u32;
        let triangles = self.triangles.len() as u32;
        if row == 0 || column == 0 || column > triangles + 1 {
            0
        } else if row > edges {
            u16::from(column <= triangles && row - edges == column)
        } else {
            let edge = self.edges[row as usize - 1];
            if column > triangles {
                fence_code(self.fence, edge, self.minus)
            } else {
                boundary_code(self.triangles[column as usize - 1], edge, self.minus)
            }
        }
    }

    // The first row of the column, from a row on, whose entry is not 0, by lookups.
    fn next_nonzero(&self, column: u32, first: u32) -> Option<u32> {
        let triangles = self.triangles.len() as u32;
        if column == 0 || column > triangles + 1 {
            None
        } else if column > triangles {
            self.next_in_fence(first)
        } else {
            self.next_in_boundary(column, first)
        }
    }
}
