// The starting matrix as a grid that holds no entries: it reads them off lists.
ghost use Rattle.std.specs.Prelude.{◌≡◌, ◌≤◌, true, length};
ghost use Rattle.complex.specs.Orders.{ascends, edge_less};

mod columns;
pub mod reads;

use survey::edge::{Edge, Triangle};

// The edges ascend, and there are no more edges and no more triangles than a survey can have. `minus` is the field's code for -1.
#[derive(Drop)]
pub struct BoundaryGrid<'e, 't, 'f> {
    edges: &'e [Edge],
    triangles: &'t [Triangle],
    fence: &'f [u16],
    minus: u16,
    ghost links: { length edges.now ≤ 512 },
    ghost thirds: { length triangles.now ≤ 1024 },
    ghost rising: { ascends edge_less edges.now ≡ true },
}
