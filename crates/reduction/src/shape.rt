// How many rows and columns a system has: a row for each edge, a column for each triangle.
ghost use Rattle.std.specs.Prelude.{◌≤◌};

#[derive(Clone, Copy)]
pub(crate) struct Shape {
    pub(crate) edges: u32,
    pub(crate) triangles: u32,
    // no more than a survey has links and triangles
    ghost few_edges: { edges ≤ 512 },
    ghost few_triangles: { triangles ≤ 1024 },
}
