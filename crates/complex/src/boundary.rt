// What boundaries and the fence have on an edge, where `minus` is the field's code for -1.
ghost use Rattle.std.specs.Prelude.{◌≡◌};
ghost use Rattle.survey.specs.Surveys.{steps};
ghost use Rattle.complex.specs.Boundaries.{boundary_code_of, fence_code_of, has_step_of};

use survey::edge::{Edge, Triangle};
use survey::fence::next;

// What the boundary of a triangle has on an edge.
pub fn boundary_code(triangle: Triangle, edge: Edge, minus: u16) -> u16
    ensures { result ≡ boundary_code_of minus triangle edge }
{
    let Triangle { a, b, c } = triangle;
    if edge == (Edge { a: b, b: c }) {
        1
    } else if edge == (Edge { a, b: c }) {
        minus
    } else if edge == (Edge { a, b }) {
        1
    } else {
        0
    }
}

// Does a step round the fence go from `u` to `v`?
pub fn has_step(fence: &[u16], u: u16, v: u16) -> bool
    ensures { result ≡ has_step_of u v (steps fence.now) }
{
    fence
        .iter()
        .enumerate()
        .any(|(i, x)| u == *x && v == next(fence, i))
}

// What the fence has on an edge.
pub fn fence_code(fence: &[u16], edge: Edge, minus: u16) -> u16
    ensures { result ≡ fence_code_of minus fence.now edge }
{
    if has_step(fence, edge.a, edge.b) {
        1
    } else if has_step(fence, edge.b, edge.a) {
        minus
    } else {
        0
    }
}
