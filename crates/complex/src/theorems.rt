// What is shown of edges, triangles and the starting matrix.
ghost use Rattle.complex.specs.Hub.{HubEdges, HubTriangles, HubEntries};
ghost use Rattle.complex.specs.Theorems.{ListingsAscend, Monotone};

// The edges and the triangles of any survey and set ascend.
pub fn listings_ascend()
    ensures { ListingsAscend }
{}

// A set with more sensors on has every edge and triangle of the smaller one, in the same order.
pub fn more_on_has_more()
    ensures { Monotone }
{}

// The hub's edges, its triangles and the nonzero entries of its starting matrix.
pub fn hub_computed()
    ensures edges { HubEdges }
    ensures triangles { HubTriangles }
    ensures entries { HubEntries }
{}
