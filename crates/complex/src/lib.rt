// The complex of the sensors that are on: edges, triangles, boundaries, and the matrix that is reduced.
#![tactic(auto)]

pub mod boundary;
pub mod boundary_grid;
pub mod listing;
pub mod order;
pub mod theorems;
