// The reduction of a linear system in a store, over any field: its starting matrix is loaded, reduced by the additions that
// are due, and the answer is read off.
#![tactic(auto)]

mod columns;
mod load;
mod pivots;
mod read_off;
mod reducer;
mod rows;
mod shape;
pub mod solve;
