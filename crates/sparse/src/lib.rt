// A store that keeps its nonzero entries in cells lent to it, chained by column.
#![tactic(auto)]

pub mod cell;
mod chains;
mod edits;
pub mod sparse;
mod spots;
