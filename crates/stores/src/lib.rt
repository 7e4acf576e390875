// Stores over memory that is lent to them.
#![tactic(auto)]

pub mod dense;
mod packed;
pub mod width;
