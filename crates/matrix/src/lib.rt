// Matrices of codes: the trait of a grid that can be read, that of a store that can be edited, and what puts do to one.
#![tactic(auto)]

pub mod grid;
pub mod layout;
pub mod lent;
pub mod put;
pub mod store;
pub mod theorems;
