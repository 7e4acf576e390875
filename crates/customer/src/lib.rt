// What a customer brings: fields of 4 and of 9 elements by tables, stores of square and of tall matrices, a thinning order, and code
// that is generic over fields and stores.
#![tactic(auto)]

pub mod examples;
pub mod fill;
pub mod gf4;
pub mod gf9;
pub mod highest;
pub mod shaped;
pub mod square;
pub mod tall;
