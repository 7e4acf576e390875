// A survey's text: its characters, number columns and tokens, and reading and writing it.
#![tactic(auto)]

pub mod column;
mod line;
pub mod read;
mod reader;
pub mod symbol;
pub mod token;
pub mod write;
