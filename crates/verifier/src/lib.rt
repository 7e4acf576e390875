// The verifier: a roster of a survey's sensors, read from a text and written back.
#![tactic(auto)]

pub mod roster;
pub mod sensor;
