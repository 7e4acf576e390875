// The two answers that a system can have.

#[derive(Clone, Copy, Debug, PartialEq, Eq)]
pub enum Kind {
    // a coefficient for each triangle
    Filling,
    // a value for each edge
    Block,
}
