// Pairs and triples of sensors.
ghost use Rattle.std.specs.Prelude.{◌++◌, Some, codes};
ghost use Rattle.std.specs.Fmt.{decimal};

use std::fmt;

// A pair of sensors.
#[derive(Clone, Copy, Debug, Default, PartialEq, Eq, PartialOrd, Ord)]
pub struct Edge {
    pub a: u16,
    pub b: u16,
}

// Three sensors.
#[derive(Clone, Copy, Debug, Default, PartialEq, Eq, PartialOrd, Ord)]
pub struct Triangle {
    pub a: u16,
    pub b: u16,
    pub c: u16,
}

impl fmt::Display for Edge {
    ghost output = { λ e. Some (decimal e.a ++ codes "," ++ decimal e.b) };

    fn fmt<W: fmt::Write>(&self, f: &mut fmt::Formatter<W>) -> fmt::Result {
        write!(f, "{},{}", self.a, self.b)
    }
}

impl fmt::Display for Triangle {
    ghost output = { λ t. Some (decimal t.a ++ codes "," ++ decimal t.b ++ codes "," ++ decimal t.c) };

    fn fmt<W: fmt::Write>(&self, f: &mut fmt::Formatter<W>) -> fmt::Result {
        write!(f, "{},{},{}", self.a, self.b, self.c)
    }
}
