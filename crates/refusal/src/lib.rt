// Every refusal that a call can answer, and its number.
#![tactic(auto)]

ghost use Rattle.std.specs.Prelude.{◌≡◌, Some};
ghost use Rattle.refusal.specs.Numbers.{number_of};
ghost use Rattle.refusal.specs.Printed.{printed};

use std::error::Error;
use std::fmt;

#[derive(Clone, Copy, Debug, PartialEq, Eq)]
pub enum Refusal {
    // a line of a survey text is not formed as the line due there
    MalformedLine = 1,
    // the number of sensors is outside 3 to 64
    SensorCount = 2,
    // an N line is not that of the next sensor
    LineOutOfTurn = 3,
    // a neighbour is outside 1 to n, the sensor itself, or not above the one before
    BadNeighbour = 4,
    // a fence number is outside 1 to n, comes twice, or there are fewer than 3
    BadFence = 5,
    // a link is named on one side only
    OneSidedLink = 6,
    // there are more than 512 links
    TooManyLinks = 7,
    // there are more than 1,024 triangles
    TooManyTriangles = 8,
    // a fence sensor is not linked to the next
    FenceNotLinked = 9,
    // the modulus is not an odd prime from 3 to 251
    NotOddPrime = 10,
    // the width of an entry is not 1, 2, 4 or 8 bits
    EntryWidth = 11,
    // the store does not take the shape
    ShapeNotTaken = 12,
    // the row or the column is outside the shape
    OutsideShape = 13,
    // the code is not below the store's bound
    CodeTooLarge = 14,
    // one nonzero entry more than the store's limit
    StoreFull = 15,
    // a list or a buffer is too short for the answer
    TooShort = 16,
    // the field's order exceeds the store's bound
    FieldTooLarge = 17,
    // the sensor's number is not from 1 to n
    NoSuchSensor = 18,
    // the sensor is on the fence
    FenceSensor = 19,
    // the sensor is in the wanted state already
    AlreadySo = 20,
    // there is no filling to thin
    NoFilling = 21,
    // a claimed code is not below the field's order
    NotACode = 22,
}

impl Refusal {
    // The number by which the formats know the refusal.
    pub fn number(self) -> u8
        ensures { result ≡ number_of self }
    {
        self as u8
    }
}

impl fmt::Display for Refusal {
    ghost output = { λ r. Some (printed r) };

    fn fmt<W: fmt::Write>(&self, f: &mut fmt::Formatter<W>) -> fmt::Result {
        write!(f, "refused {}", self.number())
    }
}

impl Error for Refusal {}
