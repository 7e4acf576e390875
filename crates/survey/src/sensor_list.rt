// A list of at most 64 sensors' numbers.
ghost use Rattle.std.specs.Prelude.{◌≡◌};
ghost use Rattle.survey.specs.Lists.{fitting, with_number};

use crate::limits::MAX_FENCE;
use std::marker::Model;

// There is no heap below the console, so the numbers are the first `len` of a table's places. A clause sees their list.
// The library's `ArrayVec` would do, but every crate above would rest on it for the sake of these five functions.
#[derive(Drop)]
pub struct SensorList {
    table: [u16; MAX_FENCE],
    len: usize,
}

impl Model for SensorList {
    ghost use Rattle.std.specs.Prelude.{ℕ, ◌≤◌, List, take};

    ghost Value = { List ℕ };

    ghost view = { λ l. take l.len l.table };

    ghost invariant = { λ l. l.len ≤ 64 };
}

impl SensorList {
    ghost use Rattle.std.specs.Bool.{then_some, OnFalse};
    ghost use Rattle.std.specs.Prelude.{[]};

    // The list with no number in it.
    pub fn new() -> SensorList
        ensures { result ≡ [] }
    {
        SensorList {
            table: [0; MAX_FENCE],
            len: 0,
        }
    }

    // The numbers of the slice; none where there are more than 64.
    pub fn from_slice(numbers: &[u16]) -> Option<SensorList>
        ensures { result ≡ fitting numbers.now }
    {
        let len = numbers.len();
        if len > MAX_FENCE {
            return None;
        }
        let mut table = [0; MAX_FENCE];
        table[..len].copy_from_slice(numbers);
        Some(SensorList { table, len })
    }

    // With one number more at the end; none where there is no place for it.
    pub fn with(mut self, number: u16) -> Option<SensorList>
        ensures { result ≡ with_number self number }
    {
        if self.push(number) { Some(self) } else { None }
    }

    // Adds one number at the end, and says whether there was a place for it; where there was none, the list stays as it was.
    pub fn push(&mut self, number: u16) -> bool
        ensures answer { then_some result self.new ≡ with_number self.old number }
        ensures full { OnFalse result (self.new ≡ self.old) }
    {
        if self.len == MAX_FENCE {
            return false;
        }
        self.table[self.len] = number;
        self.len += 1;
        true
    }

    // The numbers in their order.
    pub fn as_slice(&self) -> &[u16]
        ensures { result.now ≡ self.now }
    {
        &self.table[..self.len]
    }
}
