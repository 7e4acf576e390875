// The pivots of the columns that are reduced: which column has a row as its low.
ghost use Rattle.std.specs.Prelude.{◌≡◌, ◌<◌, ◌≤◌, replicate, slice_index, slice_set};
ghost use Rattle.reduction.specs.Pivots.{unless_zero};

// For each row up to 512 the column that has it as its low, and 0 for none: to set up a table of Options takes 2,000 instructions
// more, so that the hub came to 3.2 times the baseline's, over the bar of 3.
#[derive(Drop)]
pub(crate) struct Pivots {
    pub(crate) owners: [u16; 513],
}

impl Pivots {
    // No column yet.
    pub(crate) fn new() -> Pivots
        ensures { result.owners ≡ replicate 513 0 }
    {
        Pivots { owners: [0; 513] }
    }

    // The column that has the row as its low.
    pub(crate) fn owner_of(&self, row: u32) -> Option<u32>
        requires { row ≤ 512 }
        ensures { result ≡ unless_zero (slice_index self.now.owners row) }
    {
        match self.owners[row as usize] {
            0 => None,
            column => Some(column as u32),
        }
    }

    // The column has the row as its low.
    pub(crate) fn own(&mut self, row: u32, column: u32)
        requires { (row ≤ 512) × (column < 65536) }
        ensures { self.new.owners ≡ slice_set self.old.owners row column }
    {
        self.owners[row as usize] = column as u16;
    }
}
