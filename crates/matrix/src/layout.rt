// The shape of a matrix, and its entries column by column: the place of one, and what it counts for.
ghost use Rattle.std.specs.Prelude.{◌≡◌, ◌*◌, ◌^◌, ◌<◌};
ghost use Rattle.matrix.specs.Matrix.{one_if_not_zero};
ghost use Rattle.matrix.specs.Layout.{place, place_in};

// The shape of a matrix.
#[derive(Clone, Copy, Debug, Default, PartialEq, Eq)]
pub struct Shape {
    pub rows: u32,
    pub columns: u32,
}

impl Shape {
    // How many entries it has.
    pub fn size(self) -> u64
        ensures { result ≡ self.rows * self.columns }
    {
        self.rows as u64 * self.columns as u64
    }

    // The place of an entry, where it lies in the shape. `range` says that rows and columns are numbers of 32 bits, which a proof does not
    // know by itself of a shape behind a reference.
    pub fn place(self, row: u32, column: u32) -> Option<usize>
        ensures place { result ≡ place_in self.rows self.columns row column }
        ensures range { (self.rows < 2 ^ 32) × (self.columns < 2 ^ 32) }
    {
        let inside = (1..=self.rows).contains(&row) && (1..=self.columns).contains(&column);
        inside.then(|| place_of(self.rows, row, column))
    }
}

// The place of an entry, counted from 0, where each column has so many rows.
pub fn place_of(rows: u32, row: u32, column: u32) -> usize
    ensures { result ≡ place rows row column }
{
    column.saturating_sub(1) as usize * rows as usize + row.saturating_sub(1) as usize
}

// What a code counts for among the nonzero ones.
pub fn not_zero(code: u16) -> u64
    ensures { result ≡ one_if_not_zero code }
{
    u64::from(code != 0)
}
