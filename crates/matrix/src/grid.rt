// A grid of codes that can be read, rows and columns counted from 1.
ghost use Rattle.std.specs.Prelude.{◌≡◌};
ghost use Rattle.matrix.specs.Matrix.{Matrix, Outside};
ghost use Rattle.matrix.specs.Nonzero.{next_in, last_in};

pub trait Grid {
    // The shape and the entries.
    ghost holds: { Self → Matrix };

    // Outside its shape a grid holds 0.
    ghost outside: { (s : Self) → Outside (holds s) };

    fn rows(&self) -> u32
        ensures { result ≡ (holds self.now).rows };

    fn columns(&self) -> u32
        ensures { result ≡ (holds self.now).columns };

    // The code at a row and a column, 0 outside the shape.
    fn entry(&self, row: u32, column: u32) -> u16
        ensures { result ≡ (holds self.now).at row column };

    // The first row of the column, from a row on, whose entry is not 0.
    fn next_nonzero(&self, column: u32, first: u32) -> Option<u32>
        ensures { result ≡ next_in (holds self.now) column first }
    {
        // A `for`, here and below: with `find` the dense store takes up to half more instructions.
        for row in first..=self.rows() {
            if self.entry(row, column) != 0 {
                return Some(row);
            }
        }
        None
    }

    // The last row of the column, up to a row, whose entry is not 0.
    fn last_nonzero(&self, column: u32, last: u32) -> Option<u32>
        ensures { result ≡ last_in (holds self.now) column last }
    {
        for row in (1..=last.min(self.rows())).rev() {
            if self.entry(row, column) != 0 {
                return Some(row);
            }
        }
        None
    }
}
