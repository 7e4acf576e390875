// Rows of codes over any field.
ghost use Rattle.std.specs.Prelude.{◌≡◌};
ghost use Rattle.field.specs.Rows.{plus_multiple};

use crate::Field;

// Adds `factor` times `other` to `row`, code by code, as far as both go.
// By the laws a place of `row` that holds no code becomes 0; where `other` holds none, or `factor` is none, a code stays.
pub fn add_multiple<F: Field>(field: &F, row: &mut [u16], factor: u16, other: &[u16])
    ensures { row.new ≡ plus_multiple (F.arithmetic field.now) factor row.old other.now }
{
    // by index: of what is written through `iter_mut().zip(other)` the checker knows nothing afterwards
    for i in 0..row.len().min(other.len()) {
        row[i] = field.sum(row[i], field.product(factor, other[i]));
    }
}
