// Which sensors each sensor names as its neighbours, while a survey is put together.
ghost use Rattle.std.specs.Prelude.{◌≡◌, ℕ, ◌≤◌, true, false};
ghost use Rattle.survey.specs.Tables.{at};

use crate::limits::PLACES;

// The sensors are 1 to `count`; `rows[x][y]` says that x names y, in a table of fixed size, since there is no heap here.
// A name may stand on one side only.
#[derive(Drop)]
pub struct Neighbours {
    count: u16,
    rows: [[bool; PLACES]; PLACES],
    ghost least: { 3 ≤ count },
    ghost most: { count ≤ 64 },
    ghost inside: { (x y : ℕ) → at rows x y ≡ true → (1 ≤ x) × (x ≤ count) × (1 ≤ y) × (y ≤ count) },
    ghost apart: { (x : ℕ) → at rows x x ≡ false },
}

pub mod edits;
