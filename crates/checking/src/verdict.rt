// The check on any grid, read as a system of so many rows and columns with the column after them as its target.
ghost use Rattle.std.specs.Prelude.{◌≡◌};
ghost use Rattle.checking.specs.Claims.{size as size_of};

use crate::codes::{has_nonzero, has_outside};
use crate::equations::Equations;
use field::Field;
use homology::kind::Kind;
use matrix::grid::Grid;
use refusal::Refusal;

// How many codes a claim takes where there are so many rows and columns. The reduction's bench has the same two cases, and rests on no
// check of claims.
fn size(claim: Kind, rows: u32, columns: u32) -> u32
    ensures { result ≡ size_of claim rows columns }
{
    match claim {
        Kind::Filling => columns,
        Kind::Block => rows,
    }
}

impl<'a, F: Field, G: Grid> Equations<'a, F, G> {
    ghost use Rattle.refusal.specs.Outcomes.{outcome};
    ghost use Rattle.checking.specs.Claims.{verdict as verdict_of};
    ghost use Rattle.checking.specs.Equations.{system_in};

    // Do the codes at the front of the list form what is claimed? A list of zeros does not.
    pub(crate) fn judge(&self, claim: Kind, codes: &[u16]) -> Result<bool, Refusal>
        ensures { outcome (λ yes. yes) result ≡ verdict_of (F.arithmetic self.now.field.now) (system_in self.now.rows self.now.columns (G.holds self.now.grid.now)) claim codes.now }
    {
        let size = size(claim, self.rows, self.columns) as usize;
        if codes.len() < size {
            return Err(Refusal::TooShort);
        }
        let claimed = &codes[..size];
        if has_outside(self.field, claimed) {
            return Err(Refusal::NotACode);
        }
        if !has_nonzero(claimed) {
            return Ok(false);
        }
        Ok(match claim {
            Kind::Filling => self.solves(claimed),
            Kind::Block => self.separates(claimed),
        })
    }
}
