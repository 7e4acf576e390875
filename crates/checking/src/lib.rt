// Checking claims: whether codes that somebody brings form a filling or a block for the sensors that are on.
#![tactic(auto)]

ghost use Rattle.std.specs.Prelude.{◌≡◌};
ghost use Rattle.refusal.specs.Outcomes.{outcome};
ghost use Rattle.survey.specs.Plans.{survey_of};
ghost use Rattle.survey.specs.Sets.{set_of};
ghost use Rattle.checking.specs.Claims.{checked};
ghost use Rattle.checking.specs.Examples.{HubChecks};
ghost use Rattle.checking.specs.Theorems.{CheckDecides};

use complex::boundary_grid::BoundaryGrid;
use complex::listing::{list_edges, list_triangles};
use equations::Equations;
use field::Field;
use homology::kind::Kind;
use refusal::Refusal;
use survey::edge::{Edge, Triangle};
use survey::plan::Survey;
use survey::sensor_set::SensorSet;

mod codes;
mod equations;
#[cfg(test)]
mod tests;
mod verdict;

// Do the codes at the front of the list form the filling or the block that is claimed? A list of zeros does not. Refused if the
// list is too short for a code for each triangle or edge, and if one of those codes is none of the field's.
pub fn check<F: Field>(
    survey: &Survey,
    on: &SensorSet,
    field: &F,
    claim: Kind,
    codes: &[u16],
) -> Result<bool, Refusal>
    ensures { outcome (λ yes. yes) result ≡ checked (survey_of survey.now) (set_of on.now) (F.arithmetic field.now) claim codes.now }
{
    // tables of fixed size with a count beside each, since there is no heap here
    let mut edges = [Edge::default(); 512];
    let mut triangles = [Triangle::default(); 1024];
    let edge_count = list_edges(survey, on, &mut edges)?;
    let triangle_count = list_triangles(survey, on, &mut triangles)?;
    let grid = BoundaryGrid::new(
        &edges[..edge_count],
        &triangles[..triangle_count],
        survey.fence(),
        field.negative(1),
    );
    let equations = Equations {
        field,
        grid: &grid,
        rows: edge_count as u32,
        columns: triangle_count as u32,
    };
    equations.judge(claim, codes)
}

// Yes says that the codes form what is claimed, and no that they do not, unless they are zeros. Where the fence is on, zeros form
// nothing either, and every filling and every block is answered by yes.
pub fn check_decides()
    ensures { CheckDecides }
{}

// Claims for a small hall, each answered as the definition computes.
pub fn hub_checked()
    ensures { HubChecks }
{}
