// A thinning order of the customer's own: the highest number first.
ghost use Rattle.customer.specs.Highest.{highest_order};

use orders::ThinningOrder;
use survey::plan::Survey;
use survey::sensor_set::SensorSet;

#[derive(Clone, Copy, Debug)]
pub struct HighestFirst;

impl ThinningOrder for HighestFirst {
    ghost order = { λ _ s. highest_order s };

    fn pick(&self, survey: &Survey, candidates: &SensorSet) -> Option<u16> {
        // Counted from 0, since the test for the end is cheapest at 0.
        (0..survey.count())
            .rev()
            .map(|x| x + 1)
            .find(|x| candidates.member(*x))
    }
}
