// Number order: the lowest number first.
ghost use Rattle.orders.specs.Keyed.{number_order, NumberOrderLeast};

use crate::ThinningOrder;
use survey::plan::Survey;
use survey::sensor_set::SensorSet;

#[derive(Clone, Copy, Debug)]
pub struct NumberOrder;

impl ThinningOrder for NumberOrder {
    ghost order = { λ _ s. number_order s };

    fn pick(&self, survey: &Survey, candidates: &SensorSet) -> Option<u16> {
        // Counted from 0 and raised, which leaves `member` a single test of its bounds.
        (0..survey.count())
            .map(|x| x + 1)
            .find(|x| candidates.member(*x))
    }
}

// No candidate has a lower number than the one that is picked.
pub fn number_order_least()
    ensures { NumberOrderLeast }
{}
