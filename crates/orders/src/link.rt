// Link order: the fewest links first, the lowest number among equals.
ghost use Rattle.std.specs.Prelude.{◌≡◌};
ghost use Rattle.survey.specs.Plans.{survey_of};
ghost use Rattle.survey.specs.Surveys.{degree as degree_in};
ghost use Rattle.orders.specs.Keyed.{link_order, LinkOrderLeast};

use crate::ThinningOrder;
use survey::plan::Survey;
use survey::sensor_set::SensorSet;

#[derive(Clone, Copy, Debug)]
pub struct LinkOrder;

// How many links the sensor has in the survey, also those to sensors that are off.
pub fn degree(survey: &Survey, x: u16) -> u16
    ensures { result ≡ degree_in (survey_of survey.now) x }
{
    // A sum, since to filter and count branches at each link.
    (1..survey.count() + 1)
        .map(|y| u16::from(survey.linked(x, y)))
        .sum()
}

impl ThinningOrder for LinkOrder {
    ghost order = { λ _ s. link_order s };

    fn pick(&self, survey: &Survey, candidates: &SensorSet) -> Option<u16> {
        (1..survey.count() + 1)
            .filter(|x| candidates.member(*x))
            .min_by_key(|x| degree(survey, *x))
    }
}

// No candidate has fewer links than the one that is picked, and none with as many has a lower number.
pub fn link_order_least()
    ensures { LinkOrderLeast }
{}
