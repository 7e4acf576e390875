// Thinning orders: which of the sensors that are left to try is tried next.
#![tactic(auto)]

ghost use Rattle.std.specs.Prelude.{◌≡◌};
ghost use Rattle.survey.specs.Plans.{survey_of};
ghost use Rattle.survey.specs.Sets.{set_of};
ghost use Rattle.survey.specs.Surveys.{Survey as Hall};
ghost use Rattle.orders.specs.Orders.{Order};

use survey::plan::Survey;
use survey::sensor_set::SensorSet;

pub mod link;
pub mod number;

pub trait ThinningOrder {
    // The choice that is made, with the proof that it is one.
    ghost order: { Self → (s : Hall) → Order s };

    // One of the candidates; none exactly when there is none.
    fn pick(&self, survey: &Survey, candidates: &SensorSet) -> Option<u16>
        ensures { result ≡ (order self.now (survey_of survey.now)).pick (set_of candidates.now) };
}
