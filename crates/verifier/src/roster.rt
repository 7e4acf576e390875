// A survey and one record a sensor: those on the fence say so, and the others are on or off.
ghost use Rattle.std.specs.Prelude.{◌≡◌};
ghost use Rattle.verifier.specs.Sensors.{Fenced};

pub mod calls;

use crate::sensor::{Sensor, State, set_state};
use refusal::Refusal;
use survey::plan::Survey;
use survey::sensor_set::SensorSet;
use text::write::write_survey;

// The record of sensor x is `sensors[x]`, in a table of fixed size, since there is no heap here.
// There is no `impl Model`: a set of sensors is a function, and the checker takes no function in a model's value.
#[derive(Drop)]
pub struct Roster {
    survey: Survey,
    sensors: [Sensor; 65],
    ghost fenced: { Fenced survey sensors },
}

impl Roster {
    ghost use Rattle.refusal.specs.Outcomes.{outcome};
    ghost use Rattle.survey.specs.Plans.{survey_of};
    ghost use Rattle.survey.specs.Sets.{set_of};
    ghost use Rattle.text.specs.Writing.{writing, written};
    ghost use Rattle.verifier.specs.Rosters.{meaning_of, fresh, state_in, candidates, Switchable, switched};

    // The roster of a survey with no sensor off.
    pub fn new(survey: Survey) -> Roster
        ensures { meaning_of result ≡ fresh (survey_of survey) }
    {
        let mut sensors = [Sensor { state: State::On }; 65];
        for x in survey.fence() {
            set_state(&mut sensors[*x as usize], State::Fence);
        }
        Roster { survey, sensors }
    }

    // The roster's survey.
    pub fn survey(&self) -> &Survey
        ensures { survey_of result.now ≡ (meaning_of self.now).survey }
    {
        &self.survey
    }

    // The state of a sensor; none for a number that no sensor has.
    pub fn state(&self, sensor: u16) -> Option<State>
        ensures { result ≡ state_in (meaning_of self.now) sensor }
    {
        let inside = (1..=self.survey.count()).contains(&sensor);
        inside.then(|| self.sensors[sensor as usize].state)
    }

    // Is the sensor on, on the fence or not?
    fn is_sensor_on(&self, sensor: u16) -> bool
        ensures { result ≡ (meaning_of self.now).on sensor }
    {
        // each state by name, since the rest of a `matches!` tells the proof nothing
        match self.state(sensor) {
            Some(State::Fence) | Some(State::On) => true,
            Some(State::Off) | None => false,
        }
    }

    // Is the sensor on and not on the fence?
    fn is_candidate(&self, sensor: u16) -> bool
        ensures { result ≡ candidates (meaning_of self.now) sensor }
    {
        self.state(sensor) == Some(State::On)
    }

    // All sensors that are on.
    pub fn sensors_on(&self) -> SensorSet
        ensures { set_of result ≡ (meaning_of self.now).on }
    {
        (1..=self.survey.count())
            .filter(|x| self.is_sensor_on(*x))
            .fold(SensorSet::empty(), |set, x| set.with(x))
    }

    // The sensors that are on and not on the fence.
    pub fn candidates(&self) -> SensorSet
        ensures { set_of result ≡ candidates (meaning_of self.now) }
    {
        (1..=self.survey.count())
            .filter(|x| self.is_candidate(*x))
            .fold(SensorSet::empty(), |set, x| set.with(x))
    }

    // Writes the text of the roster's survey, as `write_survey` does.
    pub fn write(&self, out: &mut [u8]) -> Result<usize, Refusal>
        ensures answer { outcome (λ k. k) result ≡ writing (meaning_of self.now).survey out.old }
        ensures after { out.new ≡ written (meaning_of self.now).survey out.old }
    {
        write_survey(&self.survey, out)
    }

    // Switches one sensor that is not on the fence: its record changes, and no other. It takes no `State`, which could be `Fence`.
    pub(crate) fn switch(&mut self, sensor: u16, on: bool)
        requires { Switchable (meaning_of self.old) sensor }
        ensures after { meaning_of self.new ≡ switched (meaning_of self.old) sensor on }
    {
        let state = if on { State::On } else { State::Off };
        set_state(&mut self.sensors[sensor as usize], state);
    }
}
