// Naming neighbours, and asking for them.
ghost use Rattle.std.specs.Prelude.{◌≡◌, ◌&&◌, [], OnErr, nat_le};
ghost use Rattle.refusal.specs.Outcomes.{outcome};
ghost use Rattle.survey.specs.Views.{drawn, unlinked, naming};

use super::Neighbours;
use crate::limits::{MAX_SENSORS, MIN_SENSORS, PLACES};
use refusal::Refusal;

impl Neighbours {
    // Sensors 1 to `count`, none of which names another yet.
    pub fn new(count: u16) -> Result<Neighbours, Refusal>
        ensures { outcome (λ n. drawn n []) result ≡ unlinked count }
    {
        if !(MIN_SENSORS..=MAX_SENSORS).contains(&count) {
            return Err(Refusal::SensorCount);
        }
        Ok(Neighbours {
            count,
            rows: [[false; PLACES]; PLACES],
        })
    }

    // `x` names `y`; refused unless they are two sensors.
    pub fn add(&mut self, x: u16, y: u16) -> Result<(), Refusal>
        ensures answer { outcome (λ _. drawn self.new []) result ≡ naming (drawn self.old []) x y }
        ensures refused { OnErr result (self.new ≡ self.old) }
    {
        if !self.is_sensor(x) || !self.is_sensor(y) || x == y {
            return Err(Refusal::BadNeighbour);
        }
        let row = &mut self.rows[usize::from(x)];
        row[usize::from(y)] = true;
        Ok(())
    }

    // Is `x` a sensor's number?
    pub(crate) fn is_sensor(&self, x: u16) -> bool
        ensures { result ≡ (nat_le 1 x && nat_le x self.now.count) }
    {
        (1..=self.count).contains(&x)
    }

    // How many sensors there are.
    pub fn count(&self) -> u16
        ensures { result ≡ (drawn self.now []).count }
    {
        self.count
    }

    // Does `x` name `y`?
    pub fn names(&self, x: u16, y: u16) -> bool
        ensures { result ≡ (drawn self.now []).linked x y }
    {
        x <= MAX_SENSORS && y <= MAX_SENSORS && self.rows[usize::from(x)][usize::from(y)]
    }
}
