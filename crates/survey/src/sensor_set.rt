// A set of sensors as a table: the place x says whether sensor x is in it.
ghost use Rattle.std.specs.Prelude.{◌≡◌, min, length};
ghost use Rattle.survey.specs.Sets.{set_of, up_to, joining, leaving, members};
ghost use Rattle.survey.specs.Surveys.{nobody};

use crate::limits::{MAX_SENSORS, PLACES};

// A table of fixed size, since there is no heap here. It has no model: contracts see a set as a function, which no model
// can have as its value.
#[derive(Clone, Copy)]
pub struct SensorSet {
    on: [bool; PLACES],
}

impl SensorSet {
    // The set with no sensor in it.
    pub fn empty() -> SensorSet
        ensures { set_of result ≡ nobody }
    {
        SensorSet {
            on: [false; PLACES],
        }
    }

    // The sensors 1 to `count`, and 1 to 64 where it is greater.
    pub fn up_to(count: u16) -> SensorSet
        ensures { set_of result ≡ up_to (min count 64) }
    {
        let mut set = SensorSet::empty();
        for x in 1..=count.min(MAX_SENSORS) {
            set.insert(x);
        }
        set
    }

    // The set with `x` as well; a number outside 1 to 64 is no sensor and leaves it as it is.
    pub fn with(mut self, x: u16) -> SensorSet
        ensures { set_of result ≡ joining x (set_of self) }
    {
        self.insert(x);
        self
    }

    // Takes `x` in as well, in place.
    pub(crate) fn insert(&mut self, x: u16)
        ensures { set_of self.new ≡ joining x (set_of self.old) }
    {
        if (1..=MAX_SENSORS).contains(&x) {
            self.on[usize::from(x)] = true;
        }
    }

    // The set but for `x`; a number that is not in it leaves it as it is.
    pub fn without(mut self, x: u16) -> SensorSet
        ensures { set_of result ≡ leaving x (set_of self) }
    {
        if x <= MAX_SENSORS {
            self.on[usize::from(x)] = false;
        }
        self
    }

    // Is `x` in the set? A number outside 1 to 64 never is.
    pub fn member(&self, x: u16) -> bool
        ensures { result ≡ set_of self.now x }
    {
        (1..=MAX_SENSORS).contains(&x) && self.on[usize::from(x)]
    }

    // How many sensors are in the set.
    pub fn count(&self) -> u16
        ensures { result ≡ length (members (set_of self.now)) }
    {
        // A loop, which the compiler turns into work on many places at a time; a chain of `filter` and `count` took six times as long.
        let mut count = 0;
        for x in 1..MAX_SENSORS + 1 {
            if self.member(x) {
                count += 1;
            }
        }
        count
    }
}
