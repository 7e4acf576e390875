// One sensor's record in a roster.
ghost use Rattle.std.specs.Prelude.{◌≡◌};

#[derive(Clone, Copy, Debug, PartialEq, Eq)]
pub enum State {
    // on the fence, and so always on
    Fence,
    On,
    Off,
}

#[derive(Clone, Copy)]
pub(crate) struct Sensor {
    pub(crate) state: State,
}

// Changes the state of the sensor that is lent.
pub(crate) fn set_state(sensor: &mut Sensor, state: State)
    ensures { sensor.new.state ≡ state }
{
    sensor.state = state;
}
