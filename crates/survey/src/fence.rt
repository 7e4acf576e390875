// What makes a list of sensors a fence: three or more, all different, each linked to the next and the last to the first.
ghost use Rattle.std.specs.Prelude.{◌≡◌, ◌&&◌, [], length, nat_le};
ghost use Rattle.survey.specs.Lists.{after};
ghost use Rattle.survey.specs.Surveys.{distinct, nobody, all_linked, steps};
ghost use Rattle.survey.specs.Views.{drawn};

use crate::limits::MIN_FENCE;
use crate::neighbours::Neighbours;
use crate::sensor_set::SensorSet;

// The sensor after the place `i`, round the fence: the first after the last, and 0 if there is none.
// It is no Option: who asks is at a place of the fence, and would only unwrap it.
pub fn next(fence: &[u16], i: usize) -> u16
    ensures { result ≡ after fence.now i }
{
    fence
        .get(i.saturating_add(1))
        .or(fence.first())
        .copied()
        .unwrap_or(0)
}

impl Neighbours {
    // Are these different sensors?
    fn is_distinct(&self, fence: &[u16]) -> bool
        ensures { result ≡ distinct self.now.count nobody fence.now }
    {
        let mut met = SensorSet::empty();
        for &x in fence {
            if !self.is_sensor(x) || met.member(x) {
                return false;
            }
            met.insert(x);
        }
        true
    }

    // Are these three or more different sensors?
    pub(crate) fn is_fence(&self, fence: &[u16]) -> bool
        ensures { result ≡ (nat_le 3 (length fence.now) && distinct self.now.count nobody fence.now) }
    {
        fence.len() >= MIN_FENCE && self.is_distinct(fence)
    }

    // Is each linked to the next, and the last to the first?
    pub(crate) fn is_closed(&self, fence: &[u16]) -> bool
        ensures { result ≡ all_linked (drawn self.now []) (steps fence.now) }
    {
        fence
            .iter()
            .enumerate()
            .all(|(i, x)| self.names(*x, next(fence, i)))
    }
}
