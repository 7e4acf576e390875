// The lines of a survey's text, each judged whole before the next is looked at.
ghost use Rattle.std.specs.Prelude.{◌≡◌, ℕ, ◌≤◌, false};
ghost use Rattle.refusal.specs.Outcomes.{outcome};
ghost use Rattle.survey.specs.Tables.{at as at_table};
ghost use Rattle.text.specs.Lines.{Neighboured, CountRead, LineRead, LinesRead, fitted};
ghost use Rattle.text.specs.Reading.{fence_line_of};

use crate::reader::Reader;
use refusal::Refusal;
use survey::neighbours::Neighbours;
use survey::sensor_list::SensorList;

// `x` names each of the list, which has to rise.
fn name_all(neighbours: &mut Neighbours, x: u16, list: &[u16]) -> Result<(), Refusal>
    requires { (1 ≤ x) × (x ≤ neighbours.old.count) }
    ensures { Neighboured neighbours.old x list.now result neighbours.new }
{
    if !list.is_sorted_by(|a, b| a < b) {
        return Err(Refusal::BadNeighbour);
    }
    for y in list {
        neighbours.add(x, *y)?;
    }
    Ok(())
}

impl Reader<'_> {
    // The S line: as many sensors, none with a neighbour yet.
    pub(crate) fn count_line(&mut self) -> Result<Neighbours, Refusal>
        ensures { CountRead self.old result self.new }
    {
        self.letter('S')?;
        let count = self.number()?;
        self.line_end()?;
        Neighbours::new(count)
    }

    // The N line of `x`.
    fn sensor_line(&mut self, x: u16, neighbours: &mut Neighbours) -> Result<(), Refusal>
        requires { (1 ≤ x) × (x ≤ neighbours.old.count) }
        ensures { LineRead self.old neighbours.old x result self.new neighbours.new }
    {
        self.letter('N')?;
        let sensor = self.number()?;
        let list = self.list()?;
        if sensor != x {
            return Err(Refusal::LineOutOfTurn);
        }
        let list = list.as_ref().ok_or(Refusal::BadNeighbour)?;
        name_all(neighbours, x, list.as_slice())
    }

    // The N lines of all sensors.
    pub(crate) fn sensor_lines(&mut self, neighbours: &mut Neighbours) -> Result<(), Refusal>
        requires { (x y : ℕ) → at_table neighbours.old.rows x y ≡ false }
        ensures { LinesRead self.old neighbours.old result self.new neighbours.new }
    {
        for x in 1..=neighbours.count() {
            self.sensor_line(x, neighbours)?;
        }
        Ok(())
    }

    // The F line; none where it has more numbers than sensors can be.
    pub(crate) fn fence_line(&mut self) -> Result<Option<SensorList>, Refusal>
        ensures { outcome (λ list. record { got = list; rest = self.new }) result ≡ fitted (fence_line_of self.old) }
    {
        self.letter('F')?;
        self.list()
    }
}
