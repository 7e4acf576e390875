// Reading a survey's text.
ghost use Rattle.std.specs.Prelude.{◌≡◌, ◌≤◌, length, take, drop, IfOk};
ghost use Rattle.refusal.specs.Outcomes.{outcome};
ghost use Rattle.survey.specs.Plans.{survey_of};
ghost use Rattle.text.specs.Lines.{survey_behind};
ghost use Rattle.text.specs.Reading.{reading};
ghost use Rattle.text.specs.Text.{text as text_of};
ghost use Rattle.text.specs.Theorems.{AcceptedIsText, AcceptedIsValid};

use crate::reader::Reader;
use refusal::Refusal;
use survey::plan::Survey;

// The survey whose text the bytes begin with, and the place behind its F line, or the refusal of the first faulty line.
pub fn read_survey(text: &[u8]) -> Result<(Survey, usize), Refusal>
    ensures answer { outcome (survey_behind text.now) result ≡ reading text.now }
    ensures within { IfOk result (λ p. p.1 ≤ length text.now) }
    ensures front { IfOk result (λ p. take p.1 text.now ≡ text_of (survey_of p.0)) }
    ensures accepted { AcceptedIsText }
    ensures valid { AcceptedIsValid }
{
    let mut reader = Reader::new(text);
    reader.survey()
}

impl Reader<'_> {
    // The same for the bytes that are left, without the theorems.
    fn survey(&mut self) -> Result<(Survey, usize), Refusal>
        ensures answer { outcome (survey_behind self.old) result ≡ reading self.old }
        ensures within { IfOk result (λ p. p.1 ≤ length self.old) }
        ensures front { IfOk result (λ p. take p.1 self.old ≡ text_of (survey_of p.0)) }
        ensures rest { IfOk result (λ p. self.new ≡ drop p.1 self.old) }
    {
        let all = self.left();
        let mut neighbours = self.count_line()?;
        self.sensor_lines(&mut neighbours)?;
        let fence = self.fence_line()?.ok_or(Refusal::BadFence)?;
        let survey = Survey::new(neighbours, fence.as_slice())?;
        let at = all - self.left();
        Ok((survey, at))
    }
}
