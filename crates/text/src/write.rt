// Writing a survey's text into a lent buffer.
ghost use Rattle.std.specs.Prelude.{◌≡◌, length};
ghost use Rattle.refusal.specs.Outcomes.{outcome};
ghost use Rattle.survey.specs.Lists.{gather};
ghost use Rattle.survey.specs.Plans.{survey_of};
ghost use Rattle.text.specs.Columns.{column};
ghost use Rattle.text.specs.Text.{list_end, sensor_line_of, text as text_of, text_length_of};
ghost use Rattle.text.specs.Theorems.{ReadsBack, OneText, TextLength};
ghost use Rattle.text.specs.Writing.{neighbour_columns, lines_text, fence_text, Fits, Wrote, writing, written};

use crate::column::column_bytes;
use refusal::Refusal;
use survey::plan::Survey;

// The buffer has been written up to the place `at`, which stands beside it since the length of the text is answered.
#[derive(Drop)]
struct Writer<'a> {
    out: &'a mut [u8],
    at: usize,
}

impl Writer<'_> {
    // Writes the bytes.
    fn put(&mut self, bytes: &[u8])
        requires { Fits self.old bytes.now }
        ensures { Wrote self.old bytes.now self.new }
    {
        let end = self.at + bytes.len();
        self.out[self.at..end].copy_from_slice(bytes);
        self.at = end;
    }

    // Writes the column of a number.
    fn number(&mut self, v: u16)
        requires { Fits self.old (column v) }
        ensures { Wrote self.old (column v) self.new }
    {
        self.put(&column_bytes(v));
    }

    // Writes the end mark and the line end.
    fn list_end(&mut self)
        requires { Fits self.old list_end }
        ensures { Wrote self.old list_end self.new }
    {
        self.put(b";\n");
    }

    // Writes the neighbours of `x`.
    fn neighbours(&mut self, survey: &Survey, x: u16)
        requires { Fits self.old (neighbour_columns (survey_of survey.now) x) }
        ensures { Wrote self.old (neighbour_columns (survey_of survey.now) x) self.new }
    {
        for y in 1..=survey.count() {
            if survey.linked(x, y) {
                self.number(y);
            }
        }
    }

    // Writes the line of sensor `x`.
    fn sensor_line(&mut self, survey: &Survey, x: u16)
        requires { Fits self.old (sensor_line_of (survey_of survey.now) x) }
        ensures { Wrote self.old (sensor_line_of (survey_of survey.now) x) self.new }
    {
        self.put(b"N");
        self.number(x);
        self.neighbours(survey, x);
        self.list_end();
    }

    // Writes the lines of all sensors.
    fn sensor_lines(&mut self, survey: &Survey)
        requires { Fits self.old (lines_text (survey_of survey.now)) }
        ensures { Wrote self.old (lines_text (survey_of survey.now)) self.new }
    {
        for x in 1..=survey.count() {
            self.sensor_line(survey, x);
        }
    }

    // Writes the columns of a list of numbers.
    fn numbers(&mut self, list: &[u16])
        requires { Fits self.old (gather column list.now) }
        ensures { Wrote self.old (gather column list.now) self.new }
    {
        for v in list {
            self.number(*v);
        }
    }

    // Writes the line of the fence.
    fn fence_line(&mut self, fence: &[u16])
        requires { Fits self.old (fence_text fence.now) }
        ensures { Wrote self.old (fence_text fence.now) self.new }
    {
        self.put(b"F");
        self.numbers(fence);
        self.list_end();
    }

    // Writes the whole text.
    fn text(&mut self, survey: &Survey)
        requires { Fits self.old (text_of (survey_of survey.now)) }
        ensures { Wrote self.old (text_of (survey_of survey.now)) self.new }
    {
        self.put(b"S");
        self.number(survey.count());
        self.put(b"\n");
        self.sensor_lines(survey);
        self.fence_line(survey.fence());
    }
}

// How many bytes the text takes.
fn text_length(survey: &Survey) -> usize
    ensures formula { result ≡ text_length_of (survey_of survey.now) }
    ensures bytes { result ≡ length (text_of (survey_of survey.now)) }
{
    let count = survey.count() as usize;
    let links = survey.link_count() as usize;
    9 + 7 * count + 8 * links + 4 * survey.fence().len()
}

// Writes the survey's text at the front of `out` and answers its length, or refuses a buffer that is too short.
// What stands behind the text, and all of a buffer that is too short, stays as it was.
pub fn write_survey(survey: &Survey, out: &mut [u8]) -> Result<usize, Refusal>
    ensures answer { outcome (λ k. k) result ≡ writing (survey_of survey.now) out.old }
    ensures after { out.new ≡ written (survey_of survey.now) out.old }
    ensures back { ReadsBack }
    ensures one { OneText }
    ensures long { TextLength }
{
    if text_length(survey) <= out.len() {
        let mut writer = Writer { out, at: 0 };
        writer.text(survey);
        Ok(writer.at)
    } else {
        Err(Refusal::TooShort)
    }
}
