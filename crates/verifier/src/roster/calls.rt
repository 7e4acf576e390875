// Reading a roster from a text.
ghost use Rattle.std.specs.Prelude.{◌≡◌, ◌≤◌, length, drop, IfOk, OnErr};
ghost use Rattle.refusal.specs.Outcomes.{outcome};
ghost use Rattle.std.specs.Option.{option_map};
ghost use Rattle.text.specs.Reading.{reading};
ghost use Rattle.verifier.specs.Rosters.{meaning_of, read_answer, read_after};

use super::Roster;
use refusal::Refusal;
use text::read::read_survey;

// Reads a survey's text: leaves its fresh roster in `roster` and answers the place behind the text. Refused, nothing changes.
pub fn read(roster: &mut Option<Roster>, text: &[u8]) -> Result<usize, Refusal>
    ensures answer { outcome (λ k. drop k text.now) result ≡ read_answer (reading text.now) }
    ensures within { IfOk result (λ k. k ≤ length text.now) }
    ensures after { option_map meaning_of roster.new ≡ read_after (reading text.now) (option_map meaning_of roster.old) }
    ensures refused { OnErr result (roster.new ≡ roster.old) }
{
    let (survey, place) = read_survey(text)?;
    *roster = Some(Roster::new(survey));
    Ok(place)
}
