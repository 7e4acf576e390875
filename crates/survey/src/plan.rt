// A survey: neighbours that name each other, and a fence.
ghost use Rattle.std.specs.Prelude.{◌≡◌, length};
ghost use Rattle.survey.specs.Surveys.{edges, triangles, everyone, Valid};
ghost use Rattle.survey.specs.Rules.{Valid-prop};
ghost use Rattle.survey.specs.Views.{drawn};

use crate::neighbours::Neighbours;
use crate::sensor_list::SensorList;

// It keeps every rule. It has no model, since who is linked to whom is a function.
#[derive(Drop)]
pub struct Survey {
    neighbours: Neighbours,
    fence: SensorList,
    link_count: u16,
    triangle_count: u32,
    ghost rules: { Valid (drawn neighbours fence) } by { Valid-prop (drawn neighbours fence) },
    ghost links: { link_count ≡ length (edges (drawn neighbours fence) everyone) },
    ghost thirds: { triangle_count ≡ length (triangles (drawn neighbours fence) everyone) },
}

pub mod calls;
