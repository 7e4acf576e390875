// Surveys: sensors, which of them name each other as neighbours, and the fence round a hall.
#![tactic(auto)]

mod counts;
pub mod edge;
pub mod fence;
pub mod limits;
pub mod neighbours;
pub mod plan;
pub mod sensor_list;
pub mod sensor_set;
