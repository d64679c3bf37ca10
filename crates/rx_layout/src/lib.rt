//! Queries of a path and a check: rows and disjunctions whose points are the numbers of a partial path.
#![tactic(auto)]

mod asked;
mod checklist;
mod fault;
mod fields;
mod formula;
mod goal;
mod goal_parts;
mod laws;
mod parts;
mod path_end;
mod path_forms;
mod querying;
mod types;

pub use checklist::goals;
pub use fault::NoMemory;
pub use goal::Goal;
pub use laws::{
    goals_are_checks, goals_are_listed, goals_have_points, points_meet_goals, queries_are_bounded,
    queries_are_even,
};
pub use path_forms::PathForms;
pub use querying::query;
