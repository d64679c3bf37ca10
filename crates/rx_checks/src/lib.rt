//! The checks of a message: a verdict on each, with what shows it.
#![tactic(auto)]

mod acceptance;
mod checking;
mod counting;
mod fault;
mod finding;
mod judging;
mod laws;
mod lines;
mod node;
mod reached_path;
mod report;
mod verdict;

pub use acceptance::accepted;
pub use checking::{check, report_of};
pub use fault::NoMemory;
pub use laws::{
    reports_are_one, reports_show_one_reading, reports_show_soundness, sound_messages_pass,
    verdicts_are_true,
};
pub use report::{Line, Report};
pub use verdict::{Evidence, Verdict};
