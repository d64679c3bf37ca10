//! The printed lines: names, files, places, the one form in which a refusal is told, and the lines of reports.
#![tactic(auto)]

mod check_line;
mod fault;
mod line;
mod path;
mod refusal;
mod steps;
mod subject;
mod values;
mod verdict;

pub use check_line::put_line;
pub use fault::NoMemory;
pub use line::{file_of, line_of, name_text, put, put_both, put_counted};
pub use refusal::{put_place, refused};
