//! Graphs of messages: their paths, where the fields of a path lie, and what fits a path.
#![tactic(auto)]

mod elaborated;
mod enumerate;
mod fault;
mod laws;
mod linked;
mod message;
mod path;
mod sound;
mod spec;
#[cfg(test)]
mod tests;

pub use elaborated::Elaborated;
pub use enumerate::{paths, paths_to};
pub use fault::{NoMemory, PathFault};
pub use laws::{
    fields_of_a_path_are_bounded, fields_of_a_path_are_distinct, longest_path_has_one_reason,
    no_path_fits_where_stuck, one_path_fits, paths_make_one_list, reason_makes_the_longest_path,
    sizes_make_the_length, sound_is_exclusive,
};
pub use linked::Linked;
pub use message::{Field, Link, Message, Node};
pub use path::Path;
pub use sound::Sound;
pub use spec::{MessageId, Refinement, Scalar, Spec, scalar_of};
