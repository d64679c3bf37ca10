//! The meaning of packages: which names stand for what, their scalar types, and what is written of their messages.
#![tactic(auto)]

mod fault;
mod fields;
mod firsts;
mod layings;
mod parts;
mod stand;
mod types;

pub use fault::refused_with;
pub use fields::{Held, fields_held};
pub use firsts::Written;
pub use layings::{Laying, layings_of, overlay_in};
pub use parts::{FieldParts, MessageParts, Parts, message_parts};
pub use stand::{Declared, Seen, package_stands};
pub use types::{KnownScalar, KnownType, Types, built_in_types, package_types, type_named};
