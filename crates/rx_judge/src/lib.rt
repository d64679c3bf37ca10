//! What names and expressions of packages mean: their kinds, intervals and values, or the rule that they break first.
#![tactic(auto)]

mod about;
mod fault;
mod form;
mod joining;
mod judged;
mod judging;
mod laws;
mod names;
mod scalar;
mod table;

pub use about::{About, is_number, is_truth};
pub use fault::{Fault, NoMemory, refused, refused_at};
pub use form::{LinearForm, Term, Unknown};
pub use judged::Judged;
pub use judging::judge;
pub use laws::meanings_are_sound;
pub use names::{FieldKind, KnownField, KnownLiteral, Names, Scope, Thing, thing_of};
pub use scalar::{definition, root_place, spelled, static_value};
pub use table::{Key, Table, key_of};
