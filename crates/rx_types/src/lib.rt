//! Scalar types and expressions of messages: which numbers a type has, and what an expression's value is.
#![tactic(auto)]

mod env;
mod evaluate;
mod expr;
mod fault;
mod interval;
mod kind;
mod laws;
mod name;
mod scalar;
mod stuck;
#[cfg(test)]
mod tests;

pub use env::{Entry, Env, entry_of, is_among};
pub use evaluate::{truth, value};
pub use expr::{Expr, FieldId, Operator};
pub use fault::NoMemory;
pub use interval::{Interval, bounds, is_short, negation};
pub use kind::{Kind, kind_of};
pub use laws::{
    numbers_are_up_to_the_greatest, static_value_is_the_interval, value_lies_in_interval,
};
pub use name::{Name, is_name};
pub use scalar::{FieldType, Literal, ScalarType, TypeId, contains};
pub use stuck::{Reason, Stuck};
