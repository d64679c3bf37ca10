//! The tree of a list of tokens, or the first token that no sentence goes on with.
#![tactic(auto)]

mod cursor;
mod definition;
mod expression;
mod fault;
mod law;
mod link;
mod message;
mod package;
mod parse;
mod part;
mod syntax;
mod terminal;

pub use cursor::{
    Cursor, Limits, named, pushed, sees, sees_either, sees_one, start, take, take_name, take_one,
};
pub use expression::{expr, full_name};
pub use fault::Fault;
pub use law::{one_answer, trees_derive};
pub use link::target_of;
pub use package::{decl, header, package_text};
pub use parse::parse_package;
pub use part::{Part, PartTree, parse_part};
pub use syntax::SyntaxFault;
pub use terminal::{Choice, Keyword, Quoted, Terminal, is_of, is_such};
