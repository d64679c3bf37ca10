//! The tokens of a text, or the first place where it has none, and the types of the trees that stand over them.
#![tactic(auto)]

mod class;
mod fault;
mod law;
mod lexer;
mod mark;
mod number;
mod piece;
mod rule;
#[cfg(test)]
mod tests;
mod token;
mod tree;
mod word;

pub use class::{is_digit, is_letter, is_name, is_word_byte};
pub use fault::LexFault;
pub use law::one_outcome;
pub use lexer::lex;
pub use mark::Mark;
pub use rule::{Refusal, Rule};
pub use token::{Place, Token, TokenKind, Tokens};
pub use tree::{
    ActionTree, AspectTree, Attr, ChannelTree, DeclKind, DeclTree, DefTree, EnumAspect, ExprTree,
    FieldTree, HeaderTree, ItemTree, LiteralTree, MachineTree, MessageTree, ModeTree, NameTree,
    Named, Operator, PackageTree, RefineTree, RhsTree, StateTree, TargetTree, ThenTree, VarTree,
};
pub use word::{NoMemory, Word};
