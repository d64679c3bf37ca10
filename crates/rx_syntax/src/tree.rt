//! The trees of packages, expressions and machines. Brackets round an expression leave no node.

use crate::{Place, Word};

/// A word with its place.
#[derive(Debug, Drop)]
pub struct Named {
    pub word: Word,
    pub place: Place,
}

/// A name, alone or behind the name of a package.
#[derive(Debug, Drop)]
pub struct NameTree {
    pub package: Option<Named>,
    pub name: Named,
}

/// What stands before the declarations of a package.
#[derive(Debug, Drop)]
pub struct HeaderTree {
    pub withs: Vec<Named>,
    pub name: Named,
}

#[derive(Debug, Drop)]
pub struct PackageTree {
    pub header: HeaderTree,
    pub decls: Vec<DeclTree>,
    pub end_name: Named,
}

/// A declaration, at the place of its first token.
#[derive(Debug, Drop)]
pub struct DeclTree {
    pub place: Place,
    pub kind: DeclKind,
}

#[derive(Debug, Drop)]
pub enum DeclKind {
    Defined(Named, DefTree),
    Refine(RefineTree),
}

/// What a field of a message holds; nothing, where there is no inner name.
#[derive(Debug, Drop)]
pub struct RefineTree {
    pub message: NameTree,
    pub field: Named,
    pub inner: Option<NameTree>,
    pub condition: Option<ExprTree>,
}

/// The definition of a type. A range has its first and last number and its size.
#[derive(Debug, Drop)]
pub enum DefTree {
    Unsigned(ExprTree),
    Range(ExprTree, ExprTree, ExprTree),
    Enumeration(Vec<LiteralTree>, Vec<EnumAspect>),
    Sequence(NameTree),
    Derived(NameTree),
    NullMessage,
    Message(MessageTree),
}

#[derive(Debug, Drop)]
pub struct LiteralTree {
    pub name: Named,
    pub number: Option<ExprTree>,
}

#[derive(Debug, Drop)]
pub enum EnumAspect {
    Size(Place, ExprTree),
    AlwaysValid(Place, bool),
}

/// A message: the links of its start, its fields, and whether `Low_Order_First` is written.
#[derive(Debug, Drop)]
pub struct MessageTree {
    pub start: Vec<ThenTree>,
    pub fields: Vec<FieldTree>,
    pub low_order: bool,
}

#[derive(Debug, Drop)]
pub struct FieldTree {
    pub name: Named,
    pub kind: NameTree,
    pub aspects: Vec<AspectTree>,
    pub condition: Option<ExprTree>,
    pub thens: Vec<ThenTree>,
}

/// A link, at the place of its target; without a word the target is null.
#[derive(Debug, Drop)]
pub struct ThenTree {
    pub target: Option<Word>,
    pub place: Place,
    pub aspects: Vec<AspectTree>,
    pub condition: Option<ExprTree>,
}

#[derive(Debug, Drop)]
pub enum AspectTree {
    First(Place, ExprTree),
    Size(Place, ExprTree),
}

/// An expression; an operator is at the place of its token.
#[derive(Debug, Drop)]
pub enum ExprTree {
    Number(i128, Place),
    Name(NameTree),
    Attribute(NameTree, Attr),
    Member(NameTree, Named),
    Neg(Place, Box<ExprTree>),
    Not(Place, Box<ExprTree>),
    Binary(Operator, Place, Box<ExprTree>, Box<ExprTree>),
}

#[derive(Clone, Copy, Debug, PartialEq, Eq)]
pub enum Attr {
    First,
    Last,
    Size,
    Valid,
    HasData,
    Opaque,
}

#[derive(Clone, Copy, Debug, PartialEq, Eq)]
pub enum Operator {
    Or,
    And,
    Equal,
    NotEqual,
    Less,
    LessEqual,
    Greater,
    GreaterEqual,
    Add,
    Sub,
    Mul,
    Div,
    Mod,
    Power,
}

#[derive(Debug, Drop)]
pub struct MachineTree {
    pub channels: Vec<ChannelTree>,
    pub name: Named,
    pub variables: Vec<VarTree>,
    pub states: Vec<StateTree>,
    pub end_name: Named,
}

#[derive(Debug, Drop)]
pub struct ChannelTree {
    pub name: Named,
    pub modes: Vec<ModeTree>,
}

#[derive(Clone, Copy, Debug, PartialEq, Eq)]
pub enum ModeTree {
    Readable,
    Writable,
}

#[derive(Debug, Drop)]
pub struct VarTree {
    pub name: Named,
    pub kind: NameTree,
    pub value: Option<ExprTree>,
}

/// A state: the transitions with a condition in order, the one without, and the one of an exception.
#[derive(Debug, Drop)]
pub struct StateTree {
    pub name: Named,
    pub actions: Vec<ActionTree>,
    pub transitions: Vec<(TargetTree, ExprTree)>,
    pub otherwise: TargetTree,
    pub raised: Option<TargetTree>,
    pub end_name: Named,
}

/// The target of a transition; without a word it is null.
#[derive(Debug, Drop)]
pub struct TargetTree {
    pub word: Option<Word>,
    pub place: Place,
}

#[derive(Debug, Drop)]
pub enum ActionTree {
    Assign(Named, RhsTree),
    Read(Named, Named),
    Write(Named, RhsTree),
}

#[derive(Debug, Drop)]
pub enum RhsTree {
    Expr(ExprTree),
    Aggregate(NameTree, Vec<(Named, ItemTree)>),
}

#[derive(Debug, Drop)]
pub enum ItemTree {
    Expr(ExprTree),
    List(Vec<ExprTree>),
}
