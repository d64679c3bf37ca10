// Expressions.

ghost use Rattle.std.specs.Prelude.{◌≡◌, IfOk};
ghost use Rattle.rx_types.specs.Tree.{tree_of, Neg, Not, Binary};

use crate::fault::NoMemory;
use std::alloc::Global;

/// A field's place in its message's list of fields.
pub type FieldId = u16;

/// An operator with two operands.
#[derive(Clone, Copy, Debug, PartialEq, Eq)]
pub enum Operator {
    Add,
    Sub,
    Mul,
    Div,
    Mod,
    And,
    Or,
    Equal,
    NotEqual,
    Less,
    LessEqual,
    Greater,
    GreaterEqual,
}

/// An expression of a link or a refinement.
#[derive(Debug, Drop)]
pub enum Expr {
    Number(i128),
    Truth(bool),
    Field(FieldId),
    First(FieldId),
    Last(FieldId),
    Size(FieldId),
    /// The length of the message in bits.
    Total,
    Neg(Box<Expr>),
    Not(Box<Expr>),
    Binary(Operator, Box<Expr>, Box<Expr>),
}

impl Expr {
    /// The same expression once more.
    pub fn copy(&self, alloc: Global) -> Result<Expr, NoMemory>
        ensures { IfOk result (λ e. tree_of e ≡ tree_of self.now) }
    {
        match self {
            Expr::Number(number) => Ok(Expr::Number(*number)),
            Expr::Truth(truth) => Ok(Expr::Truth(*truth)),
            Expr::Field(field) => Ok(Expr::Field(*field)),
            Expr::First(field) => Ok(Expr::First(*field)),
            Expr::Last(field) => Ok(Expr::Last(*field)),
            Expr::Size(field) => Ok(Expr::Size(*field)),
            Expr::Total => Ok(Expr::Total),
            Expr::Neg(part) => Expr::neg(alloc, part.copy(alloc)?),
            Expr::Not(part) => Expr::not(alloc, part.copy(alloc)?),
            Expr::Binary(operator, left, right) => {
                let left = left.copy(alloc)?;
                let right = right.copy(alloc)?;
                Expr::binary(alloc, *operator, left, right)
            }
        }
    }

    /// The number that is opposite to the part's.
    pub fn neg(alloc: Global, part: Expr) -> Result<Expr, NoMemory>
        ensures { IfOk result (λ e. tree_of e ≡ Neg (tree_of part)) }
    {
        Ok(Expr::Neg(Box::new(alloc, part)?))
    }

    /// True where the part is false.
    pub fn not(alloc: Global, part: Expr) -> Result<Expr, NoMemory>
        ensures { IfOk result (λ e. tree_of e ≡ Not (tree_of part)) }
    {
        Ok(Expr::Not(Box::new(alloc, part)?))
    }

    /// The operator's expression.
    pub fn binary(
        alloc: Global,
        operator: Operator,
        left: Expr,
        right: Expr,
    ) -> Result<Expr, NoMemory>
        ensures { IfOk result (λ e. tree_of e ≡ Binary operator (tree_of left) (tree_of right)) }
    {
        let left = Box::new(alloc, left)?;
        let right = Box::new(alloc, right)?;
        Ok(Expr::Binary(operator, left, right))
    }
}
