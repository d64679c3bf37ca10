// Kinds of expressions.

ghost use Rattle.std.specs.Prelude.{◌≡◌};
ghost use Rattle.rx_types.specs.Kinds.{kind_by};

use crate::expr::Operator;
use crate::scalar::TypeId;

/// What an expression is.
#[derive(Clone, Copy, Debug, PartialEq, Eq)]
pub enum Kind {
    Number,
    Truth,
    /// One of an enumeration's numbers.
    Of(TypeId),
}

/// The kind of an operator's result.
pub fn kind_of(operator: Operator) -> Kind
    ensures { result ≡ kind_by operator }
{
    match operator {
        Operator::Add | Operator::Sub | Operator::Mul | Operator::Div | Operator::Mod => {
            Kind::Number
        }
        _ => Kind::Truth,
    }
}
