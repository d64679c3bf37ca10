//! Expressions that stand, with what is known of them.

ghost use Rattle.rx_types.specs.Tree.{tree_of};
ghost use Rattle.rx_judge.specs.Form.{IsKnown};

use crate::about::About;
use crate::form::LinearForm;
use rx_types::Expr;

/// An expression that stands.
#[derive(Debug, Drop)]
pub struct Judged {
    pub expr: Expr,
    pub about: About,
    pub form: LinearForm,
    ghost known: { IsKnown about form (tree_of expr) },
}
