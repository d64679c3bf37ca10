//! What an operator makes of two expressions.

ghost use Rattle.std.specs.Prelude.{◌≡◌, IfOk, IfErr, true, false, Some};
ghost use Rattle.rx_types.specs.Narrow.{IsShort};
ghost use Rattle.rx_types.specs.Tree.{tree_of, Binary};
ghost use Rattle.rx_judge.specs.Meaning.{Tells};
ghost use Rattle.rx_judge.specs.Kinds.{is_linear};
ghost use Rattle.rx_judge.specs.Form.{HasForm, IsLowForm};
ghost use Rattle.rx_judge.specs.Judged.{about_by, lowness, joined, typed};

use crate::about::{self, About};
use crate::fault::{Fault, NoMemory, refused};
use crate::form::LinearForm;
use crate::judged::Judged;
use rx_syntax::{Place, Rule, Word};
use rx_types::{Expr, Operator};
use std::alloc::Global;

fn about_by(
    alloc: Global,
    owner: &Word,
    operator: Option<Operator>,
    place: Place,
    left: About,
    right: About,
) -> Result<About, Fault>
    requires left { IsShort left.interval }
    requires right { IsShort right.interval }
    ensures meaning { IfOk result (λ x. about_by owner.now operator place left right ≡ Ok x) }
    ensures refusal { IfErr result (λ e. Tells e (about_by owner.now operator place left right)) }
    ensures short { IfOk result (λ x. IsShort x.interval) }
{
    if !about::takes(operator, left, right) {
        return Err(Fault::Refused(refused(alloc, Rule::WrongType, place, owner)?));
    }
    if !about::is_linear(operator, left, right) {
        return Err(Fault::Refused(refused(alloc, Rule::NotLinear, place, owner)?));
    }
    match about::bounds_by(operator, left.interval, right.interval) {
        None => Err(Fault::Refused(refused(alloc, Rule::TooWide, place, owner)?)),
        Some(interval) => Ok(about::about_both(operator, left, right, interval)),
    }
}

fn difference(alloc: Global, left: &Judged, right: &Judged) -> Result<LinearForm, NoMemory>
    ensures { IfOk result (λ f. HasForm f (Binary Operator.Sub (tree_of left.now.expr) (tree_of right.now.expr))) }
{
    let minus = right.form.scaled(alloc, -1)?;
    let form = left.form.sum(alloc, &minus)?;
    Ok(form)
}

fn scaled_right(alloc: Global, left: &Judged, right: &Judged) -> Result<LinearForm, NoMemory>
    requires { left.now.about.is_constant ≡ true }
    ensures { IfOk result (λ f. HasForm f (Binary Operator.Mul (tree_of left.now.expr) (tree_of right.now.expr))) }
{
    let form = right.form.scaled(alloc, left.about.interval.low)?;
    Ok(form)
}

fn scaled_left(alloc: Global, left: &Judged, right: &Judged) -> Result<LinearForm, NoMemory>
    requires constant { left.now.about.is_constant ≡ false }
    requires linear { is_linear (Some Operator.Mul) left.now.about right.now.about ≡ true }
    ensures { IfOk result (λ f. HasForm f (Binary Operator.Mul (tree_of left.now.expr) (tree_of right.now.expr))) }
{
    let form = left.form.scaled(alloc, right.about.interval.low)?;
    Ok(form)
}

fn product(alloc: Global, left: &Judged, right: &Judged) -> Result<LinearForm, NoMemory>
    requires { is_linear (Some Operator.Mul) left.now.about right.now.about ≡ true }
    ensures { IfOk result (λ f. HasForm f (Binary Operator.Mul (tree_of left.now.expr) (tree_of right.now.expr))) }
{
    if left.about.is_constant {
        scaled_right(alloc, left, right)
    } else {
        scaled_left(alloc, left, right)
    }
}

fn sum(alloc: Global, left: &Judged, right: &Judged) -> Result<LinearForm, NoMemory>
    ensures { IfOk result (λ f. HasForm f (Binary Operator.Add (tree_of left.now.expr) (tree_of right.now.expr))) }
{
    let form = left.form.sum(alloc, &right.form)?;
    Ok(form)
}

fn remainder(alloc: Global, left: &Judged, right: &Judged) -> Result<LinearForm, NoMemory>
    requires { is_linear (Some Operator.Mod) left.now.about right.now.about ≡ true }
    ensures { IfOk result (λ f. HasForm f (Binary Operator.Mod (tree_of left.now.expr) (tree_of right.now.expr))) }
{
    let form = left.form.remainder(alloc, right.about.interval.low)?;
    Ok(form)
}

fn form_by(
    alloc: Global,
    operator: Operator,
    left: &Judged,
    right: &Judged,
) -> Result<LinearForm, NoMemory>
    requires { is_linear (Some operator) left.now.about right.now.about ≡ true }
    ensures { IfOk result (λ f. HasForm f (Binary operator (tree_of left.now.expr) (tree_of right.now.expr))) }
{
    match operator {
        Operator::Add => sum(alloc, left, right),
        Operator::Sub => difference(alloc, left, right),
        Operator::Mul => product(alloc, left, right),
        Operator::Div => LinearForm::of_quotient(alloc),
        Operator::Mod => remainder(alloc, left, right),
        _ => Ok(LinearForm::of_none(alloc)),
    }
}

fn low_form(
    alloc: Global,
    owner: &Word,
    operator: Operator,
    place: Place,
    left: &Judged,
    right: &Judged,
) -> Result<LinearForm, Fault>
    requires { is_linear (Some operator) left.now.about right.now.about ≡ true }
    ensures meaning { IfOk result (λ f. lowness owner.now place (Binary operator (tree_of left.now.expr) (tree_of right.now.expr)) ≡ Ok tt) }
    ensures refusal { IfErr result (λ e. Tells e (lowness owner.now place (Binary operator (tree_of left.now.expr) (tree_of right.now.expr)))) }
    ensures form { IfOk result (λ f. HasForm f (Binary operator (tree_of left.now.expr) (tree_of right.now.expr))) }
    ensures low { IfOk result (λ f. IsLowForm f) }
{
    let form = form_by(alloc, operator, left, right)?;
    if !form.is_low() {
        return Err(Fault::Refused(refused(alloc, Rule::TooWide, place, owner)?));
    }
    Ok(form)
}

/// The operator's expression: WrongType, NotLinear or TooWide at the operator where its operands are of the wrong
/// kind, where it is not linear, or where it is too wide.
pub fn joined(
    alloc: Global,
    owner: &Word,
    operator: Option<Operator>,
    place: Place,
    left: Judged,
    right: Judged,
) -> Result<Judged, Fault>
    ensures meaning { IfOk result (λ x. joined owner.now operator place (typed left) (typed right) ≡ Ok (typed x)) }
    ensures refusal { IfErr result (λ e. Tells e (joined owner.now operator place (typed left) (typed right))) }
{
    let about = about_by(alloc, owner, operator, place, left.about, right.about)?;
    match operator {
        None => Ok(Judged {
            expr: Expr::Number(about.interval.low),
            about,
            form: LinearForm::of_none(alloc),
        }),
        Some(operator) => {
            let form = low_form(alloc, owner, operator, place, &left, &right)?;
            let expr = Expr::binary(alloc, operator, left.expr, right.expr)?;
            Ok(Judged { expr, about, form })
        }
    }
}
