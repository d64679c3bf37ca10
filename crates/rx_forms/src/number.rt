//! The sums of expressions that are numbers.

ghost use Rattle.std.specs.Prelude.{◌≡◌, ℕ, ◌+◌, ◌≤◌, ◌++◌, pos, ◌<ℤ◌, ◌&&◌, nat_le, true, false, IfOk, IfErr, OnOk};
ghost use Rattle.rx_types.specs.Tree.{tree_of};
ghost use Rattle.rx_types.specs.Narrow.{IsNarrow, IsShort};
ghost use Rattle.rx_forms.specs.Linear.{less_one, minus, term};
ghost use Rattle.rx_forms.specs.Normal.{bits, formed_of, IsNumeric};
ghost use Rattle.rx_forms.specs.Divisions.{division_rows};
ghost use Rattle.rx_forms.specs.Limits.{has_words, all_kept, divided, is_within};
ghost use Rattle.rx_forms.specs.Expressions.{IsLeaf, HasSum, sum_by, divided_by};
ghost use Rattle.rx_forms.specs.Code.{formed_all, limits};

use crate::arithmetic::{constant, minus, plus, scaled, term};
use crate::division::divide;
use crate::entry::{end_of, first_of, size_of, variable_form, variable_of};
use crate::fault::FormFault;
use crate::field::FieldForms;
use crate::interval::{interval, is_static, static_number};
use crate::linear::Linear;
use crate::work::Work;
use rx_graph::Elaborated;
use rx_types::{Expr, FieldId, Interval, Operator};
use std::alloc::{AllocError, Global};

// The number of a field, 0 where it is not among these.
fn number_of(alloc: Global, fields: &[FieldForms], field: FieldId) -> Result<Linear, AllocError>
    ensures { IfOk result (λ f. f ≡ (formed_of field (formed_all fields.now)).number) }
{
    variable_form(alloc, variable_of(fields, field))
}

// The last bit of a field, -1 where it is not among these.
fn last_of(alloc: Global, fields: &[FieldForms], field: FieldId) -> Result<Linear, FormFault>
    ensures value { IfOk result (λ f. f ≡ less_one (formed_of field (formed_all fields.now)).end) }
    ensures words { IfOk result (λ f. has_words (less_one (formed_of field (formed_all fields.now)).end) ≡ true) }
    ensures limit { IfErr result (λ e. e ≡ FormFault.PathLimit → has_words (less_one (formed_of field (formed_all fields.now)).end) ≡ false) }
{
    let end = end_of(alloc, fields, field)?;
    one_less(alloc, &end)
}

// The sum less 1, if its numbers have 128 bits.
fn one_less(alloc: Global, form: &Linear) -> Result<Linear, FormFault>
    ensures value { IfOk result (λ f. f ≡ less_one form.now) }
    ensures words { IfOk result (λ f. has_words (less_one form.now) ≡ true) }
    ensures limit { IfErr result (λ e. e ≡ FormFault.PathLimit → has_words (less_one form.now) ≡ false) }
{
    let one = constant(alloc, 1);
    minus(alloc, form, &one)
}

/// The length of the message in bits.
pub fn bits(alloc: Global) -> Result<Linear, AllocError>
    ensures { IfOk result (λ f. f ≡ bits) }
{
    term(alloc, 8, 0, 0)
}

// The sum of an expression with no operands.
fn leaf_form(
    alloc: Global,
    expr: &Expr,
    fields: &[FieldForms],
    work: &Work,
) -> Result<Linear, FormFault>
    requires leaf { IsLeaf (tree_of expr.now) }
    requires room { work.now.next ≤ 190 }
    ensures sum { IfOk result (λ f. (limit : ℕ → ℕ) → HasSum limit (formed_all fields.now) (tree_of expr.now) work.now work.now f) }
    ensures limit { IfErr result (λ e. e ≡ FormFault.PathLimit → is_within (formed_all fields.now) work.now.next (tree_of expr.now) ≡ false) }
{
    match expr {
        Expr::Number(number) => Ok(constant(alloc, *number)),
        Expr::Field(field) => Ok(number_of(alloc, fields, *field)?),
        Expr::First(field) => Ok(first_of(alloc, fields, *field)?),
        Expr::Last(field) => last_of(alloc, fields, *field),
        Expr::Size(field) => Ok(size_of(alloc, fields, *field)?),
        Expr::Total => Ok(bits(alloc)?),
        _ => unreachable!(),
    }
}

// The sum of two, or their difference.
fn joined(
    alloc: Global,
    operator: Operator,
    left: &Linear,
    right: &Linear,
) -> Result<Linear, FormFault>
    ensures value { IfOk result (λ f. f ≡ sum_by operator left.now right.now) }
    ensures words { IfOk result (λ f. has_words (sum_by operator left.now right.now) ≡ true) }
    ensures limit { IfErr result (λ e. e ≡ FormFault.PathLimit → has_words (sum_by operator left.now right.now) ≡ false) }
{
    match operator {
        Operator::Sub => minus(alloc, left, right),
        _ => plus(alloc, left, right),
    }
}

// The rest that a division leaves.
fn remainder(
    alloc: Global,
    form: &Linear,
    divisor: &i128,
    quotient: usize,
) -> Result<Linear, FormFault>
    requires words { has_words (minus form.now (term divisor.now quotient (pos 0))) ≡ true }
    ensures value { IfOk result (λ f. f ≡ minus form.now (term divisor.now quotient (pos 0))) }
    ensures memory { IfErr result (λ e. e ≡ FormFault.NoMemory) }
{
    let product = term(alloc, *divisor, quotient, 0)?;
    minus(alloc, form, &product)
}

// The quotient of a sum, or what is left over.
fn quotient_or_rest(
    alloc: Global,
    operator: Operator,
    form: &Linear,
    divisor: &i128,
    quotient: usize,
) -> Result<Linear, FormFault>
    requires words { has_words (minus form.now (term divisor.now quotient (pos 0))) ≡ true }
    ensures value { IfOk result (λ f. f ≡ divided_by operator quotient form.now divisor.now) }
    ensures memory { IfErr result (λ e. e ≡ FormFault.NoMemory) }
{
    match operator {
        Operator::Mod => remainder(alloc, form, divisor, quotient),
        _ => Ok(term(alloc, 1, quotient, 0)?),
    }
}

// What a division makes of the sum that it divides.
fn divided(
    alloc: Global,
    operator: Operator,
    form: &Linear,
    divisor: &i128,
    interval: &Interval,
    work: &mut Work,
) -> Result<Linear, FormFault>
    requires positive { pos 0 <ℤ divisor.now }
    requires short { IsShort interval.now }
    ensures value { IfOk result (λ f. f ≡ divided_by operator work.old.next form.now divisor.now) }
    ensures next { OnOk result (work.new.next ≡ work.old.next + 1) }
    ensures pushed { OnOk result (work.new.rows ≡ work.old.rows ++ division_rows work.old.next form.now divisor.now interval.now) }
    ensures kept { OnOk result (nat_le (work.old.next + 1) 190 && all_kept (divided work.old.next form.now divisor.now) ≡ true) }
    ensures limit { IfErr result (λ e. e ≡ FormFault.PathLimit → nat_le (work.old.next + 1) 190 && all_kept (divided work.old.next form.now divisor.now) ≡ false) }
{
    let quotient = divide(alloc, form, divisor, interval, work)?;
    quotient_or_rest(alloc, operator, form, divisor, quotient)
}

/// The sum of an expression that is a number. Its divisions come behind those before.
#[tactic(none)]
pub fn number_form(
    alloc: Global,
    expr: &Expr,
    message: &Elaborated<'_>,
    fields: &[FieldForms],
    work: &mut Work,
) -> Result<Linear, FormFault>
    requires numeric { IsNumeric (tree_of expr.now) }
    requires narrow { IsNarrow (limits message.now) (tree_of expr.now) }
    requires room { work.old.next ≤ 190 }
    ensures sum { IfOk result (λ f. HasSum (limits message.now) (formed_all fields.now) (tree_of expr.now) work.old work.new f) }
    ensures limit { IfErr result (λ e. e ≡ FormFault.PathLimit → is_within (formed_all fields.now) work.old.next (tree_of expr.now) ≡ false) }
{
    match expr {
        Expr::Neg(part) => {
            let form = number_form(alloc, part, message, fields, work)?;
            scaled(alloc, -1, &form)
        }
        Expr::Binary(operator, left, right) => match operator {
            Operator::Mul => {
                if is_static(left) {
                    let form = number_form(alloc, right, message, fields, work)?;
                    scaled(alloc, static_number(left), &form)
                } else {
                    let form = number_form(alloc, left, message, fields, work)?;
                    scaled(alloc, static_number(right), &form)
                }
            }
            Operator::Div | Operator::Mod => {
                let form = number_form(alloc, left, message, fields, work)?;
                let divisor = static_number(right);
                let interval = interval(left, message);
                divided(alloc, *operator, &form, &divisor, &interval, work)
            }
            _ => {
                let left = number_form(alloc, left, message, fields, work)?;
                let right = number_form(alloc, right, message, fields, work)?;
                joined(alloc, *operator, &left, &right)
            }
        },
        _ => leaf_form(alloc, expr, fields, work),
    }
}
