//! Values of expressions, worked out part by part.

ghost use Rattle.std.specs.Prelude.{◌≡◌, IfSome, IsTrue, true};
ghost use Rattle.rx_types.specs.Environment.{placed, last_of};
ghost use Rattle.rx_types.specs.Tree.{tree_of};
ghost use Rattle.rx_types.specs.Value.{value_of, combined, truth_value, is_one};

use rx_types::{Entry, Env, Expr, Operator};

/// The value of an expression, or nothing where that of a part has more than 128 bits or a divisor is below 1.
pub fn evaluated(expr: &Expr, env: &Env) -> Option<i128>
    ensures { IfSome result (λ z. z ≡ value_of (tree_of expr.now) env.now) }
{
    match expr {
        Expr::Number(number) => Some(*number),
        Expr::Truth(truth) => Some(number_of(*truth)),
        Expr::Field(field) => Some(env.entry(*field).number as i128),
        Expr::First(field) => Some(env.entry(*field).first as i128),
        Expr::Last(field) => Some(last(env.entry(*field))),
        Expr::Size(field) => Some(env.entry(*field).size as i128),
        Expr::Total => Some(env.total() as i128 * 8),
        Expr::Neg(part) => {
            let part = evaluated(part, env)?;
            part.checked_neg()
        }
        Expr::Not(part) => {
            let part = evaluated(part, env)?;
            Some(number_of(part != 1))
        }
        Expr::Binary(operator, left, right) => {
            let left = evaluated(left, env)?;
            let right = evaluated(right, env)?;
            combined(*operator, left, right)
        }
    }
}

/// Whether an expression has a value, and is true.
pub fn is_true(expr: &Expr, env: &Env) -> bool
    ensures { IsTrue result → is_one (value_of (tree_of expr.now) env.now) ≡ true }
{
    match evaluated(expr, env) {
        Some(value) => value == 1,
        None => false,
    }
}

// What the operator makes of its operands' values.
fn combined(operator: Operator, left: i128, right: i128) -> Option<i128>
    ensures { IfSome result (λ z. z ≡ combined operator left right) }
{
    match operator {
        Operator::Add => left.checked_add(right),
        Operator::Sub => left.checked_sub(right),
        Operator::Mul => left.checked_mul(right),
        Operator::Div if right >= 1 => Some(left.div_euclid(right)),
        Operator::Mod if right >= 1 => Some(left.rem_euclid(right)),
        Operator::Div | Operator::Mod => None,
        Operator::And => Some(number_of(left == 1 && right == 1)),
        Operator::Or => Some(number_of(left == 1 || right == 1)),
        Operator::Equal => Some(number_of(left == right)),
        Operator::NotEqual => Some(number_of(left != right)),
        Operator::Less => Some(number_of(left < right)),
        Operator::LessEqual => Some(number_of(left <= right)),
        Operator::Greater => Some(number_of(left > right)),
        Operator::GreaterEqual => Some(number_of(left >= right)),
    }
}

// 1 for true, 0 for false.
fn number_of(truth: bool) -> i128
    ensures { result ≡ truth_value truth }
{
    if truth { 1 } else { 0 }
}

// The last bit.
fn last(entry: Entry) -> i128
    ensures { result ≡ last_of (placed entry) }
{
    entry.first as i128 + entry.size as i128 - 1
}
