// Values of expressions.

ghost use Rattle.std.specs.Prelude.{◌≡◌, ℕ};
ghost use Rattle.rx_types.specs.Environment.{placed, last_of};
ghost use Rattle.rx_types.specs.Value.{value_of, combined, IsEvaluable, IsSmall, TakesDivisor, truth_value, is_one};
ghost use Rattle.rx_types.specs.Tree.{tree_of};
ghost use Rattle.rx_types.specs.Narrow.{IsNarrow, StaysWithin};

use crate::env::{Entry, Env};
use crate::expr::{Expr, Operator};

/// The value of a narrow expression, where a truth value is 1 or 0.
pub fn value(expr: &Expr, env: &Env) -> i128
    requires { (limit : ℕ → ℕ) × IsNarrow limit (tree_of expr.now) × StaysWithin limit env.now }
    ensures value { result ≡ value_of (tree_of expr.now) env.now }
    ensures small { IsSmall result }
{
    evaluate(expr, env)
}

/// The truth value of a narrow expression.
pub fn truth(expr: &Expr, env: &Env) -> bool
    requires { (limit : ℕ → ℕ) × IsNarrow limit (tree_of expr.now) × StaysWithin limit env.now }
    ensures { result ≡ is_one (value_of (tree_of expr.now) env.now) }
{
    evaluate(expr, env) == 1
}

fn evaluate(expr: &Expr, env: &Env) -> i128
    requires { IsEvaluable (tree_of expr.now) env.now }
    ensures { result ≡ value_of (tree_of expr.now) env.now }
{
    match expr {
        Expr::Number(number) => *number,
        Expr::Truth(truth) => number_of(*truth),
        Expr::Field(field) => env.entry(*field).number as i128,
        Expr::First(field) => env.entry(*field).first as i128,
        Expr::Last(field) => last(env.entry(*field)),
        Expr::Size(field) => env.entry(*field).size as i128,
        Expr::Total => env.total() as i128 * 8,
        Expr::Neg(part) => -evaluate(part, env),
        Expr::Not(part) => number_of(evaluate(part, env) != 1),
        Expr::Binary(operator, left, right) => {
            let left = evaluate(left, env);
            let right = evaluate(right, env);
            combine(*operator, left, right)
        }
    }
}

// What the operator makes of its operands' values.
fn combine(operator: Operator, left: i128, right: i128) -> i128
    requires small { IsSmall (combined operator left right) }
    requires divisor { TakesDivisor operator right }
    ensures { result ≡ combined operator left right }
{
    match operator {
        Operator::Add => left + right,
        Operator::Sub => left - right,
        Operator::Mul => left * right,
        Operator::Div => left.div_euclid(right),
        Operator::Mod => left.rem_euclid(right),
        Operator::And => number_of(left == 1 && right == 1),
        Operator::Or => number_of(left == 1 || right == 1),
        Operator::Equal => number_of(left == right),
        Operator::NotEqual => number_of(left != right),
        Operator::Less => number_of(left < right),
        Operator::LessEqual => number_of(left <= right),
        Operator::Greater => number_of(left > right),
        Operator::GreaterEqual => number_of(left >= right),
    }
}

// 1 for true, 0 for false.
fn number_of(truth: bool) -> i128
    ensures { result ≡ truth_value truth }
{
    if truth { 1 } else { 0 }
}

// The last bit.
fn last(entry: Entry) -> i128
    ensures { result ≡ last_of (placed entry) }
{
    entry.first as i128 + entry.size as i128 - 1
}
