// Exact variables, and clashes.
ghost use Rattle.std.specs.Prelude.{◌≡◌, ◌<◌, length, MatchOption, true, false, ℕ, is_some};
ghost use Rattle.std.specs.List.{All, list_any, list_all};
ghost use Rattle.rx_linear.specs.Joining.{has_no_variable, is_false};
ghost use Rattle.rx_shadow.specs.Bounds.{bounds_clash, fixed_value};
ghost use Rattle.rx_shadow.specs.Simple.{any_below, clashes, has, has_unit_pairs, is_exact, greatest_below};
ghost use Rattle.rx_shadow.specs.Known.{rows_of, AllFit};
ghost use Rattle.rx_shadow.specs.BoundRows.{is_one_if_positive, is_one_if_negative};
ghost use Rattle.rx_shadow.specs.Derivations.{IsClosing};

use crate::bounds::{bounds_clash, fixed_bounds};
use crate::known::Known;
use crate::rows::{has_coefficient, has_no_variable, is_false, is_negative, is_positive};
use rx_linear::Step;

/// The step that derives a false row again.
fn false_row(known: &[Known]) -> Option<Step>
    ensures { MatchOption result (list_any is_false (rows_of known.now) ≡ false) (λ step. (list_any is_false (rows_of known.now) ≡ true) × IsClosing known.now step) }
{
    for k in known {
        if is_false(k.row.row()) {
            return Some(Step::Tighten { row: k.number });
        }
    }
    None
}

/// The step that shows that the bounds of a variable clash.
fn some_bounds_clash(variables: usize, known: &[Known]) -> Option<Step>
    requires { AllFit variables known.now }
    ensures { MatchOption result (any_below (λ x. bounds_clash x (rows_of known.now)) variables ≡ false) (λ step. (any_below (λ x. bounds_clash x (rows_of known.now)) variables ≡ true) × IsClosing known.now step) }
{
    for variable in 0..variables {
        if let Some(step) = bounds_clash(variable, variables, known) {
            return Some(step);
        }
    }
    None
}

/// The step that shows that the rows clash.
pub(crate) fn clash(variables: usize, known: &[Known]) -> Option<Step>
    requires { AllFit variables known.now }
    ensures { MatchOption result (clashes variables (rows_of known.now) ≡ false) (λ step. (clashes variables (rows_of known.now) ≡ true) × IsClosing known.now step) }
{
    match false_row(known) {
        Some(step) => Some(step),
        None => some_bounds_clash(variables, known),
    }
}

/// Whether no variable occurs in the rows.
pub(crate) fn are_plain(known: &[Known]) -> bool
    ensures { result ≡ list_all (λ k. has_no_variable k.row) known.now }
{
    known.iter().all(|k| has_no_variable(k.row.row()))
}

/// Whether the variable occurs in a row.
fn occurs(variable: usize, known: &[Known]) -> bool
    requires { All (λ k. variable < length k.row.coefficients) known.now }
    ensures { result ≡ list_any (λ k. has variable k.row) known.now }
{
    known
        .iter()
        .any(|k| !has_coefficient(k.row.row(), variable, &0))
}

/// Whether each positive coefficient of the variable is 1.
fn positives_are_one(variable: usize, known: &[Known]) -> bool
    requires { All (λ k. variable < length k.row.coefficients) known.now }
    ensures { result ≡ list_all (is_one_if_positive variable) known.now }
{
    known.iter().all(|k| !is_positive(k.row.row(), variable)
        || has_coefficient(k.row.row(), variable, &1))
}

/// Whether each negative coefficient of the variable is -1.
fn negatives_are_one(variable: usize, known: &[Known]) -> bool
    requires { All (λ k. variable < length k.row.coefficients) known.now }
    ensures { result ≡ list_all (is_one_if_negative variable) known.now }
{
    known.iter().all(|k| !is_negative(k.row.row(), variable)
        || has_coefficient(k.row.row(), variable, &-1))
}

/// Whether in each pair of the variable one coefficient is 1 in magnitude.
#[tactic(auto, using(crate::proofs::Exactness::unit_pairs))]
fn has_unit_pairs(variable: usize, known: &[Known]) -> bool
    requires { All (λ k. variable < length k.row.coefficients) known.now }
    ensures { result ≡ has_unit_pairs variable (rows_of known.now) }
{
    positives_are_one(variable, known) || negatives_are_one(variable, known)
}

/// Whether the variable is fixed.
fn is_fixed(variable: usize, variables: usize, known: &[Known]) -> bool
    requires variable { variable < variables }
    requires fit { AllFit variables known.now }
    ensures { result ≡ is_some (fixed_value variable (rows_of known.now)) }
{
    match fixed_bounds(variable, variables, known) {
        Some(_) => true,
        None => false,
    }
}

/// Whether the variable is exact.
fn is_exact(variable: usize, variables: usize, known: &[Known]) -> bool
    requires variable { variable < variables }
    requires fit { AllFit variables known.now }
    ensures { result ≡ is_exact (rows_of known.now) variable }
{
    occurs(variable, known)
        && (is_fixed(variable, variables, known) || has_unit_pairs(variable, known))
}

/// The greatest-numbered exact variable.
pub(crate) fn greatest_exact(variables: usize, known: &[Known]) -> Option<usize>
    requires { AllFit variables known.now }
    ensures { result ≡ greatest_below (is_exact (rows_of known.now)) variables }
{
    let mut below = variables;
    while below > 0 {
        below -= 1;
        if is_exact(below, variables, known) {
            return Some(below);
        }
    }
    None
}
