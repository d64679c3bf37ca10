// Exact elimination, from the greatest-numbered exact variable down, and the way back to a point.
//   each round finds a clash, rows without variables, or the greatest exact variable to eliminate
//   at most one round a variable, 1,024 rows a round and two steps a row
ghost use Rattle.std.specs.Prelude.{◌≡◌, ℕ, ◌+◌, ◌*◌, ◌<◌, ◌≤◌, ◌^◌, IfOk, OnOk, List, [], ◌++◌, ◌∷◌, ℤ, pos, negsuc, true, length, slice_get, Some, not, ◌||◌, IsTrue, ◌↔◌};
ghost use Rattle.std.specs.List.{All, list_any};
ghost use Rattle.rx_linear.specs.declared.row.Row.{Row};
ghost use Rattle.rx_linear.specs.Joining.{joined, is_true, same_row};
ghost use Rattle.rx_linear.specs.Steps.{closes};
ghost use Rattle.rx_linear.specs.Systems.{FitsSystem};
ghost use Rattle.rx_linear.specs.Units.{is_unit_row};
ghost use Rattle.rx_shadow.specs.declared.known.Known.{Known};
ghost use Rattle.rx_shadow.specs.Bounds.{IsBounded, has_unit_rows, HasUnitRows};
ghost use Rattle.rx_shadow.specs.Simple.{outcome, outcome_in, IsTested};
ghost use Rattle.rx_shadow.specs.Known.{rows_of, AllFit};
ghost use Rattle.rx_shadow.specs.Derivations.{IsDerived, IsClosing};
ghost use Rattle.rx_shadow.specs.Solving.{IsClosedBy, IsOrigin, IsFound, IsSolved, IfClosed, HasNoPoint};

use crate::NoMemory;
use crate::bounds::{bounds, narrowest};
use crate::eliminating::{Elimination, eliminate};
use crate::exact::{are_plain, clash, greatest_exact};
use crate::known::{Derived, Known, is_there};
use crate::marked::MarkedRow;
use crate::placing::with_value;
use crate::rows::is_true;
use rx_linear::{Row, Step, System, tighten};
use std::alloc::Global;

/// What exact elimination comes to.
#[derive(Debug, Drop)]
pub enum Solved {
    /// A number for each variable, at which all rows hold.
    Point(Vec<i128>),
    /// Steps that derive a false row.
    Closed(Vec<Step>),
    /// The system is not Simple; its narrowest variable.
    NotSimple(usize),
}

/// Whether the tight row is put at the end when it is joined.
pub(crate) fn is_new(row: &Row, known: &[Known]) -> bool
    ensures { result ≡ not (is_true row.now || list_any (same_row row.now) (rows_of known.now)) }
{
    !(is_true(row) || is_there(row, known))
}

/// The rows joined to nothing, each with its place.
fn joined_rows(alloc: Global, variables: usize, rows: &[Row]) -> Result<Vec<Known>, NoMemory>
    requires { All (FitsSystem variables) rows.now }
    ensures rows { IfOk result (λ known. rows_of known.items ≡ joined [] rows.now) }
    ensures fit { IfOk result (λ known. AllFit variables known.items) }
    ensures numbered { IfOk result (λ known. All (λ k. slice_get (rows_of known.items) k.number ≡ Some k.row) known.items) }
{
    let mut known = Vec::new(alloc);
    for row in rows {
        let last = tighten(alloc, row)?;
        if is_new(&last, &known) {
            let number = known.len();
            known.push(Known {
                row: MarkedRow::new(last),
                number,
            })?;
        }
    }
    Ok(known)
}

/// The steps with one more that gives a false row.
fn closed(mut steps: Vec<Step>, step: Step) -> Result<Solved, NoMemory>
    ensures { IfOk result (λ solved. IsClosedBy steps.items step solved) }
{
    steps.push(step)?;
    Ok(Solved::Closed(steps))
}

/// The point at which each variable is 0.
pub(crate) fn origin(alloc: Global, variables: usize) -> Result<Solved, NoMemory>
    ensures { IfOk result (λ solved. IsOrigin variables solved) }
{
    let point = vec![in alloc; 0; variables]?;
    Ok(Solved::Point(point))
}

/// What at most so many rounds of exact elimination come to.
#[cycle(search)]
fn search(alloc: Global, rounds: usize, narrow: usize, rows: Derived) -> Result<Solved, NoMemory>
    requires few_variables { rows.variables ≤ 192 }
    requires fits { AllFit rows.variables rows.known.items }
    requires few_given { rows.given < 2 ^ 60 }
    requires few_steps { length rows.steps.items + 2048 * rounds < 2 ^ 58 }
    requires lower { IsBounded (pos 1) rows.variables (rows_of rows.known.items) }
    requires upper { IsBounded (negsuc 0) rows.variables (rows_of rows.known.items) }
    ensures { IfOk result (λ solved. IsFound rounds narrow rows (outcome_in rows.variables rounds (rows_of rows.known.items)) solved) }
{
    if let Some(step) = clash(rows.variables, &rows.known) {
        return closed(rows.steps, step);
    }
    if are_plain(&rows.known) {
        return origin(alloc, rows.variables);
    }
    let Some(variable) = greatest_exact(rows.variables, &rows.known) else {
        return Ok(Solved::NotSimple(narrow));
    };
    search_exact(alloc, variable, rounds, narrow, rows)
}

/// What at most so many rounds come to, of which the first eliminates the greatest exact variable.
#[cycle(search)]
pub(crate) fn search_exact(
    alloc: Global,
    variable: usize,
    rounds: usize,
    narrow: usize,
    rows: Derived,
) -> Result<Solved, NoMemory>
    requires few_variables { rows.variables ≤ 192 }
    requires fits { AllFit rows.variables rows.known.items }
    requires few_given { rows.given < 2 ^ 60 }
    requires few_steps { length rows.steps.items + 2048 * rounds < 2 ^ 58 }
    requires lower { IsBounded (pos 1) rows.variables (rows_of rows.known.items) }
    requires upper { IsBounded (negsuc 0) rows.variables (rows_of rows.known.items) }
    requires tested { IsTested rows.variables (rows_of rows.known.items) (Some variable) }
    ensures { IfOk result (λ solved. IsFound rounds narrow rows (outcome_in rows.variables rounds (rows_of rows.known.items)) solved) }
{
    if rounds == 0 {
        return Ok(Solved::NotSimple(narrow));
    }
    let Some(elimination) = eliminate(alloc, variable, rows)? else {
        return Ok(Solved::NotSimple(narrow));
    };
    let Elimination { leaving, next } = elimination;
    let solved = search(alloc, rounds - 1, narrow, next)?;
    Ok(with_value(variable, &leaving, solved))
}

/// Whether the variable has a lower and an upper unit row.
#[tactic(auto, using(crate::proofs::Bounded::bounded_has, crate::proofs::Bounded::unbounded_lacks))]
fn has_unit_rows(variable: usize, known: &[Known]) -> bool
    requires { All (λ k. variable < length k.row.coefficients) known.now }
    ensures { result ≡ has_unit_rows variable (rows_of known.now) }
{
    match bounds(variable, known) {
        Some(_) => true,
        None => false,
    }
}

/// Whether each variable has a lower and an upper unit row among the known rows.
fn all_bounded(variables: usize, known: &[Known]) -> bool
    requires { AllFit variables known.now }
    ensures { IsTrue result ↔ HasUnitRows variables (rows_of known.now) }
{
    for variable in 0..variables {
        if !has_unit_rows(variable, known) {
            return false;
        }
    }
    true
}

/// Whether each variable has a lower and an upper unit row once the rows are joined to nothing, as `solve` asks.
pub fn is_bounded(alloc: Global, system: &System) -> Result<bool, NoMemory>
    ensures { IfOk result (λ yes. IsTrue yes ↔ HasUnitRows system.now.variables (joined [] system.now.rows)) }
{
    let variables = system.variables();
    let known = joined_rows(alloc, variables, system.rows())?;
    Ok(all_bounded(variables, &known))
}

/// A point of the system, steps that close it, or that it is not Simple.
///
/// The rows are read as they are when they are joined to nothing, and the steps number those rows first.
pub fn solve(alloc: Global, system: &System) -> Result<Solved, NoMemory>
    requires { HasUnitRows system.now.variables (joined [] system.now.rows) }
    ensures solved { IfOk result (λ solved. IsSolved system.now (outcome system.now.variables (joined [] system.now.rows)) solved) }
    ensures closed { IfOk result (λ solved. IfClosed solved (HasNoPoint system.now)) }
{
    let variables = system.variables();
    let known = joined_rows(alloc, variables, system.rows())?;
    let narrow = narrowest(variables, &known);
    let rows = Derived {
        variables,
        given: known.len(),
        known,
        steps: Vec::new(alloc),
    };
    search(alloc, variables, narrow, rows)
}
