// Rows joined one after another, as a search keeps them: put on and taken off at the end.
ghost use Rattle.std.specs.Prelude.{◌≡◌, ◌<◌, ◌≤◌, ◌^◌, List, [], ◌∷◌, length, take, true, false, ℕ, unsigned_abs, IfOk, OnOk, MatchOption, Some};
ghost use Rattle.std.specs.List.{All};
ghost use Rattle.rx_linear.specs.Systems.{FitsSystem, IsWithinLimits};
ghost use Rattle.rx_linear.specs.Joining.{joined, joined_one};
ghost use Rattle.rx_linear.specs.Steps.{closes};
ghost use Rattle.rx_linear.specs.Units.{unit_row};
ghost use Rattle.rx_shadow.specs.Bounds.{HasUnitRows, middle};
ghost use Rattle.rx_shadow.specs.Simple.{clashes, outcome, IsTested};
ghost use Rattle.rx_shadow.specs.Known.{rows_of};
ghost use Rattle.rx_shadow.specs.Joined.{IsJoined, IsSolvedAt};

use crate::bounds::{middle, narrowest};
use crate::exact::{are_plain, clash, greatest_exact};
use crate::known::{Derived, Known};
use crate::marked::MarkedRow;
use crate::solving::{is_new, origin, search_exact};
use crate::{NoMemory, Solved};
use rx_linear::{Row, Step, tighten, tightened};
use sqlite_items::Items;
use std::alloc::Global;
use std::marker::Model;

/// Rows over the same variables, joined one after another to nothing.
#[derive(Debug, Drop)]
pub struct JoinedRows {
    variables: usize,
    known: Vec<Known>,
}

impl Model for JoinedRows {
    ghost use Rattle.rx_linear.specs.Systems.{LinearSystem};
    ghost use Rattle.rx_shadow.specs.Known.{rows_of};
    ghost use Rattle.rx_shadow.specs.Joined.{IsJoined};

    ghost Value = { LinearSystem };

    ghost view = { λ s. record { variables = s.variables; rows = rows_of s.known.items } };

    ghost invariant = { λ s. IsJoined s.variables s.known.items };
}

/// Puts the tight row at the end, unless it is true of itself or there already.
fn keep_new(known: &mut Vec<Known>, last: Row) -> Result<(), NoMemory>
    ensures rows { OnOk result (rows_of known.new.items ≡ joined_one (rows_of known.old.items) last) }
    ensures joined { (n : ℕ) → IsJoined n known.old.items → FitsSystem n last → IsJoined n known.new.items }
{
    if !is_new(&last, known) {
        return Ok(());
    }
    let number = known.len();
    known.push(Known {
        row: MarkedRow::new(last),
        number,
    })?;
    Ok(())
}

/// The row of these coefficients with that constant.
fn row_of(coefficients: Items<i128>, least: &i128) -> Row
    ensures { result ≡ record { coefficients = coefficients; least = least.now } }
{
    Row {
        coefficients,
        least: *least,
    }
}

/// The row with one coefficient.
fn unit_row(
    alloc: Global,
    variables: usize,
    variable: usize,
    coefficient: &i128,
    least: &i128,
) -> Result<Row, NoMemory>
    requires { variable < variables }
    ensures { IfOk result (λ row. row ≡ unit_row variables variable coefficient.now least.now) }
{
    let mut coefficients = Items::from_vec(vec![in alloc; 0; variables]?);
    coefficients.set(variable, *coefficient);
    Ok(row_of(coefficients, least))
}

/// The same row once more.
fn copied_row(alloc: Global, row: &Row) -> Result<Row, NoMemory>
    ensures { IfOk result (λ copy. copy ≡ row.now) }
{
    let coefficients = Items::from_slice(alloc, row.coefficients.as_slice())?;
    Ok(row_of(coefficients, &row.least))
}

/// The same rows once more.
fn copied(alloc: Global, known: &[Known]) -> Result<Vec<Known>, NoMemory>
    ensures { IfOk result (λ copy. copy.items ≡ known.now) }
{
    let mut copy = Vec::with_capacity(alloc, known.len())?;
    for k in known {
        let row = copied_row(alloc, k.row.row())?;
        copy.push(Known {
            row: MarkedRow::new(row),
            number: k.number,
        })?;
    }
    Ok(copy)
}

/// What joined rows come to by the elimination of their greatest exact variable.
fn solve_exact(
    alloc: Global,
    variable: usize,
    variables: usize,
    known: &[Known],
) -> Result<Solved, NoMemory>
    requires joined { IsJoined variables known.now }
    requires bounded { HasUnitRows variables (rows_of known.now) }
    requires tested { IsTested variables (rows_of known.now) (Some variable) }
    ensures { IfOk result (λ solved. IsSolvedAt variables (rows_of known.now) (outcome variables (rows_of known.now)) solved) }
{
    let narrow = narrowest(variables, known);
    let copy = copied(alloc, known)?;
    let rows = Derived {
        variables,
        given: copy.len(),
        known: copy,
        steps: Vec::new(alloc),
    };
    search_exact(alloc, variable, variables, narrow, rows)
}

/// What joined rows that do not clash come to. They are copied only where a variable is exact.
fn solve_apart(alloc: Global, variables: usize, known: &[Known]) -> Result<Solved, NoMemory>
    requires joined { IsJoined variables known.now }
    requires bounded { HasUnitRows variables (rows_of known.now) }
    requires apart { clashes variables (rows_of known.now) ≡ false }
    ensures { IfOk result (λ solved. IsSolvedAt variables (rows_of known.now) (outcome variables (rows_of known.now)) solved) }
{
    if are_plain(known) {
        return origin(alloc, variables);
    }
    match greatest_exact(variables, known) {
        Some(variable) => solve_exact(alloc, variable, variables, known),
        None => Ok(Solved::NotSimple(narrowest(variables, known))),
    }
}

impl JoinedRows {
    /// No rows.
    pub fn new(alloc: Global, variables: usize) -> JoinedRows
        requires { variables ≤ 192 }
        ensures { result ≡ record { variables = variables; rows = [] } }
    {
        JoinedRows {
            variables,
            known: Vec::new(alloc),
        }
    }

    /// How many variables the rows are over.
    pub fn variables(&self) -> usize
        ensures value { result ≡ self.now.variables }
        ensures limits { IsWithinLimits self.now.variables self.now.rows }
    {
        self.variables
    }

    /// How many rows there are.
    pub fn len(&self) -> usize
        ensures { result ≡ length self.now.rows }
    {
        self.known.len()
    }

    /// Joins a row.
    pub fn join(&mut self, alloc: Global, row: &Row) -> Result<(), NoMemory>
        requires { FitsSystem self.old.variables row.now }
        ensures { OnOk result (self.new ≡ record self.old { rows = joined self.old.rows (row.now ∷ []) }) }
    {
        let last = tighten(alloc, row)?;
        keep_new(&mut self.known, last)
    }

    /// Joins each of the rows in turn.
    pub fn join_all(&mut self, alloc: Global, rows: &[Row]) -> Result<(), NoMemory>
        requires { All (FitsSystem self.old.variables) rows.now }
        ensures { OnOk result (self.new ≡ record self.old { rows = joined self.old.rows rows.now }) }
    {
        for row in rows {
            self.join(alloc, row)?;
        }
        Ok(())
    }

    /// Joins the row with one coefficient.
    pub fn join_unit(
        &mut self,
        alloc: Global,
        variable: usize,
        coefficient: &i128,
        least: &i128,
    ) -> Result<(), NoMemory>
        requires within { variable < self.old.variables }
        requires coefficient_small { unsigned_abs coefficient.now < 2 ^ 20 }
        requires least_small { unsigned_abs least.now < 2 ^ 100 }
        ensures { OnOk result (self.new ≡ record self.old { rows = joined self.old.rows (unit_row self.old.variables variable coefficient.now least.now ∷ []) }) }
    {
        let row = unit_row(alloc, self.variables, variable, coefficient, least)?;
        keep_new(&mut self.known, tightened(row))
    }

    /// Leaves the first `count` rows.
    pub fn truncate(&mut self, count: usize)
        requires { count ≤ length self.old.rows }
        ensures { self.new ≡ record self.old { rows = take count self.old.rows } }
    {
        self.known.truncate(count);
    }

    /// The step that closes the rows, where they clash.
    pub fn clash(&self) -> Option<Step>
        ensures { MatchOption result (clashes self.now.variables self.now.rows ≡ false) (λ step. (clashes self.now.variables self.now.rows ≡ true) × (closes self.now.rows (step ∷ []) ≡ true)) }
    {
        clash(self.variables, &self.known)
    }

    /// The middle of the variable's values between its unit bounds, rounded down.
    pub fn middle(&self, variable: usize) -> i128
        requires { variable < self.now.variables }
        ensures { result ≡ middle variable self.now.rows }
    {
        middle(variable, self.variables, &self.known)
    }

    /// A point of rows that do not clash, steps that close them, or that they are not those of a Simple system.
    pub fn solve(&self, alloc: Global) -> Result<Solved, NoMemory>
        requires bounded { HasUnitRows self.now.variables self.now.rows }
        requires apart { clashes self.now.variables self.now.rows ≡ false }
        ensures { IfOk result (λ solved. IsSolvedAt self.now.variables self.now.rows (outcome self.now.variables self.now.rows) solved) }
    {
        solve_apart(alloc, self.variables, &self.known)
    }
}
