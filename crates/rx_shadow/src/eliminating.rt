// The elimination of one variable: the rows with it leave, and the new rows are joined to the others.
ghost use Rattle.std.specs.Prelude.{◌≡◌, List, [], ◌∷◌, ◌<◌, ◌≤◌, length, IfOk, OnOk, MatchOption, true, false, ◌+◌, ◌^◌, pos, int_lt, map};
ghost use Rattle.std.specs.List.{All, Contains, filter};
ghost use Rattle.std.specs.Ordering.{int_eq};
ghost use Rattle.rx_linear.specs.declared.row.Row.{Row};
ghost use Rattle.rx_linear.specs.Systems.{FitsSystem};
ghost use Rattle.rx_linear.specs.Joining.{joined};
ghost use Rattle.rx_linear.specs.Units.{coefficient, at_least, at_most};
ghost use Rattle.rx_shadow.specs.Bounds.{fixed_value};
ghost use Rattle.rx_shadow.specs.Simple.{has, negatives, paired, pairs, at_value, replaced, eliminated, within_limits};
ghost use Rattle.rx_shadow.specs.Known.{rows_of, AllFit};
ghost use Rattle.rx_shadow.specs.Derivations.{Derives, Reaches, Continues, HasRoom, Eliminates};

use crate::NoMemory;
use crate::bounds::fixed_bounds;
use crate::known::{Derived, Known, ROW_LIMIT};
use crate::rows::{coefficient, has_coefficient, is_negative, is_positive, negated};
use std::alloc::Global;

/// The rows without the variable, and those with it.
fn split(
    alloc: Global,
    variable: usize,
    known: Vec<Known>,
) -> Result<(Vec<Known>, Vec<Known>), NoMemory>
    requires { All (λ k. variable < length k.row.coefficients) known.items }
    ensures kept { IfOk result (λ parts. parts.0.items ≡ filter (λ k. int_eq (coefficient variable k.row) (pos 0)) known.items) }
    ensures leaving { IfOk result (λ parts. parts.1.items ≡ filter (λ k. has variable k.row) known.items) }
{
    let mut kept = Vec::with_capacity(alloc, known.len())?;
    let mut leaving = Vec::with_capacity(alloc, known.len())?;
    for k in known {
        if has_coefficient(k.row.row(), variable, &0) {
            kept.push(k)?;
        } else {
            leaving.push(k)?;
        }
    }
    Ok((kept, leaving))
}

impl Derived {
    /// Joins the sum of a pair of the variable.
    fn join_pair(
        &mut self,
        alloc: Global,
        variable: usize,
        first: &Known,
        second: &Known,
    ) -> Result<bool, NoMemory>
        requires room { HasRoom self.old }
        requires fits { AllFit self.old.variables self.old.known.items }
        requires variable { variable < self.old.variables }
        requires first_fits { FitsSystem self.old.variables first.now.row }
        requires second_fits { FitsSystem self.old.variables second.now.row }
        requires first_positive { int_lt (pos 0) (coefficient variable first.now.row) ≡ true }
        requires second_negative { int_lt (coefficient variable second.now.row) (pos 0) ≡ true }
        ensures reached { IfOk result (λ within. Reaches within (joined (rows_of self.old.known.items) (paired variable first.now.row second.now.row ∷ [])) (rows_of self.new.known.items)) }
        ensures continues { OnOk result (Continues self.old self.new) }
        ensures derived { OnOk result ((given : List Row) (others : List Known) → Contains others first.now → Contains others second.now → Derives given self.old others → Derives given self.new others) }
    {
        let first_times = negated(second.row.row(), variable);
        let second_times = coefficient(first.row.row(), variable);
        self.join_sum(alloc, first, first_times, second, second_times)
    }

    /// Joins the sums of the pairs with that first row.
    fn join_pairs_of(
        &mut self,
        alloc: Global,
        variable: usize,
        first: &Known,
        leaving: &[Known],
    ) -> Result<bool, NoMemory>
        requires room { HasRoom self.old }
        requires fits { AllFit self.old.variables self.old.known.items }
        requires variable { variable < self.old.variables }
        requires leaving_fit { AllFit self.old.variables leaving.now }
        requires first_leaves { Contains leaving.now first.now }
        requires first_positive { int_lt (pos 0) (coefficient variable first.now.row) ≡ true }
        ensures reached { IfOk result (λ within. Reaches within (joined (rows_of self.old.known.items) (map (paired variable first.now.row) (negatives variable (rows_of leaving.now)))) (rows_of self.new.known.items)) }
        ensures continues { OnOk result (Continues self.old self.new) }
        ensures derived { OnOk result ((given : List Row) → Derives given self.old leaving.now → Derives given self.new leaving.now) }
    {
        for second in leaving {
            if is_negative(second.row.row(), variable) {
                if !self.join_pair(alloc, variable, first, second)? {
                    return Ok(false);
                }
            }
        }
        Ok(true)
    }

    /// Joins the sums of all pairs of the variable.
    fn join_pairs(
        &mut self,
        alloc: Global,
        variable: usize,
        leaving: &[Known],
    ) -> Result<bool, NoMemory>
        requires room { HasRoom self.old }
        requires fits { AllFit self.old.variables self.old.known.items }
        requires variable { variable < self.old.variables }
        requires leaving_fit { AllFit self.old.variables leaving.now }
        ensures reached { IfOk result (λ within. Reaches within (joined (rows_of self.old.known.items) (pairs variable (rows_of leaving.now))) (rows_of self.new.known.items)) }
        ensures continues { OnOk result (Continues self.old self.new) }
        ensures derived { OnOk result ((given : List Row) → Derives given self.old leaving.now → Derives given self.new leaving.now) }
    {
        for first in leaving {
            if is_positive(first.row.row(), variable) {
                if !self.join_pairs_of(alloc, variable, first, leaving)? {
                    return Ok(false);
                }
            }
        }
        Ok(true)
    }

    /// Joins the sum of a row with the opposite bound row of its variable.
    fn join_value(
        &mut self,
        alloc: Global,
        variable: usize,
        low: &Known,
        high: &Known,
        row: &Known,
    ) -> Result<bool, NoMemory>
        requires room { HasRoom self.old }
        requires fits { AllFit self.old.variables self.old.known.items }
        requires variable { variable < self.old.variables }
        requires low_fits { FitsSystem self.old.variables low.now.row }
        requires high_fits { FitsSystem self.old.variables high.now.row }
        requires row_fits { FitsSystem self.old.variables row.now.row }
        requires low_bound { low.now.row ≡ at_least self.old.variables variable low.now.row.least }
        requires high_bound { high.now.row ≡ at_most self.old.variables variable low.now.row.least }
        ensures reached { IfOk result (λ within. Reaches within (joined (rows_of self.old.known.items) (at_value self.old.variables variable low.now.row.least row.now.row ∷ [])) (rows_of self.new.known.items)) }
        ensures continues { OnOk result (Continues self.old self.new) }
        ensures derived { OnOk result ((given : List Row) (others : List Known) → Contains others low.now → Contains others high.now → Contains others row.now → Derives given self.old others → Derives given self.new others) }
    {
        if is_positive(row.row.row(), variable) {
            let times = coefficient(row.row.row(), variable);
            self.join_sum(alloc, row, 1, high, times)
        } else {
            let times = negated(row.row.row(), variable);
            self.join_sum(alloc, row, 1, low, times)
        }
    }

    /// Joins the sum of each row with the opposite bound row of its variable.
    fn join_values(
        &mut self,
        alloc: Global,
        variable: usize,
        low: &Known,
        high: &Known,
        leaving: &[Known],
    ) -> Result<bool, NoMemory>
        requires room { HasRoom self.old }
        requires fits { AllFit self.old.variables self.old.known.items }
        requires variable { variable < self.old.variables }
        requires leaving_fit { AllFit self.old.variables leaving.now }
        requires low_leaves { Contains leaving.now low.now }
        requires high_leaves { Contains leaving.now high.now }
        requires low_bound { low.now.row ≡ at_least self.old.variables variable low.now.row.least }
        requires high_bound { high.now.row ≡ at_most self.old.variables variable low.now.row.least }
        ensures reached { IfOk result (λ within. Reaches within (joined (rows_of self.old.known.items) (map (at_value self.old.variables variable low.now.row.least) (rows_of leaving.now))) (rows_of self.new.known.items)) }
        ensures continues { OnOk result (Continues self.old self.new) }
        ensures derived { OnOk result ((given : List Row) → Derives given self.old leaving.now → Derives given self.new leaving.now) }
    {
        for row in leaving {
            if !self.join_value(alloc, variable, low, high, row)? {
                return Ok(false);
            }
        }
        Ok(true)
    }

    /// Joins what stands in place of the rows with the variable.
    fn replace(
        &mut self,
        alloc: Global,
        variable: usize,
        leaving: &[Known],
    ) -> Result<bool, NoMemory>
        requires room { HasRoom self.old }
        requires fits { AllFit self.old.variables self.old.known.items }
        requires variable { variable < self.old.variables }
        requires leaving_fit { AllFit self.old.variables leaving.now }
        requires leaving_have { filter (has variable) (rows_of leaving.now) ≡ rows_of leaving.now }
        ensures reached { IfOk result (λ within. Reaches within (joined (rows_of self.old.known.items) (replaced self.old.variables variable (rows_of leaving.now) (fixed_value variable (rows_of leaving.now)))) (rows_of self.new.known.items)) }
        ensures continues { OnOk result (Continues self.old self.new) }
        ensures derived { OnOk result ((given : List Row) → Derives given self.old leaving.now → Derives given self.new leaving.now) }
    {
        match fixed_bounds(variable, self.variables, leaving) {
            Some((low, high)) => self.join_values(alloc, variable, low, high, leaving),
            None => self.join_pairs(alloc, variable, leaving),
        }
    }
}

/// What the elimination of a variable leaves: the rows with it, and the others with the new ones.
#[derive(Debug, Drop)]
pub(crate) struct Elimination {
    pub(crate) leaving: Vec<Known>,
    pub(crate) next: Derived,
}

/// The elimination of the variable, where it keeps the limits.
pub(crate) fn eliminate(
    alloc: Global,
    variable: usize,
    rows: Derived,
) -> Result<Option<Elimination>, NoMemory>
    requires fits { AllFit rows.variables rows.known.items }
    requires variable { variable < rows.variables }
    requires few_given { rows.given < 2 ^ 60 }
    requires few_steps { length rows.steps.items < 2 ^ 58 }
    ensures { IfOk result (λ o. MatchOption o (within_limits (eliminated rows.variables variable (rows_of rows.known.items)) ≡ false) (λ e. Eliminates variable rows e.leaving.items e.next)) }
{
    let Derived {
        variables,
        known,
        given,
        steps,
    } = rows;
    let (kept, leaving) = split(alloc, variable, known)?;
    if kept.len() > ROW_LIMIT {
        return Ok(None);
    }
    let mut next = Derived {
        variables,
        known: kept,
        given,
        steps,
    };
    let within = next.replace(alloc, variable, leaving.as_slice())?;
    if within {
        Ok(Some(Elimination { leaving, next }))
    } else {
        Ok(None)
    }
}
