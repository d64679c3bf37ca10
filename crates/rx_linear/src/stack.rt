// Rows in one buffer, put on and taken off at the end.
ghost use Rattle.std.specs.Prelude.{◌≡◌, ◌+◌, ◌*◌, ◌<◌, ◌≤◌, ◌^◌, length, take, drop, IfOk, unsigned_abs, [], ◌∷◌, slice_get};
ghost use Rattle.std.specs.List.{All, list_any};
ghost use Rattle.rx_linear.specs.Rows.{Narrow, Wide, tight, is_multiplier};
ghost use Rattle.rx_linear.specs.Systems.{FitsSystem};
ghost use Rattle.rx_linear.specs.Joining.{joined, is_false};
ghost use Rattle.rx_linear.specs.Units.{unit_row};
ghost use Rattle.rx_linear.specs.Steps.{step_gives, combine_found, tighten_found, last_is_false};
ghost use Rattle.rx_linear.specs.Cells.{Stacked, IsStack, Pushes, row_of, rows_of};

use crate::buffer::{
    can_combine, combine_at, copy_tight_at, is_false_at, join_row_at, join_unit_at,
};
use crate::{NoMemory, Row, Step};
use std::alloc::Global;
use std::marker::Model;

/// Rows over the same variables in one buffer, which has room for a fixed number of rows.
#[derive(Drop)]
pub struct RowStack {
    variables: usize,
    count: usize,
    limit: usize,
    cells: Vec<i128>,
}

impl Model for RowStack {
    ghost use Rattle.rx_linear.specs.Cells.{Stacked, IsStack, stacked};

    ghost Value = { Stacked };

    ghost view = { λ s. stacked s.variables s.count s.limit s.cells.items };

    ghost invariant = { λ s. IsStack s.variables s.count s.limit s.cells.items };
}

impl RowStack {
    /// A stack without rows, with room for `limit` rows.
    pub fn make(alloc: Global, variables: usize, limit: usize) -> Result<RowStack, NoMemory>
        requires { variables ≤ 192 }
        ensures { IfOk result (λ s. s ≡ record { variables = variables; rows = []; limit = limit }) }
    {
        let Some(size) = limit.checked_mul(variables + 1) else {
            return Err(NoMemory);
        };
        let cells = vec![in alloc; 0; size]?;
        Ok(RowStack {
            variables,
            count: 0,
            limit,
            cells,
        })
    }

    /// How many variables the rows are over.
    pub fn variables(&self) -> usize
        ensures value { result ≡ self.now.variables }
        ensures few { result ≤ 192 }
    {
        self.variables
    }

    /// How many rows there are.
    pub fn len(&self) -> usize
        ensures value { result ≡ length self.now.rows }
        ensures within { result ≤ self.now.limit }
    {
        self.count
    }

    /// Leaves the first `count` rows.
    pub fn truncate(&mut self, count: usize)
        requires { count ≤ length self.old.rows }
        ensures { self.new ≡ record self.old { rows = take count self.old.rows } }
    {
        self.count = count;
    }

    /// Whether some row has no variable and is false.
    pub fn has_false(&self) -> bool
        ensures { result ≡ list_any is_false self.now.rows }
    {
        for row in 0..self.count {
            if is_false_at(&self.cells, self.variables, row * (self.variables + 1)) {
                return true;
            }
        }
        false
    }

    /// Whether the last row has no variable and is false.
    pub fn last_is_false(&self) -> bool
        ensures { result ≡ last_is_false self.now.rows }
    {
        self.count > 0
            && is_false_at(
                &self.cells,
                self.variables,
                (self.count - 1) * (self.variables + 1),
            )
    }

    /// Joins a row.
    pub fn join(&mut self, row: &Row)
        requires room { length self.old.rows < self.old.limit }
        requires same_length { length row.now.coefficients ≡ self.old.variables }
        requires narrow { Narrow row.now }
        ensures { self.new ≡ record self.old { rows = joined self.old.rows (row.now ∷ []) } }
    {
        self.count = join_row_at(&mut self.cells, self.variables, self.count, row);
    }

    /// Joins the row with one coefficient.
    pub fn join_unit(&mut self, variable: usize, coefficient: &i128, least: &i128)
        requires room { length self.old.rows < self.old.limit }
        requires within { variable < self.old.variables }
        requires coefficient_small { unsigned_abs coefficient.now < 2 ^ 20 }
        requires least_small { unsigned_abs least.now < 2 ^ 100 }
        ensures { self.new ≡ record self.old { rows = joined self.old.rows (unit_row self.old.variables variable coefficient.now least.now ∷ []) } }
    {
        self.count = join_unit_at(
            &mut self.cells,
            self.variables,
            self.count,
            variable,
            coefficient,
            least,
        );
    }

    /// Puts the sum of two rows at the end, each times its multiplier, where both are there and all are within the limits.
    fn push_combined(
        &mut self,
        left: usize,
        left_times: i128,
        right: usize,
        right_times: i128,
    ) -> bool
        requires room { length self.old.rows < self.old.limit }
        ensures pushes { Pushes self.old.rows (combine_found (slice_get self.old.rows left) left_times (slice_get self.old.rows right) right_times) result self.new.rows }
        ensures variables { self.new.variables ≡ self.old.variables }
        ensures limit { self.new.limit ≡ self.old.limit }
    {
        let width = self.variables + 1;
        if !can_combine(
            &self.cells,
            self.variables,
            self.count,
            left,
            left_times,
            right,
            right_times,
        ) {
            return false;
        }
        let top = self.count * width;
        combine_at(
            &mut self.cells,
            self.variables,
            left * width,
            left_times,
            right * width,
            right_times,
            top,
        );
        self.count += 1;
        true
    }

    /// Puts the tight row of a row at the end, where that row is there.
    fn push_tight(&mut self, row: usize) -> bool
        requires room { length self.old.rows < self.old.limit }
        ensures pushes { Pushes self.old.rows (tighten_found (slice_get self.old.rows row)) result self.new.rows }
        ensures variables { self.new.variables ≡ self.old.variables }
        ensures limit { self.new.limit ≡ self.old.limit }
    {
        if row >= self.count {
            return false;
        }
        let width = self.variables + 1;
        let top = self.count * width;
        copy_tight_at(&mut self.cells, self.variables, row * width, top);
        self.count += 1;
        true
    }

    /// Takes a step: what it gives is put at the end. `false` where it may not be taken.
    pub fn step(&mut self, step: &Step) -> bool
        requires room { length self.old.rows < self.old.limit }
        ensures pushes { Pushes self.old.rows (step_gives self.old.rows step.now) result self.new.rows }
        ensures variables { self.new.variables ≡ self.old.variables }
        ensures limit { self.new.limit ≡ self.old.limit }
    {
        match *step {
            Step::Combine {
                left,
                left_times,
                right,
                right_times,
            } => self.push_combined(left, left_times, right, right_times),
            Step::Tighten { row } => self.push_tight(row),
        }
    }
}
