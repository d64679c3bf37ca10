// Rows joined to a stack, and steps taken on it.
ghost use Rattle.std.specs.Prelude.{◌≡◌, ◌+◌, ◌≤◌, length, take, if◌then◌else◌, Some, None};
ghost use Rattle.std.specs.List.{All};
ghost use Rattle.rx_linear.specs.Systems.{FitsSystem};
ghost use Rattle.rx_linear.specs.Joining.{joined};
ghost use Rattle.rx_linear.specs.Steps.{rows_after, closes};

use crate::{Row, RowStack, Step};

impl RowStack {
    /// Joins rows, each in turn.
    pub fn join_all(&mut self, rows: &[Row])
        requires room { length self.old.rows + length rows.now ≤ self.old.limit }
        requires fit { All (FitsSystem self.old.variables) rows.now }
        ensures { self.new ≡ record self.old { rows = joined self.old.rows rows.now } }
    {
        for row in rows {
            self.join(row);
        }
    }

    /// Takes steps until one may not be taken; whether all were taken.
    fn take_steps(&mut self, steps: &[Step]) -> bool
        requires { length self.old.rows + length steps.now ≤ self.old.limit }
        ensures value { rows_after self.old.rows steps.now ≡ (if result then Some self.new.rows else None) }
        ensures front { take (length self.old.rows) self.new.rows ≡ self.old.rows }
        ensures variables { self.new.variables ≡ self.old.variables }
        ensures limit { self.new.limit ≡ self.old.limit }
    {
        for step in steps {
            if !self.step(step) {
                return false;
            }
        }
        true
    }

    /// Whether the steps close the rows: the last row that they derive is false, or some row is where there is no step.
    pub fn closes(&mut self, steps: &[Step]) -> bool
        requires { length self.old.rows + length steps.now ≤ self.old.limit }
        ensures value { result ≡ closes self.old.rows steps.now }
        ensures kept { self.new ≡ self.old }
    {
        if steps.is_empty() {
            return self.has_false();
        }
        let count = self.len();
        let closed = self.take_steps(steps) && self.last_is_false();
        self.truncate(count);
        closed
    }
}
