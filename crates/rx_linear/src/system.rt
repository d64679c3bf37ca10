// Rows over the same variables, within the limits.
ghost use Rattle.std.specs.Prelude.{◌≡◌, IsTrue, ◌↔◌};
ghost use Rattle.rx_linear.specs.Systems.{LinearSystem, IsWithinLimits, FitsSystem};

use crate::Row;
use crate::buffer::all_small;
use sqlite_items::Items;
use std::marker::Model;

/// At most 192 variables, and rows that each have as many coefficients, below 2^20, and a constant below 2^100 in magnitude.
#[derive(Debug, Drop)]
pub struct System {
    variables: usize,
    rows: Items<Row>,
}

/// Whether the row is over that many variables and within the limits.
pub fn fits(variables: usize, row: &Row) -> bool
    ensures { IsTrue result ↔ FitsSystem variables row.now }
{
    if row.coefficients.len() != variables {
        return false;
    }
    if !all_small(row.coefficients.as_slice()) {
        return false;
    }
    row.least.unsigned_abs() < 1 << 100
}

impl Model for System {
    ghost use Rattle.rx_linear.specs.Systems.{LinearSystem};

    ghost Value = { LinearSystem };

    ghost use Rattle.rx_linear.specs.Systems.{IsWithinLimits};

    ghost view = { λ s. record { variables = s.variables; rows = s.rows } };

    ghost invariant = { λ s. IsWithinLimits s.variables s.rows };
}

impl System {
    /// Whether the rows may form a system over that many variables.
    pub fn fits(variables: usize, rows: &[Row]) -> bool
        ensures { IsTrue result ↔ IsWithinLimits variables rows.now }
    {
        if variables > 192 {
            return false;
        }
        for row in rows {
            if !fits(variables, row) {
                return false;
            }
        }
        true
    }

    /// The rows as a system over that many variables.
    pub fn new(variables: usize, rows: Items<Row>) -> System
        requires { IsWithinLimits variables rows }
        ensures { result ≡ record { variables = variables; rows = rows } }
    {
        System { variables, rows }
    }

    /// How many variables there are.
    pub fn variables(&self) -> usize
        ensures value { result ≡ self.now.variables }
        ensures limits { IsWithinLimits self.now.variables self.now.rows }
    {
        self.variables
    }

    /// The rows, in their order.
    pub fn rows(&self) -> &[Row]
        ensures value { result.now ≡ self.now.rows }
        ensures limits { IsWithinLimits self.now.variables self.now.rows }
    {
        self.rows.as_slice()
    }
}
