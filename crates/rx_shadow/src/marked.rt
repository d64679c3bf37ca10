// Rows that know their only variable, if they have one alone.
ghost use Rattle.std.specs.Prelude.{◌≡◌, ◌≢◌, ◌<◌, length, pos, true, false, take, ◌==◌, ◌&&◌};
ghost use Rattle.std.specs.List.{list_all};
ghost use Rattle.std.specs.Ordering.{int_eq};
ghost use Rattle.rx_linear.specs.declared.row.Row.{Row};
ghost use Rattle.rx_linear.specs.Units.{coefficient, is_unit_row};
ghost use Rattle.rx_shadow.specs.Marked.{Tells};

use crate::rows::{has_coefficient, is_zero_elsewhere};
use rx_linear::Row;
use std::marker::Model;

/// The one variable of a row, and its coefficient.
#[derive(Clone, Copy, Debug)]
struct Alone {
    variable: usize,
    coefficient: i128,
}

/// A row that knows its only variable, where it has one alone: so unit rows are found without a look at all coefficients.
#[derive(Debug, Drop)]
pub(crate) struct MarkedRow {
    row: Row,
    alone: Option<Alone>,
}

impl Model for MarkedRow {
    ghost use Rattle.rx_linear.specs.declared.row.Row.{Row};
    ghost use Rattle.rx_shadow.specs.Marked.{Tells};

    ghost Value = { Row };

    ghost view = { λ s. s.row };

    ghost invariant = { λ s. Tells s.alone s.row };
}

// The variable, where no other one has a coefficient behind it.
fn alone_at(row: &Row, variable: usize) -> Option<Alone>
    requires within { variable < length row.now.coefficients }
    requires front { list_all (λ c. int_eq c (pos 0)) (take variable row.now.coefficients) ≡ true }
    requires some { int_eq (coefficient variable row.now) (pos 0) ≡ false }
    ensures { Tells result row.now }
{
    let coefficients = row.coefficients.as_slice();
    if is_zero_elsewhere(coefficients, variable) {
        Some(Alone {
            variable,
            coefficient: coefficients[variable],
        })
    } else {
        None
    }
}

// The only variable of a row.
fn alone_in(row: &Row) -> Option<Alone>
    ensures { Tells result row.now }
{
    for variable in 0..row.coefficients.len() {
        if !has_coefficient(row, variable, &0) {
            return alone_at(row, variable);
        }
    }
    None
}

impl Alone {
    fn is(&self, variable: usize, coefficient: &i128) -> bool
        ensures { result ≡ (self.now.variable == variable && int_eq self.now.coefficient coefficient.now) }
    {
        self.variable == variable && self.coefficient == *coefficient
    }
}

impl MarkedRow {
    /// The row, marked.
    pub(crate) fn new(row: Row) -> MarkedRow
        ensures { result ≡ row }
    {
        let alone = alone_in(&row);
        MarkedRow { row, alone }
    }

    /// The row alone.
    pub(crate) fn row(&self) -> &Row
        ensures { result.now ≡ self.now }
    {
        &self.row
    }

    /// Whether the row has that coefficient of the variable, and no other one.
    pub(crate) fn is_unit(&self, variable: usize, coefficient: &i128) -> bool
        requires within { variable < length self.now.coefficients }
        requires some { coefficient.now ≢ pos 0 }
        ensures { result ≡ is_unit_row variable coefficient.now self.now }
    {
        match &self.alone {
            Some(alone) => alone.is(variable, coefficient),
            None => false,
        }
    }
}
