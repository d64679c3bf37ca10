// Rows that are known to follow, and the steps that derive them.
ghost use Rattle.std.specs.Prelude.{◌≡◌, List, [], ◌∷◌, ◌++◌, ◌+◌, ◌<◌, ◌≤◌, ◌^◌, length, IfOk, OnOk, Some, ℤ, ℕ};
ghost use Rattle.std.specs.List.{Contains, list_any};
ghost use Rattle.rx_linear.specs.declared.row.Row.{Row};
ghost use Rattle.rx_linear.specs.Rows.{Wide, IsMultiplier, combined, tight};
ghost use Rattle.rx_linear.specs.Systems.{FitsSystem};
ghost use Rattle.rx_linear.specs.Joining.{is_true, same_row, joined};
ghost use Rattle.rx_shadow.specs.declared.known.Known.{Known};
ghost use Rattle.rx_shadow.specs.Known.{rows_of, AllFit};
ghost use Rattle.rx_shadow.specs.Derivations.{row_given, Derives, Reaches, Continues, HasRoom};

use crate::NoMemory;
use crate::marked::MarkedRow;
use crate::rows::{is_narrow, is_true, same_row};
use rx_linear::{Row, Step, combine, tightened};
use std::alloc::Global;

/// The greatest number of rows that an elimination may leave.
pub(crate) const ROW_LIMIT: usize = 1024;

/// A row with the number that it has among the given rows and the results of the steps.
#[derive(Debug, Drop)]
pub(crate) struct Known {
    pub(crate) row: MarkedRow,
    pub(crate) number: usize,
}

/// Known rows over the same variables, and the steps from the given rows that derive them.
#[derive(Debug, Drop)]
pub(crate) struct Derived {
    pub(crate) variables: usize,
    pub(crate) known: Vec<Known>,
    pub(crate) given: usize,
    pub(crate) steps: Vec<Step>,
}

/// Whether the row is among the known ones.
pub(crate) fn is_there(row: &Row, known: &[Known]) -> bool
    ensures { result ≡ list_any (same_row row.now) (rows_of known.now) }
{
    known.iter().any(|k| same_row(row, k.row.row()))
}

impl Derived {
    /// Takes one more step, and gives the number of the row that it derives.
    fn take_step(&mut self, step: Step) -> Result<usize, NoMemory>
        requires few_given { self.old.given < 2 ^ 60 }
        requires few_steps { length self.old.steps.items < 2 ^ 60 }
        ensures number { IfOk result (λ n. n ≡ self.old.given + length self.old.steps.items) }
        ensures steps { OnOk result (self.new.steps.items ≡ self.old.steps.items ++ step ∷ []) }
        ensures same { OnOk result ((self.new.known.items ≡ self.old.known.items) × (self.new.given ≡ self.old.given) × (self.new.variables ≡ self.old.variables)) }
    {
        let number = self.given + self.steps.len();
        self.steps.push(step)?;
        Ok(number)
    }

    /// Takes the step that derives a row and the one that makes it tight, and keeps the tight row.
    fn keep(&mut self, step: Step, last: Row) -> Result<(), NoMemory>
        requires few_given { self.old.given < 2 ^ 60 }
        requires few_steps { length self.old.steps.items + 2 < 2 ^ 60 }
        ensures kept { OnOk result (rows_of self.new.known.items ≡ rows_of self.old.known.items ++ last ∷ []) }
        ensures fits { OnOk result (AllFit self.old.variables self.old.known.items → FitsSystem self.old.variables last → AllFit self.new.variables self.new.known.items) }
        ensures counted { OnOk result (length self.new.steps.items ≡ length self.old.steps.items + 2) }
        ensures same { OnOk result ((self.new.given ≡ self.old.given) × (self.new.variables ≡ self.old.variables)) }
        ensures derived { OnOk result ((given : List Row) (others : List Known) (row : Row) → row_given given self.old.steps.items step ≡ Some row → tight row ≡ last → Derives given self.old others → Derives given self.new others) }
    {
        let derived = self.take_step(step)?;
        let number = self.take_step(Step::Tighten { row: derived })?;
        self.known.push(Known {
            row: MarkedRow::new(last),
            number,
        })?;
        Ok(())
    }

    /// Joins the row that the step derives: whether that keeps the limits.
    fn join(&mut self, step: Step, row: Row) -> Result<bool, NoMemory>
        requires room { HasRoom self.old }
        requires fits { AllFit self.old.variables self.old.known.items }
        requires length { length row.coefficients ≡ self.old.variables }
        requires wide { Wide row }
        ensures reached { IfOk result (λ within. Reaches within (joined (rows_of self.old.known.items) (row ∷ [])) (rows_of self.new.known.items)) }
        ensures continues { OnOk result (Continues self.old self.new) }
        ensures derived { OnOk result ((given : List Row) (others : List Known) → row_given given self.old.steps.items step ≡ Some row → Derives given self.old others → Derives given self.new others) }
    {
        let last = tightened(row);
        if is_true(&last) || is_there(&last, &self.known) {
            return Ok(true);
        }
        if self.known.len() >= ROW_LIMIT || !is_narrow(&last) {
            return Ok(false);
        }
        self.keep(step, last)?;
        Ok(true)
    }

    /// Joins the sum of two known rows, each times its multiplier: whether that keeps the limits.
    pub(crate) fn join_sum(
        &mut self,
        alloc: Global,
        left: &Known,
        left_times: i128,
        right: &Known,
        right_times: i128,
    ) -> Result<bool, NoMemory>
        requires room { HasRoom self.old }
        requires fits { AllFit self.old.variables self.old.known.items }
        requires left_fits { FitsSystem self.old.variables left.now.row }
        requires right_fits { FitsSystem self.old.variables right.now.row }
        requires left_multiplier { IsMultiplier left_times }
        requires right_multiplier { IsMultiplier right_times }
        ensures reached { IfOk result (λ within. Reaches within (joined (rows_of self.old.known.items) (combined left.now.row left_times right.now.row right_times ∷ [])) (rows_of self.new.known.items)) }
        ensures continues { OnOk result (Continues self.old self.new) }
        ensures derived { OnOk result ((given : List Row) (others : List Known) → Contains others left.now → Contains others right.now → Derives given self.old others → Derives given self.new others) }
    {
        let row = combine(
            alloc,
            left.row.row(),
            left_times,
            right.row.row(),
            right_times,
        )?;
        let step = Step::Combine {
            left: left.number,
            left_times,
            right: right.number,
            right_times,
        };
        self.join(step, row)
    }
}
