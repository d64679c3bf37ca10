//! The rows of a division, which leave its quotient no choice.

ghost use Rattle.std.specs.Prelude.{◌≡◌, ◌+◌, ◌^◌, ◌++◌, ◌∷◌, [], pos, negsuc, neg_ℤ, ◌-ℤ◌, ◌<ℤ◌, ◌&&◌, nat_le, true, false, IfOk, IfErr, OnOk};
ghost use Rattle.std.specs.Int.{int_div_euclid};
ghost use Rattle.rx_types.specs.Narrow.{IsShort};
ghost use Rattle.rx_forms.specs.Linear.{term, minus};
ghost use Rattle.rx_forms.specs.Divisions.{division_rows};
ghost use Rattle.rx_forms.specs.Limits.{has_words, all_kept, divided};

use crate::arithmetic::{minus, term};
use crate::fault::FormFault;
use crate::limit::{VARIABLES, keep_low};
use crate::linear::Linear;
use crate::work::Work;
use rx_types::Interval;
use sqlite_items::Items;
use std::alloc::{AllocError, Global};

// What is divided less the divisor's multiple of the quotient.
fn push_lower(
    alloc: Global,
    rows: &mut Items<Linear>,
    form: &Linear,
    divisor: &i128,
    quotient: usize,
) -> Result<(), FormFault>
    ensures pushed { OnOk result (rows.new ≡ rows.old ++ minus form.now (term divisor.now quotient (pos 0)) ∷ []) }
    ensures words { OnOk result (has_words (minus form.now (term divisor.now quotient (pos 0))) ≡ true) }
    ensures limit { IfErr result (λ e. e ≡ FormFault.PathLimit → has_words (minus form.now (term divisor.now quotient (pos 0))) ≡ false) }
{
    let row = lower_row(alloc, form, divisor, quotient)?;
    rows.push(row)?;
    Ok(())
}

fn lower_row(
    alloc: Global,
    form: &Linear,
    divisor: &i128,
    quotient: usize,
) -> Result<Linear, FormFault>
    ensures value { IfOk result (λ f. f ≡ minus form.now (term divisor.now quotient (pos 0))) }
    ensures words { OnOk result (has_words (minus form.now (term divisor.now quotient (pos 0))) ≡ true) }
    ensures limit { IfErr result (λ e. e ≡ FormFault.PathLimit → has_words (minus form.now (term divisor.now quotient (pos 0))) ≡ false) }
{
    let product = term(alloc, *divisor, quotient, 0)?;
    minus(alloc, form, &product)
}

// The next multiple of the divisor less 1, less what is divided.
fn push_upper(
    alloc: Global,
    rows: &mut Items<Linear>,
    form: &Linear,
    divisor: &i128,
    quotient: usize,
) -> Result<(), FormFault>
    requires positive { pos 0 <ℤ divisor.now }
    ensures pushed { OnOk result (rows.new ≡ rows.old ++ minus (term divisor.now quotient (divisor.now -ℤ pos 1)) form.now ∷ []) }
    ensures words { OnOk result (has_words (minus (term divisor.now quotient (divisor.now -ℤ pos 1)) form.now) ≡ true) }
    ensures limit { IfErr result (λ e. e ≡ FormFault.PathLimit → has_words (minus (term divisor.now quotient (divisor.now -ℤ pos 1)) form.now) ≡ false) }
{
    let row = upper_row(alloc, form, divisor, quotient)?;
    rows.push(row)?;
    Ok(())
}

fn upper_row(
    alloc: Global,
    form: &Linear,
    divisor: &i128,
    quotient: usize,
) -> Result<Linear, FormFault>
    requires positive { pos 0 <ℤ divisor.now }
    ensures value { IfOk result (λ f. f ≡ minus (term divisor.now quotient (divisor.now -ℤ pos 1)) form.now) }
    ensures words { OnOk result (has_words (minus (term divisor.now quotient (divisor.now -ℤ pos 1)) form.now) ≡ true) }
    ensures limit { IfErr result (λ e. e ≡ FormFault.PathLimit → has_words (minus (term divisor.now quotient (divisor.now -ℤ pos 1)) form.now) ≡ false) }
{
    let product = term(alloc, *divisor, quotient, *divisor - 1)?;
    minus(alloc, &product, form)
}

// The quotient is at least that of the lower end of an interval.
fn push_least(
    alloc: Global,
    rows: &mut Items<Linear>,
    low: &i128,
    divisor: &i128,
    quotient: usize,
) -> Result<(), AllocError>
    requires positive { pos 0 <ℤ divisor.now }
    requires above { neg_ℤ (pos (2 ^ 100)) <ℤ low.now }
    requires below { low.now <ℤ pos (2 ^ 100) }
    ensures { OnOk result (rows.new ≡ rows.old ++ term (pos 1) quotient (neg_ℤ (int_div_euclid low.now divisor.now)) ∷ []) }
{
    let row = term(alloc, 1, quotient, -low.div_euclid(*divisor))?;
    rows.push(row)
}

// The quotient is at most that of the upper end of an interval.
fn push_greatest(
    alloc: Global,
    rows: &mut Items<Linear>,
    high: &i128,
    divisor: &i128,
    quotient: usize,
) -> Result<(), AllocError>
    requires positive { pos 0 <ℤ divisor.now }
    ensures { OnOk result (rows.new ≡ rows.old ++ term (negsuc 0) quotient (int_div_euclid high.now divisor.now) ∷ []) }
{
    let row = term(alloc, -1, quotient, high.div_euclid(*divisor))?;
    rows.push(row)
}

// The two rows of what is divided.
fn push_sum_rows(
    alloc: Global,
    rows: &mut Items<Linear>,
    form: &Linear,
    divisor: &i128,
    quotient: usize,
) -> Result<(), FormFault>
    requires positive { pos 0 <ℤ divisor.now }
    ensures pushed { OnOk result (rows.new ≡ rows.old ++ minus form.now (term divisor.now quotient (pos 0)) ∷ minus (term divisor.now quotient (divisor.now -ℤ pos 1)) form.now ∷ []) }
    ensures words { OnOk result (has_words (minus form.now (term divisor.now quotient (pos 0))) && has_words (minus (term divisor.now quotient (divisor.now -ℤ pos 1)) form.now) ≡ true) }
    ensures limit { IfErr result (λ e. e ≡ FormFault.PathLimit → has_words (minus form.now (term divisor.now quotient (pos 0))) && has_words (minus (term divisor.now quotient (divisor.now -ℤ pos 1)) form.now) ≡ false) }
{
    push_lower(alloc, rows, form, divisor, quotient)?;
    push_upper(alloc, rows, form, divisor, quotient)
}

// The two rows of an interval.
fn push_unit_rows(
    alloc: Global,
    rows: &mut Items<Linear>,
    interval: &Interval,
    divisor: &i128,
    quotient: usize,
) -> Result<(), AllocError>
    requires positive { pos 0 <ℤ divisor.now }
    requires short { IsShort interval.now }
    ensures { OnOk result (rows.new ≡ rows.old ++ term (pos 1) quotient (neg_ℤ (int_div_euclid interval.now.low divisor.now)) ∷ term (negsuc 0) quotient (int_div_euclid interval.now.high divisor.now) ∷ []) }
{
    push_least(alloc, rows, &interval.low, divisor, quotient)?;
    push_greatest(alloc, rows, &interval.high, divisor, quotient)
}

// All rows of a division.
fn push_rows(
    alloc: Global,
    rows: &mut Items<Linear>,
    form: &Linear,
    divisor: &i128,
    interval: &Interval,
    quotient: usize,
) -> Result<(), FormFault>
    requires positive { pos 0 <ℤ divisor.now }
    requires short { IsShort interval.now }
    ensures pushed { OnOk result (rows.new ≡ rows.old ++ division_rows quotient form.now divisor.now interval.now) }
    ensures words { OnOk result (has_words (minus form.now (term divisor.now quotient (pos 0))) && has_words (minus (term divisor.now quotient (divisor.now -ℤ pos 1)) form.now) ≡ true) }
    ensures limit { IfErr result (λ e. e ≡ FormFault.PathLimit → has_words (minus form.now (term divisor.now quotient (pos 0))) && has_words (minus (term divisor.now quotient (divisor.now -ℤ pos 1)) form.now) ≡ false) }
{
    push_sum_rows(alloc, rows, form, divisor, quotient)?;
    push_unit_rows(alloc, rows, interval, divisor, quotient)?;
    Ok(())
}

// All rows of a division of a sum that has to be low.
fn push_low_rows(
    alloc: Global,
    rows: &mut Items<Linear>,
    form: &Linear,
    divisor: &i128,
    interval: &Interval,
    quotient: usize,
) -> Result<(), FormFault>
    requires positive { pos 0 <ℤ divisor.now }
    requires short { IsShort interval.now }
    ensures pushed { OnOk result (rows.new ≡ rows.old ++ division_rows quotient form.now divisor.now interval.now) }
    ensures kept { OnOk result (all_kept (divided quotient form.now divisor.now) ≡ true) }
    ensures limit { IfErr result (λ e. e ≡ FormFault.PathLimit → all_kept (divided quotient form.now divisor.now) ≡ false) }
{
    keep_low(form)?;
    push_rows(alloc, rows, form, divisor, interval, quotient)
}

// A variable more, if there are not too many.
fn take_variable(next: &mut usize) -> Result<usize, FormFault>
    ensures variable { IfOk result (λ v. v ≡ next.old) }
    ensures next { OnOk result (next.new ≡ next.old + 1) }
    ensures few { OnOk result (nat_le (next.old + 1) 190 ≡ true) }
    ensures limit { IfErr result (λ e. nat_le (next.old + 1) 190 ≡ false) }
{
    let variable = *next;
    if variable >= VARIABLES {
        return Err(FormFault::PathLimit);
    }
    *next += 1;
    Ok(variable)
}

/// The variable of the quotient of a sum by a divisor, which is the next one. Its rows are added to those before.
pub fn divide(
    alloc: Global,
    form: &Linear,
    divisor: &i128,
    interval: &Interval,
    work: &mut Work,
) -> Result<usize, FormFault>
    requires positive { pos 0 <ℤ divisor.now }
    requires short { IsShort interval.now }
    ensures variable { IfOk result (λ v. v ≡ work.old.next) }
    ensures next { OnOk result (work.new.next ≡ work.old.next + 1) }
    ensures pushed { OnOk result (work.new.rows ≡ work.old.rows ++ division_rows work.old.next form.now divisor.now interval.now) }
    ensures kept { OnOk result (nat_le (work.old.next + 1) 190 && all_kept (divided work.old.next form.now divisor.now) ≡ true) }
    ensures limit { IfErr result (λ e. e ≡ FormFault.PathLimit → nat_le (work.old.next + 1) 190 && all_kept (divided work.old.next form.now divisor.now) ≡ false) }
{
    let variable = take_variable(&mut work.next)?;
    push_low_rows(alloc, &mut work.rows, form, divisor, interval, variable)?;
    Ok(variable)
}
