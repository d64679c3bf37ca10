//! Facts that break goals, or fulfil them.

ghost use Rattle.std.specs.Prelude.{◌≡◌, [], ◌∷◌, ◌++◌, ◌≤◌, ◌^◌, ◌<ℤ◌, map, pos, negsuc, neg_ℤ, IfOk, OnOk};
ghost use Rattle.std.specs.Int.{int_div_euclid};
ghost use Rattle.rx_types.specs.Narrow.{IsShort};
ghost use Rattle.rx_forms.specs.declared.linear.Form.{Any};
ghost use Rattle.rx_forms.specs.Linear.{less_one, above, unequal, term};
ghost use Rattle.rx_forms.specs.Steps.{end_form};
ghost use Rattle.rx_forms.specs.Code.{formed_all};
ghost use Rattle.rx_layout.specs.QueryOf.{position_formula, no_multiple, grid_formula, overlay_formula, cover_formula, null_formula, unit_rows};

use rx_forms::{FieldForms, Form, FormFault, Linear, constant, copy, minus, term};
use rx_types::Interval;
use sqlite_items::Items;
use std::alloc::Global;

// The sum less 1.
fn less_one(form: Linear) -> Result<Linear, FormFault>
    ensures { IfOk result (λ f. f ≡ less_one form) }
{
    let Linear {
        coefficients,
        constant,
    } = form;
    match constant.checked_sub(1) {
        Some(constant) => Ok(Linear {
            coefficients,
            constant,
        }),
        None => Err(FormFault::PathLimit),
    }
}

// One sum is greater than another.
fn above(alloc: Global, left: &Linear, right: &Linear) -> Result<Form, FormFault>
    ensures { IfOk result (λ f. f ≡ above left.now right.now) }
{
    let difference = minus(alloc, left, right)?;
    let row = less_one(difference)?;
    Ok(Form::AtLeast(row))
}

// Two facts.
fn both(alloc: Global, one: Form, other: Form) -> Result<Items<Form>, FormFault>
    ensures { IfOk result (λ forms. forms ≡ one ∷ other ∷ []) }
{
    let mut forms = Items::new(alloc);
    forms.push(one)?;
    forms.push(other)?;
    Ok(forms)
}

// One of two facts.
fn either(alloc: Global, one: Form, other: Form) -> Result<Form, FormFault>
    ensures { IfOk result (λ f. f ≡ Any (one ∷ other ∷ [])) }
{
    let forms = both(alloc, one, other)?;
    Ok(Form::Any(forms))
}

// One sum is less or greater than another.
fn unequal(alloc: Global, left: &Linear, right: &Linear) -> Result<Form, FormFault>
    ensures { IfOk result (λ f. f ≡ unequal left.now right.now) }
{
    let less = above(alloc, right, left)?;
    let greater = above(alloc, left, right)?;
    either(alloc, less, greater)
}

/// First or Size is below 0.
pub fn position_formula(alloc: Global, first: &Linear, size: &Linear) -> Result<Form, FormFault>
    ensures { IfOk result (λ f. f ≡ position_formula first.now size.now) }
{
    let zero = constant(alloc, 0);
    let early = above(alloc, &zero, first)?;
    let short = above(alloc, &zero, size)?;
    either(alloc, early, short)
}

/// A sum is from 1 to 7 more than 8 times a variable.
pub fn no_multiple(alloc: Global, form: &Linear, quotient: usize) -> Result<Form, FormFault>
    ensures { IfOk result (λ f. f ≡ no_multiple form.now quotient) }
{
    let least = term(alloc, 8, quotient, 1)?;
    let low = minus(alloc, form, &least)?;
    let most = term(alloc, 8, quotient, 7)?;
    let high = minus(alloc, &most, form)?;
    let forms = both(alloc, Form::AtLeast(low), Form::AtLeast(high))?;
    Ok(Form::All(forms))
}

/// First or Size is no multiple of 8.
pub fn grid_formula(
    alloc: Global,
    first: &Linear,
    size: &Linear,
    quotient: usize,
) -> Result<Form, FormFault>
    requires few { quotient ≤ 190 }
    ensures { IfOk result (λ f. f ≡ grid_formula first.now size.now quotient) }
{
    let first = no_multiple(alloc, first, quotient)?;
    let size = no_multiple(alloc, size, quotient + 1)?;
    either(alloc, first, size)
}

/// Size is less or greater than that of the field below.
pub fn overlay_formula(alloc: Global, size: &Linear, below: &Linear) -> Result<Form, FormFault>
    ensures { IfOk result (λ f. f ≡ overlay_formula size.now below.now) }
{
    unequal(alloc, size, below)
}

// Each of some fields ends after a place.
fn ends_after(
    alloc: Global,
    fields: &[FieldForms],
    place: &Linear,
) -> Result<Items<Form>, FormFault>
    ensures { IfOk result (λ forms. forms ≡ map (λ f. above f.end place.now) (formed_all fields.now)) }
{
    let mut forms = Items::new(alloc);
    for field in fields {
        let form = above(alloc, &field.end, place)?;
        forms.push(form)?;
    }
    Ok(forms)
}

// Each of some fields ends before a place.
fn ends_before(
    alloc: Global,
    fields: &[FieldForms],
    place: &Linear,
) -> Result<Items<Form>, FormFault>
    ensures { IfOk result (λ forms. forms ≡ map (λ f. above place.now f.end) (formed_all fields.now)) }
{
    let mut forms = Items::new(alloc);
    for field in fields {
        let form = above(alloc, place, &field.end)?;
        forms.push(form)?;
    }
    Ok(forms)
}

/// An earlier field ends after First, or all of them end before; without earlier fields First is less or greater than 0.
pub fn cover_formula(
    alloc: Global,
    fields: &[FieldForms],
    first: &Linear,
) -> Result<Form, FormFault>
    ensures { IfOk result (λ f. f ≡ cover_formula (formed_all fields.now) first.now) }
{
    match fields {
        [] => unequal(alloc, first, &constant(alloc, 0)),
        _ => {
            let mut branches = ends_after(alloc, fields, first)?;
            let before = ends_before(alloc, fields, first)?;
            branches.push(Form::All(before))?;
            Ok(Form::Any(branches))
        }
    }
}

/// The end of the last field, 0 where there is none.
pub fn last_end(alloc: Global, fields: &[FieldForms]) -> Result<Linear, FormFault>
    ensures { IfOk result (λ f. f ≡ end_form (formed_all fields.now)) }
{
    match fields.last() {
        Some(last) => Ok(copy(alloc, &last.end)?),
        None => Ok(constant(alloc, 0)),
    }
}

/// A field before the last one ends after it.
pub fn null_formula(alloc: Global, fields: &[FieldForms]) -> Result<Form, FormFault>
    ensures { IfOk result (λ f. f ≡ null_formula (formed_all fields.now)) }
{
    match fields {
        [before @ .., last] => Ok(Form::Any(ends_after(alloc, before, &last.end)?)),
        [] => Ok(Form::Any(Items::new(alloc))),
    }
}

// A variable is at least the quotient by 8 of the lower end of an interval.
fn push_least(
    alloc: Global,
    quotient: usize,
    low: &i128,
    rows: &mut Items<Linear>,
) -> Result<(), FormFault>
    requires above { neg_ℤ (pos (2 ^ 100)) <ℤ low.now }
    requires below { low.now <ℤ pos (2 ^ 100) }
    ensures { OnOk result (rows.new ≡ rows.old ++ term (pos 1) quotient (neg_ℤ (int_div_euclid low.now (pos 8))) ∷ []) }
{
    let row = term(alloc, 1, quotient, -low.div_euclid(8))?;
    rows.push(row)?;
    Ok(())
}

// A variable is at most the quotient by 8 of the upper end of an interval.
fn push_greatest(
    alloc: Global,
    quotient: usize,
    high: &i128,
    rows: &mut Items<Linear>,
) -> Result<(), FormFault>
    ensures { OnOk result (rows.new ≡ rows.old ++ term (negsuc 0) quotient (int_div_euclid high.now (pos 8)) ∷ []) }
{
    let row = term(alloc, -1, quotient, high.div_euclid(8))?;
    rows.push(row)?;
    Ok(())
}

/// Adds that a variable lies between the quotients by 8 of the ends of an interval.
pub fn push_units(
    alloc: Global,
    quotient: usize,
    interval: &Interval,
    rows: &mut Items<Linear>,
) -> Result<(), FormFault>
    requires short { IsShort interval.now }
    ensures { OnOk result (rows.new ≡ rows.old ++ unit_rows quotient interval.now) }
{
    push_least(alloc, quotient, &interval.low, rows)?;
    push_greatest(alloc, quotient, &interval.high, rows)
}
