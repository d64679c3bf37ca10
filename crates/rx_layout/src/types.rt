//! Facts that say that a variable has a number of a scalar type.

ghost use Rattle.std.specs.Prelude.{◌≡◌, ◌++◌, ◌∷◌, ◌+◌, ◌-◌, ◌^◌, ◌<◌, ◌≤◌, ◌==◌, ℕ, List, map, length, true, false, IfOk, OnOk};
ghost use Rattle.rx_types.specs.Domain.{domain_of, numbers_of, size_of};
ghost use Rattle.rx_forms.specs.declared.linear.Form.{All, Any};
ghost use Rattle.rx_layout.specs.Types.{between, placed_in, ascending, last_of, has_gaps, one_of_numbers, numbers_form, type_form};

use rx_forms::{Form, FormFault, term};
use rx_types::{Literal, ScalarType};
use sqlite_items::Items;
use std::alloc::Global;

/// Adds that a variable lies from one number to another.
pub fn push_between(
    alloc: Global,
    low: u64,
    high: u64,
    variable: usize,
    forms: &mut Items<Form>,
) -> Result<(), FormFault>
    ensures { OnOk result (forms.new ≡ forms.old ++ between low high variable) }
{
    let least = term(alloc, 1, variable, -(low as i128))?;
    forms.push(Form::AtLeast(least))?;
    let greatest = term(alloc, -1, variable, high as i128)?;
    forms.push(Form::AtLeast(greatest))?;
    Ok(())
}

/// A variable lies from one number to another.
pub fn between(alloc: Global, low: u64, high: u64, variable: usize) -> Result<Form, FormFault>
    ensures { IfOk result (λ f. f ≡ All (between low high variable)) }
{
    let mut forms = Items::new(alloc);
    push_between(alloc, low, high, variable, &mut forms)?;
    Ok(Form::All(forms))
}

// ---- numbers in ascending order

// Puts a number in its place among numbers that ascend, unless it stands there.
fn place_number(numbers: &mut Vec<u64>, number: u64) -> Result<(), FormFault>
    ensures { OnOk result (numbers.new.items ≡ placed_in number numbers.old.items) }
{
    for place in 0..numbers.len() {
        if number == numbers[place] {
            return Ok(());
        }
        if number < numbers[place] {
            numbers.insert(place, number)?;
            return Ok(());
        }
    }
    numbers.push(number)?;
    Ok(())
}

// The numbers of literals in ascending order, each once.
fn ascending(alloc: Global, literals: &[Literal]) -> Result<Vec<u64>, FormFault>
    ensures { IfOk result (λ numbers. numbers.items ≡ ascending (numbers_of literals.now)) }
{
    let mut numbers = Vec::new(alloc);
    for behind in 0..literals.len() {
        let place = literals.len() - 1 - behind;
        place_number(&mut numbers, literals[place].number)?;
    }
    Ok(numbers)
}

// Whether a number is the next one.
fn follows(before: u64, number: u64) -> bool
    ensures { result ≡ (number == before + 1) }
{
    number > before && number - before == 1
}

// Whether a number is left out between two neighbours.
fn has_gaps(numbers: &[u64]) -> bool
    ensures { result ≡ has_gaps numbers.now }
{
    for place in 1..numbers.len() {
        if !follows(numbers[place - 1], numbers[place]) {
            return true;
        }
    }
    false
}

// The last of some numbers, the one before them where there is none.
fn last_of(before: u64, numbers: &[u64]) -> u64
    ensures { result ≡ last_of before numbers.now }
{
    let mut last = before;
    for number in numbers {
        last = *number;
    }
    last
}

// A variable is one of some numbers.
fn one_of(alloc: Global, numbers: &[u64], variable: usize) -> Result<Form, FormFault>
    ensures { IfOk result (λ f. f ≡ Any (map (λ n. All (between n n variable)) numbers.now)) }
{
    let mut forms = Items::new(alloc);
    for number in numbers {
        forms.push(between(alloc, *number, *number, variable)?)?;
    }
    Ok(Form::Any(forms))
}

// Adds that a variable is one of some numbers, where there are gaps.
fn push_gaps(
    alloc: Global,
    numbers: &[u64],
    variable: usize,
    forms: &mut Items<Form>,
) -> Result<(), FormFault>
    ensures { OnOk result (forms.new ≡ forms.old ++ one_of_numbers (has_gaps numbers.now) numbers.now variable) }
{
    if has_gaps(numbers) {
        forms.push(one_of(alloc, numbers, variable)?)?;
    }
    Ok(())
}

// A variable is one of some numbers that ascend.
fn numbers_form(alloc: Global, numbers: &[u64], variable: usize) -> Result<Form, FormFault>
    ensures { IfOk result (λ f. f ≡ numbers_form numbers.now variable) }
{
    let mut forms = Items::new(alloc);
    match numbers {
        [] => Ok(Form::Any(forms)),
        [first, others @ ..] => {
            push_between(alloc, *first, last_of(*first, others), variable, &mut forms)?;
            push_gaps(alloc, numbers, variable, &mut forms)?;
            Ok(Form::All(forms))
        }
    }
}

// The greatest number of a size.
fn all_ones(size: u8) -> u64
    requires { size < 64 }
    ensures { result ≡ 2 ^ size - 1 }
{
    (1 << size) - 1
}

/// A variable has a number of a type.
pub fn type_form(alloc: Global, scalar: &ScalarType, variable: usize) -> Result<Form, FormFault>
    requires { size_of (domain_of scalar.now) < 64 }
    ensures { IfOk result (λ f. f ≡ type_form (domain_of scalar.now) variable) }
{
    match scalar {
        ScalarType::Integer { first, last, .. } => between(alloc, *first, *last, variable),
        ScalarType::Enumeration {
            literals,
            size,
            always_valid,
        } => {
            if *always_valid {
                between(alloc, 0, all_ones(*size), variable)
            } else {
                let numbers = ascending(alloc, literals.as_slice())?;
                numbers_form(alloc, numbers.as_slice(), variable)
            }
        }
    }
}
