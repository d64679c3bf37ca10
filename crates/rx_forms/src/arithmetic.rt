//! Sums of linear forms, place by place, in numbers of 128 bits.

ghost use Rattle.std.specs.Prelude.{◌≡◌, [], ◌∷◌, ◌++◌, get_or, pos, ◌+ℤ◌, ◌*ℤ◌, IfOk, IfErr, IfSome, OnOk, None, true, false};
ghost use Rattle.std.specs.List.{list_all};
ghost use Rattle.rx_model.specs.Sums.{weighted_sum};
ghost use Rattle.rx_forms.specs.Linear.{constant, term, weighted, plus, minus, times, less_one};
ghost use Rattle.rx_forms.specs.Limits.{is_word, is_low, has_words};
ghost use Rattle.rx_forms.specs.Code.{sign};

use crate::fault::FormFault;
use crate::linear::Linear;
use sqlite_items::Items;
use std::alloc::{AllocError, Global};

/// A number alone.
pub fn constant(alloc: Global, number: i128) -> Linear
    ensures { result ≡ constant number }
{
    Linear {
        coefficients: Items::new(alloc),
        constant: number,
    }
}

/// A multiple of one variable, plus a number.
pub fn term(
    alloc: Global,
    times: i128,
    variable: usize,
    constant: i128,
) -> Result<Linear, AllocError>
    ensures { IfOk result (λ f. f ≡ term times variable constant) }
{
    let mut coefficients = Vec::new(alloc);
    coefficients.resize(variable, 0)?;
    coefficients.push(times)?;
    Ok(Linear {
        coefficients: Items::from_vec(coefficients),
        constant,
    })
}

/// The same sum once more.
pub fn copy(alloc: Global, form: &Linear) -> Result<Linear, AllocError>
    ensures { IfOk result (λ f. f ≡ form.now) }
{
    let coefficients = Items::from_slice(alloc, form.coefficients.as_slice())?;
    Ok(Linear {
        coefficients,
        constant: form.constant,
    })
}

/// The coefficient at a place, 0 behind the last one.
fn number_at(numbers: &[i128], place: usize) -> i128
    ensures { result ≡ get_or numbers.now place (pos 0) }
{
    match numbers.get(place) {
        Some(number) => *number,
        None => 0,
    }
}

// The sum or the difference of two numbers, if it has 128 bits.
fn added(left: i128, right: i128, less: bool) -> Option<i128>
    ensures value { IfSome result (λ z. z ≡ pos 1 *ℤ left +ℤ sign less *ℤ right) }
    ensures word { IfSome result (λ z. is_word (pos 1 *ℤ left +ℤ sign less *ℤ right) ≡ true) }
    ensures none { result ≡ None → is_word (pos 1 *ℤ left +ℤ sign less *ℤ right) ≡ false }
{
    if less {
        left.checked_sub(right)
    } else {
        left.checked_add(right)
    }
}

// A number times another, if it has 128 bits.
fn multiplied(times: i128, number: i128) -> Option<i128>
    ensures value { IfSome result (λ z. z ≡ times *ℤ number) }
    ensures word { IfSome result (λ z. is_word (times *ℤ number) ≡ true) }
    ensures none { result ≡ None → is_word (times *ℤ number) ≡ false }
{
    times.checked_mul(number)
}

// Adds the sum or the difference of two coefficients at a place to the end.
fn push_sum(
    numbers: &mut Vec<i128>,
    left: &[i128],
    right: &[i128],
    place: usize,
    less: bool,
) -> Result<(), FormFault>
    ensures pushed { OnOk result (numbers.new.items ≡ numbers.old.items ++ (pos 1 *ℤ get_or left.now place (pos 0) +ℤ sign less *ℤ get_or right.now place (pos 0)) ∷ []) }
    ensures word { OnOk result (is_word (pos 1 *ℤ get_or left.now place (pos 0) +ℤ sign less *ℤ get_or right.now place (pos 0)) ≡ true) }
    ensures limit { IfErr result (λ e. e ≡ FormFault.PathLimit → is_word (pos 1 *ℤ get_or left.now place (pos 0) +ℤ sign less *ℤ get_or right.now place (pos 0)) ≡ false) }
{
    match added(number_at(left, place), number_at(right, place), less) {
        Some(number) => Ok(numbers.push(number)?),
        None => Err(FormFault::PathLimit),
    }
}

// Adds a multiple of the coefficient at a place to the end.
fn push_product(
    products: &mut Vec<i128>,
    times: &i128,
    numbers: &[i128],
    place: usize,
) -> Result<(), FormFault>
    ensures pushed { OnOk result (products.new.items ≡ products.old.items ++ (times.now *ℤ get_or numbers.now place (pos 0)) ∷ []) }
    ensures word { OnOk result (is_word (times.now *ℤ get_or numbers.now place (pos 0)) ≡ true) }
    ensures limit { IfErr result (λ e. e ≡ FormFault.PathLimit → is_word (times.now *ℤ get_or numbers.now place (pos 0)) ≡ false) }
{
    match multiplied(*times, number_at(numbers, place)) {
        Some(product) => Ok(products.push(product)?),
        None => Err(FormFault::PathLimit),
    }
}

// The sums of two runs of coefficients, or their differences, as long as the longer one.
fn side_by_side(
    alloc: Global,
    left: &[i128],
    right: &[i128],
    less: bool,
) -> Result<Items<i128>, FormFault>
    ensures value { IfOk result (λ cs. cs ≡ weighted_sum left.now (pos 1) right.now (sign less)) }
    ensures words { OnOk result (list_all is_word (weighted_sum left.now (pos 1) right.now (sign less)) ≡ true) }
    ensures limit { IfErr result (λ e. e ≡ FormFault.PathLimit → list_all is_word (weighted_sum left.now (pos 1) right.now (sign less)) ≡ false) }
{
    let width = left.len().max(right.len());
    let mut numbers = Vec::with_capacity(alloc, width)?;
    for place in 0..width {
        push_sum(&mut numbers, left, right, place, less)?;
    }
    Ok(Items::from_vec(numbers))
}

// Each number times a number.
fn each_times(alloc: Global, times: &i128, numbers: &[i128]) -> Result<Items<i128>, FormFault>
    ensures value { IfOk result (λ cs. cs ≡ weighted_sum numbers.now times.now [] (pos 1)) }
    ensures words { OnOk result (list_all is_word (weighted_sum numbers.now times.now [] (pos 1)) ≡ true) }
    ensures limit { IfErr result (λ e. e ≡ FormFault.PathLimit → list_all is_word (weighted_sum numbers.now times.now [] (pos 1)) ≡ false) }
{
    let mut products = Vec::with_capacity(alloc, numbers.len())?;
    for place in 0..numbers.len() {
        push_product(&mut products, times, numbers, place)?;
    }
    Ok(Items::from_vec(products))
}

// A sum of two, or their difference.
fn joined(alloc: Global, left: &Linear, right: &Linear, less: bool) -> Result<Linear, FormFault>
    ensures value { IfOk result (λ f. f ≡ weighted left.now (pos 1) right.now (sign less)) }
    ensures words { OnOk result (has_words (weighted left.now (pos 1) right.now (sign less)) ≡ true) }
    ensures limit { IfErr result (λ e. e ≡ FormFault.PathLimit → has_words (weighted left.now (pos 1) right.now (sign less)) ≡ false) }
{
    let Some(constant) = added(left.constant, right.constant, less) else {
        return Err(FormFault::PathLimit);
    };
    let coefficients = side_by_side(
        alloc,
        left.coefficients.as_slice(),
        right.coefficients.as_slice(),
        less,
    )?;
    Ok(Linear {
        coefficients,
        constant,
    })
}

/// The sum of two, if its numbers have 128 bits.
pub fn plus(alloc: Global, left: &Linear, right: &Linear) -> Result<Linear, FormFault>
    ensures value { IfOk result (λ f. f ≡ plus left.now right.now) }
    ensures words { OnOk result (has_words (plus left.now right.now) ≡ true) }
    ensures limit { IfErr result (λ e. e ≡ FormFault.PathLimit → has_words (plus left.now right.now) ≡ false) }
{
    joined(alloc, left, right, false)
}

/// The difference of two, if its numbers have 128 bits.
pub fn minus(alloc: Global, left: &Linear, right: &Linear) -> Result<Linear, FormFault>
    ensures value { IfOk result (λ f. f ≡ minus left.now right.now) }
    ensures words { OnOk result (has_words (minus left.now right.now) ≡ true) }
    ensures limit { IfErr result (λ e. e ≡ FormFault.PathLimit → has_words (minus left.now right.now) ≡ false) }
{
    joined(alloc, left, right, true)
}

/// A multiple, if its numbers have 128 bits.
pub fn scaled(alloc: Global, factor: i128, form: &Linear) -> Result<Linear, FormFault>
    ensures value { IfOk result (λ f. f ≡ times factor form.now) }
    ensures words { OnOk result (has_words (times factor form.now) ≡ true) }
    ensures limit { IfErr result (λ e. e ≡ FormFault.PathLimit → has_words (times factor form.now) ≡ false) }
{
    let Some(constant) = multiplied(factor, form.constant) else {
        return Err(FormFault::PathLimit);
    };
    let coefficients = each_times(alloc, &factor, form.coefficients.as_slice())?;
    Ok(Linear {
        coefficients,
        constant,
    })
}

/// The sum less 1.
pub fn one_less(form: Linear) -> Linear
    requires low { is_low form ≡ true }
    ensures { result ≡ less_one form }
{
    Linear {
        coefficients: form.coefficients,
        constant: form.constant - 1,
    }
}
