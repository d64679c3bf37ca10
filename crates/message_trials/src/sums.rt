//! The forms of paths, worked out at points.
use crate::worked::{TLV, message_of, paths_of, spec_of};
use rx_forms::{Linear, forms_of};
use std::test::Fail;

// A byte, and half as many bytes.
const HALF: &[u8] =
    b"package Half is type U is unsigned 8; type M is message A : U; B : Opaque with Size => A / 2 * 8; end message; end Half;";

// The number of a sum at a point, where it has one of 128 bits.
fn at(form: &Linear, point: &[i128]) -> Option<i128> {
    let mut sum = form.constant;
    for (index, coefficient) in form.coefficients.as_slice().iter().enumerate() {
        let number = point.get(index).copied().unwrap_or(0);
        sum = sum.checked_add(coefficient.checked_mul(number)?)?;
    }
    Some(sum)
}

// Whether sums have these numbers at a point.
fn are(forms: &[Linear], point: &[i128], numbers: &[i128]) -> bool {
    forms.len() == numbers.len()
        && forms
            .iter()
            .zip(numbers.iter())
            .all(|(form, number)| at(form, point) == Some(*number))
}

// Whether no sum is below 0 at a point.
fn are_not_below_zero(forms: &[Linear], point: &[i128]) -> bool {
    forms.iter().all(|form| matches!(at(form, point), Some(number) if number >= 0))
}

#[test]
fn forms_have_the_places_of_fields(rt: HostRuntime) -> Result<(), Fail> {
    let spec = spec_of(rt.alloc(), TLV)?;
    let message = message_of(&spec)?;
    let paths = paths_of(rt.alloc(), &spec, message)?;
    let Some(path) = paths.first() else {
        return Err(Fail::new("there is no path"));
    };
    let forms = forms_of(rt.alloc(), message, &spec, path, &[])?;
    assert_eq!(rt; forms.variables, 3);
    // 13 bytes: a tag, a length of 10 and so many bytes
    let point = [13, 1, 10];
    assert!(rt; are(forms.firsts.as_slice(), &point, &[0, 8, 24]));
    assert!(rt; are(forms.sizes.as_slice(), &point, &[8, 16, 80]));
    assert_eq!(rt; forms.conditions.as_slice().len(), 4);
    assert_eq!(rt; forms.divisions.as_slice().len(), 0);
    Ok(())
}

#[test]
fn rows_leave_a_quotient_no_choice(rt: HostRuntime) -> Result<(), Fail> {
    let spec = spec_of(rt.alloc(), HALF)?;
    let message = message_of(&spec)?;
    let paths = paths_of(rt.alloc(), &spec, message)?;
    let Some(path) = paths.first() else {
        return Err(Fail::new("there is no path"));
    };
    let forms = forms_of(rt.alloc(), message, &spec, path, &[])?;
    assert_eq!(rt; forms.variables, 3);
    // 4 bytes, of which the first is 7
    assert!(rt; are(forms.sizes.as_slice(), &[4, 7, 3], &[8, 24]));
    assert!(rt; are_not_below_zero(forms.divisions.as_slice(), &[4, 7, 3]));
    assert!(rt; !are_not_below_zero(forms.divisions.as_slice(), &[4, 7, 2]));
    assert!(rt; !are_not_below_zero(forms.divisions.as_slice(), &[4, 7, 4]));
    Ok(())
}
