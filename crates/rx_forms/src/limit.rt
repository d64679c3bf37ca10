//! The path limit of one sum.

ghost use Rattle.std.specs.Prelude.{◌≡◌, ◌^◌, OnOk, IfErr, true, false, nat_lt, unsigned_abs};
ghost use Rattle.std.specs.List.{list_all};
ghost use Rattle.rx_forms.specs.Limits.{is_low};

use crate::fault::FormFault;
use crate::linear::Linear;

/// How many variables there are at most: the length of the message, scalars and divisions.
pub const VARIABLES: usize = 190;

/// Whether the coefficients are below 2^18 and the constant below 2^98 in magnitude.
pub fn is_low(form: &Linear) -> bool
    ensures { result ≡ is_low form.now }
{
    all_low(form.coefficients.as_slice()) && form.constant.unsigned_abs() < 1 << 98
}

fn all_low(coefficients: &[i128]) -> bool
    ensures { result ≡ list_all (λ c. nat_lt (unsigned_abs c) (2 ^ 18)) coefficients.now }
{
    coefficients
        .iter()
        .all(|coefficient| coefficient.unsigned_abs() < 1 << 18)
}

/// Refuses a sum that passes the limit.
pub fn keep_low(form: &Linear) -> Result<(), FormFault>
    ensures low { OnOk result (is_low form.now ≡ true) }
    ensures limit { IfErr result (λ e. is_low form.now ≡ false) }
{
    if is_low(form) {
        Ok(())
    } else {
        Err(FormFault::PathLimit)
    }
}
