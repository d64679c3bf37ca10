//! Numbers: decimal digits, or a base and digits, up to 2^127 - 1.

ghost use Rattle.std.specs.Prelude.{◌≡◌, ℕ, ◌<◌, ◌≤◌, ◌^◌, ◌==◌, ◌||◌, not, nat_lt, true, take, drop, length, IfSome, IfNone};
ghost use Rattle.std.specs.List.{list_all};
ghost use Rattle.rx_syntax.specs.Numbers.{begins_with, digit_of, are_digits, value_of, IsBased, IsNumber};
ghost use Rattle.rx_syntax.specs.Text.{IsRun};

use crate::class::is_well_joined;

/// The number of a digit, in either case; 16 where it is none.
fn digit_of(byte: u8) -> u8
    ensures { result ≡ digit_of byte }
{
    match byte {
        48..=57 => byte - 48,
        65..=70 => byte - 55,
        97..=102 => byte - 87,
        _ => 16,
    }
}

/// Whether the run begins with another byte than `_`.
fn begins_plainly(run: &[u8]) -> bool
    ensures { result ≡ begins_with (λ b. not (b == 95)) run.now }
{
    match run {
        [] => false,
        [first, ..] => *first != 95,
    }
}

/// Whether each byte is a digit below the base or `_`.
fn are_below(base: u8, run: &[u8]) -> bool
    ensures { result ≡ list_all (λ b. b == 95 || nat_lt (digit_of b) base) run.now }
{
    run.iter().all(|byte| *byte == 95 || digit_of(*byte) < base)
}

/// Whether the run is digits below the base, with single `_` between them.
fn are_digits(base: u8, run: &[u8]) -> bool
    ensures { result ≡ are_digits base run.now }
{
    begins_plainly(run) && is_well_joined(run) && are_below(base, run)
}

/// The number of digits of a base, if it is below 2^127.
fn value_of(base: u8, run: &[u8]) -> Option<u128>
    requires { 1 ≤ base }
    ensures some { IfSome result (λ n. (n ≡ value_of base run.now) × (n < 2 ^ 127)) }
    ensures none { IfNone result (2 ^ 127 ≤ value_of base run.now) }
{
    let mut number = 0u128;
    for byte in run {
        if *byte != 95 {
            let digit = digit_of(*byte) as u128;
            number = number.checked_mul(base as u128)?.checked_add(digit)?;
        }
    }
    if number > i128::MAX as u128 {
        return None;
    }
    Some(number)
}

/// The number of a run of digits of a base.
fn digits(base: u8, run: &[u8]) -> Option<u128>
    requires { 1 ≤ base }
    ensures some { IfSome result (λ n. (are_digits base run.now ≡ true) × (n ≡ value_of base run.now) × (n < 2 ^ 127)) }
    ensures none { IfNone result (are_digits base run.now ≡ true → 2 ^ 127 ≤ value_of base run.now) }
{
    if !are_digits(base, run) {
        return None;
    }
    value_of(base, run)
}

/// How many bytes stand before the first `#`.
fn base_len(run: &[u8]) -> usize
    ensures within { result ≤ length run.now }
    ensures run { IsRun (λ b. not (b == 35)) (take result run.now) (drop result run.now) }
{
    let mut len = 0;
    while len < run.len() && run[len] != 35 {
        len += 1;
    }
    len
}

/// The number of the digits of a base, which end with `#`.
fn based(base: &[u8], rest: &[u8]) -> Option<u128>
    ensures some { IfSome result (λ n. IsBased base.now rest.now n × (n < 2 ^ 127)) }
    ensures none { IfNone result ((n : ℕ) → IsBased base.now rest.now n → n < 2 ^ 127 → ⊥) }
{
    let base = digits(10, base)?;
    if base < 2 || base > 16 {
        return None;
    }
    let (last, numerals) = rest.split_last()?;
    if *last != 35 {
        return None;
    }
    digits(base as u8, numerals)
}

/// The number that a run of letters, digits, `_` and `#` is, if it is one up to 2^127 - 1.
pub(crate) fn number(run: &[u8]) -> Option<u128>
    ensures some { IfSome result (λ n. IsNumber run.now n) }
    ensures none { IfNone result ((n : ℕ) → IsNumber run.now n → ⊥) }
{
    let (base, rest) = run.split_at(base_len(run));
    match rest.split_first() {
        None => digits(10, run),
        Some((_, rest)) => based(base, rest),
    }
}
