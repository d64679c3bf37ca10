//! Numbers in words: decimal digits without sign and without leading zero.

ghost use Rattle.std.specs.Prelude.{◌≡◌, ◌<◌, ◌^◌, nat_le, Some, None, if◌then◌else◌};
ghost use Rattle.std.specs.List.{list_all};
ghost use Rattle.rx_syntax.specs.Bytes.{is_digit};
ghost use Rattle.rx_words.specs.Numbers.{decimal, is_numeral, number_in};

use rx_syntax::is_digit;

// Whether all bytes are digits.
fn are_digits(bytes: &[u8]) -> bool
    ensures { result ≡ list_all is_digit bytes.now }
{
    bytes.iter().all(|byte| is_digit(*byte))
}

// Whether the bytes are digits, at least one, the first of them not 0.
fn is_numeral(bytes: &[u8]) -> bool
    ensures { result ≡ is_numeral bytes.now }
{
    match bytes {
        [] => false,
        [first, ..] => {
            let digits = are_digits(bytes);
            *first != 48 && digits
        }
    }
}

// The number of the digits, if it is at most `most`.
fn decimal_up_to(most: u32, digits: &[u8]) -> Option<u32>
    requires { most < 2 ^ 16 }
    ensures { result ≡ (if nat_le (decimal digits.now) most then Some (decimal digits.now) else None) }
{
    let mut number = 0u32;
    for digit in digits {
        number = 10 * number + u32::from(digit.saturating_sub(48));
        if number > most {
            return None;
        }
    }
    Some(number)
}

/// The number that the text is, if it is one from `least` to `most`.
pub(crate) fn number_in(least: u32, most: u32, text: &str) -> Option<u32>
    requires { most < 2 ^ 16 }
    ensures { result ≡ number_in least most text.now }
{
    let bytes = text.as_bytes();
    if !is_numeral(bytes) {
        return None;
    }
    let number = decimal_up_to(most, bytes)?;
    if number >= least { Some(number) } else { None }
}
