//! Keys of members, as JSON texts.

ghost use Rattle.std.specs.Prelude.{◌≡◌, ◌++◌, ◌∷◌, ◌<◌, IfOk, OnOk};
ghost use Rattle.std.specs.Char.{digit_char};
ghost use Rattle.json.specs.Print.{escape, escape_byte, escape_letter};
ghost use Rattle.serde_json.specs.Data.{string};
ghost use Rattle.serde_json.specs.Written.{compact_text};

use crate::fault::NoMemory;
use std::alloc::Global;

// The letter of the byte's short escape, or 0 where it has none.
fn escape_letter(byte: u8) -> u8
    ensures { result ≡ escape_letter byte }
{
    match byte {
        b'"' | b'\\' => byte,
        8 => b'b',
        12 => b'f',
        b'\n' => b'n',
        b'\r' => b'r',
        b'\t' => b't',
        _ => 0,
    }
}

// A hexadecimal digit.
fn digit(number: u8) -> u8
    requires { number < 16 }
    ensures { result ≡ digit_char number }
{
    if number < 10 {
        b'0' + number
    } else {
        87 + number
    }
}

// Puts a byte at the end, with an escape where JSON asks for one.
fn put_byte(text: &mut Vec<u8>, byte: u8) -> Result<(), NoMemory>
    ensures { OnOk result (text.new.items ≡ text.old.items ++ escape_byte byte) }
{
    let letter = escape_letter(byte);
    if letter > 0 {
        text.extend_from_slice(&[b'\\', letter])?;
        return Ok(());
    }
    if byte < 32 {
        text.extend_from_slice(&[b'\\', b'u', b'0', b'0', digit(byte / 16), digit(byte % 16)])?;
        return Ok(());
    }
    text.push(byte)?;
    Ok(())
}

// The bytes, with escapes where JSON asks for them, behind a quote.
fn escaped(alloc: Global, key: &[u8]) -> Result<Vec<u8>, NoMemory>
    ensures { IfOk result (λ text. text.items ≡ 34 ∷ escape key.now) }
{
    let mut text = vec![in alloc; b'"']?;
    for byte in key {
        put_byte(&mut text, *byte)?;
    }
    Ok(text)
}

/// A key between quotes, with escapes where JSON asks for them.
pub fn key_text(alloc: Global, key: &[u8]) -> Result<Vec<u8>, NoMemory>
    ensures { IfOk result (λ text. text.items ≡ compact_text (string key.now)) }
{
    let mut text = escaped(alloc, key)?;
    text.push(b'"')?;
    Ok(text)
}
