//! Lines, put together from their parts.
ghost use Rattle.std.specs.Prelude.{◌≡◌, [], ◌∷◌, ◌++◌, IfOk, OnOk, decimal};
ghost use Rattle.rx_lines.specs.Lines.{file_of, name_text};

use crate::fault::NoMemory;
use rx_types::Name;
use std::alloc::Global;

/// Puts bytes at the end.
pub fn put(line: &mut Vec<u8>, bytes: &[u8]) -> Result<(), NoMemory>
    ensures { OnOk result (line.new.items ≡ line.old.items ++ bytes.now) }
{
    line.extend_from_slice(bytes)?;
    Ok(())
}

/// Puts bytes and then others at the end.
pub fn put_both(line: &mut Vec<u8>, first: &[u8], second: &[u8]) -> Result<(), NoMemory>
    ensures { OnOk result (line.new.items ≡ line.old.items ++ (first.now ++ second.now)) }
{
    put(line, first)?;
    put(line, second)
}

/// Puts a number at the end.
pub(crate) fn put_number(alloc: Global, line: &mut Vec<u8>, number: u64) -> Result<(), NoMemory>
    ensures { OnOk result (line.new.items ≡ line.old.items ++ decimal number) }
{
    let digits = number.to_string(alloc)?;
    put(line, digits.as_bytes())
}

/// Puts a number and then words at the end.
pub fn put_counted(
    alloc: Global,
    line: &mut Vec<u8>,
    number: u64,
    words: &[u8],
) -> Result<(), NoMemory>
    ensures { OnOk result (line.new.items ≡ line.old.items ++ (decimal number ++ words.now)) }
{
    put_number(alloc, line, number)?;
    put(line, words)
}

/// A line of these parts.
pub fn line_of(alloc: Global, front: &[u8], middle: &[u8], back: &[u8]) -> Result<Vec<u8>, NoMemory>
    ensures { IfOk result (λ text. text.items ≡ front.now ++ middle.now ++ back.now ++ 10 ∷ []) }
{
    let mut line = Vec::new(alloc);
    put(&mut line, front)?;
    put(&mut line, middle)?;
    put(&mut line, back)?;
    put(&mut line, b"\n")?;
    Ok(line)
}

/// The file of a package.
pub fn file_of(alloc: Global, name: &Name) -> Result<Vec<u8>, NoMemory>
    ensures { IfOk result (λ file. file.items ≡ file_of name.now) }
{
    let mut file = name.bytes().to_ascii_lowercase(alloc)?;
    put(&mut file, b".rflx")?;
    Ok(file)
}

/// A space and the name, if there is one.
pub fn name_text(alloc: Global, name: &Option<Name>) -> Result<Vec<u8>, NoMemory>
    ensures { IfOk result (λ text. text.items ≡ name_text name.now) }
{
    let mut text = Vec::new(alloc);
    if let Some(name) = name {
        put_both(&mut text, b" ", name.bytes())?;
    }
    Ok(text)
}
