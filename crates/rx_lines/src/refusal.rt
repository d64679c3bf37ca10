//! The line of a refusal: the file, the place, the number and the name of the rule, and the word that is told with it.
ghost use Rattle.std.specs.Prelude.{◌≡◌, ◌++◌, IfOk, OnOk};
ghost use Rattle.rx_lines.specs.Lines.{place_text, name_text, refusal_text, refused_text};

use crate::fault::NoMemory;
use crate::line::{file_of, line_of, put, put_both};
use rx_syntax::{Place, Refusal, Word};
use rx_types::Name;
use std::alloc::Global;

/// Puts a place at the end.
pub fn put_place(alloc: Global, line: &mut Vec<u8>, place: Place) -> Result<(), NoMemory>
    ensures { OnOk result (line.new.items ≡ line.old.items ++ place_text place) }
{
    put(line, place.line.to_string(alloc)?.as_bytes())?;
    put(line, b":")?;
    put(line, place.column.to_string(alloc)?.as_bytes())
}

// A space and the word, if there is one.
fn word_text(alloc: Global, word: &Option<Word>) -> Result<Vec<u8>, NoMemory>
    ensures { IfOk result (λ text. text.items ≡ name_text word.now) }
{
    let mut text = Vec::new(alloc);
    if let Some(word) = word {
        put_both(&mut text, b" ", word.as_str().as_bytes())?;
    }
    Ok(text)
}

// The text of a refusal.
fn refusal_text(alloc: Global, refusal: &Refusal) -> Result<Vec<u8>, NoMemory>
    ensures { IfOk result (λ text. text.items ≡ refusal_text refusal.now) }
{
    let mut text = Vec::new(alloc);
    put_place(alloc, &mut text, refusal.place)?;
    put(&mut text, b": ")?;
    put(
        &mut text,
        refusal.rule.number().to_string(alloc)?.as_bytes(),
    )?;
    put(&mut text, b" ")?;
    put(&mut text, refusal.rule.name().as_bytes())?;
    let word = word_text(alloc, &refusal.word)?;
    put(&mut text, &word)?;
    Ok(text)
}

/// The line of a package whose text is refused.
pub fn refused(alloc: Global, name: &Name, refusal: &Refusal) -> Result<Vec<u8>, NoMemory>
    ensures { IfOk result (λ text. text.items ≡ refused_text name.now refusal.now) }
{
    let file = file_of(alloc, name)?;
    let text = refusal_text(alloc, refusal)?;
    line_of(alloc, &file, b":", &text)
}
