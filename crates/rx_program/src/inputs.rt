//! What the input is of a message whose checks pass.
ghost use Rattle.std.specs.Prelude.{◌≡◌, ◌≤◌, length, Ok, IfOk, IfSome};
ghost use Rattle.std.specs.Io.KnownBytes.{IsAtEnd};
ghost use Rattle.rx_io.specs.Faults.{HasRisen};
ghost use Rattle.rx_encode.specs.Encoded.{IsEncoded};
ghost use Rattle.rx_decode.specs.Decoded.{IsDecoded};
ghost use Rattle.rx_program.specs.Heard.{IsOfInput, IsOfWhole};
ghost use Rattle.rx_program.specs.Input.{name_if_any, stop_of, refused_at, IsReadAs, IsWrittenAs};

use crate::answer::Answer;
use crate::fault::NoMemory;
use rx_context::Plan;
use rx_decode::{Decoded, decode};
use rx_encode::{Encoded, encode};
use rx_graph::{Elaborated, Sound};
use rx_io::{ReadFault, Source, read_all};
use rx_types::{FieldId, Name};
use std::alloc::Global;

// The greatest length of an input, in bytes.
const INPUT_LIMIT: usize = 16777215;

// The name of a field, if there is one.
fn name_of(
    alloc: Global,
    message: &Elaborated<'_>,
    field: Option<FieldId>,
) -> Result<Option<Name>, NoMemory>
    ensures { IfOk result (λ name. name ≡ name_if_any message.now.graph field) }
{
    let Some(field) = field else {
        return Ok(None);
    };
    match message.fields().get(field as usize) {
        Some(found) => Ok(Some(found.name.copy(alloc)?)),
        None => Ok(None),
    }
}

// The field at which a buffer is stuck, if any.
fn stop_of(decoded: &Decoded) -> Option<FieldId>
    ensures { result ≡ stop_of decoded.now }
{
    match decoded {
        Decoded::Json(_) => None,
        Decoded::Refused(stuck) => stuck.field,
    }
}

// The field at which a valuation fits no path, if any.
fn refused_at(encoded: &Encoded) -> Option<FieldId>
    ensures { result ≡ refused_at encoded.now }
{
    match encoded {
        Encoded::Unsatisfied(field, _) => *field,
        Encoded::Unused(field) => Some(*field),
        _ => None,
    }
}

// What a buffer is of a message.
fn decoded(alloc: Global, message: &Sound<'_>, bytes: &[u8]) -> Result<Decoded, NoMemory>
    requires { length bytes.now ≤ 16777215 }
    ensures { IfOk result (IsDecoded message.now.domains message.now.graph bytes.now) }
{
    let plan = Plan::of(alloc, message)?;
    Ok(decode(alloc, message.elaborated(), &plan, bytes)?)
}

// What a JSON text is of a message.
fn encoded(alloc: Global, message: &Sound<'_>, text: &[u8]) -> Result<Encoded, NoMemory>
    ensures { IfOk result (IsEncoded message.now.domains message.now.graph text.now) }
{
    let plan = Plan::of(alloc, message)?;
    Ok(encode(alloc, message, &plan, text)?)
}

// What a buffer is of a message, as an answer.
fn decoded_answer(alloc: Global, message: &Sound<'_>, bytes: &[u8]) -> Result<Answer, NoMemory>
    requires { length bytes.now ≤ 16777215 }
    ensures read { IfOk result (IsReadAs message.now.domains message.now.graph bytes.now) }
    ensures kind { IfOk result IsOfInput }
    ensures no_fault { result ≡ Ok Answer.SourceFault → ⊥ }
{
    let decoded = decoded(alloc, message, bytes)?;
    let name = name_of(alloc, message.elaborated(), stop_of(&decoded))?;
    Ok(Answer::Decoded(decoded, name))
}

// What a JSON text is of a message, as an answer.
fn encoded_answer(alloc: Global, message: &Sound<'_>, text: &[u8]) -> Result<Answer, NoMemory>
    requires { length text.now ≤ 16777215 }
    ensures written { IfOk result (IsWrittenAs message.now.domains message.now.graph text.now) }
    ensures kind { IfOk result IsOfInput }
    ensures no_fault { result ≡ Ok Answer.SourceFault → ⊥ }
{
    let encoded = encoded(alloc, message, text)?;
    let name = name_of(alloc, message.elaborated(), refused_at(&encoded))?;
    Ok(Answer::Encoded(encoded, name))
}

/// What the input is of a message, where it is decoded.
pub fn read_input<I: Source>(
    alloc: Global,
    message: &Sound<'_>,
    input: &mut I,
) -> Result<Answer, NoMemory>
    ensures read { IfOk result (λ answer. IfSome (I.left input.old) (λ left. IsReadAs message.now.domains message.now.graph left answer)) }
    ensures at_end { IfOk result (λ answer. IsOfWhole answer → IsAtEnd (I.left input.new)) }
    ensures kind { IfOk result IsOfInput }
    ensures cause { result ≡ Ok Answer.SourceFault → HasRisen (I.faults input.old) (I.faults input.new) }
{
    match read_all(alloc, input, INPUT_LIMIT) {
        Ok(bytes) => decoded_answer(alloc, message, &bytes),
        Err(ReadFault::Failed) => Ok(Answer::SourceFault),
        Err(ReadFault::TooLong) => Ok(Answer::InputLimit),
        Err(ReadFault::NoMemory) => Err(NoMemory),
    }
}

/// What the input is of a message, where it is encoded.
pub fn write_input<I: Source>(
    alloc: Global,
    message: &Sound<'_>,
    input: &mut I,
) -> Result<Answer, NoMemory>
    ensures written { IfOk result (λ answer. IfSome (I.left input.old) (λ left. IsWrittenAs message.now.domains message.now.graph left answer)) }
    ensures at_end { IfOk result (λ answer. IsOfWhole answer → IsAtEnd (I.left input.new)) }
    ensures kind { IfOk result IsOfInput }
    ensures cause { result ≡ Ok Answer.SourceFault → HasRisen (I.faults input.old) (I.faults input.new) }
{
    match read_all(alloc, input, INPUT_LIMIT) {
        Ok(text) => encoded_answer(alloc, message, &text),
        Err(ReadFault::Failed) => Ok(Answer::SourceFault),
        Err(ReadFault::TooLong) => Ok(Answer::InputLimit),
        Err(ReadFault::NoMemory) => Err(NoMemory),
    }
}
