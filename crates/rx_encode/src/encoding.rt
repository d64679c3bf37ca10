//! What a JSON text is of a message.

ghost use Rattle.std.specs.Prelude.{◌≡◌, ◌≤◌, ℕ, List, length, Ok, Err, IfOk, IfSome};
ghost use Rattle.rx_types.specs.Domain.{Domain};
ghost use Rattle.rx_graph.specs.Fits.{Assigned, length_of};
ghost use Rattle.rx_graph.specs.Graph.{Graph};
ghost use Rattle.rx_context.specs.Plan.{StandsFor};
ghost use Rattle.rx_draft.specs.Drafts.{StandsForSound, IsSoundPlan};
ghost use Rattle.rx_values.specs.Answers.{refusal_of};
ghost use Rattle.rx_values.specs.Reading.{value_of};
ghost use Rattle.rx_serial.specs.Laws.{AreBytes};
ghost use Rattle.rx_serial.specs.Rooms.{HaveKinds, IsAtMost};
ghost use Rattle.rx_serial.specs.Unfit.{IsUnfit};
ghost use Rattle.rx_encode.specs.Encoded.{IsEncoded};
ghost use Rattle.rx_encode.specs.Walks.{IsOfWalk};

use crate::fault::NoMemory;
use rx_context::Plan;
use rx_graph::Sound;
use rx_serial::{UnfitReason, WriteFault, is_within, room, write};
use rx_types::FieldId;
use rx_values::{Valuation, ValueFault, valuation_of};
use std::alloc::Global;

/// The longest message that is encoded, in bytes.
const LONGEST: usize = 16_777_215;

/// What a JSON text is of a message: the buffer that reads as its valuation, or why it is none. Members are told by the
/// text of their keys.
#[derive(Debug, Drop)]
pub enum Encoded {
    Bytes(Vec<u8>),
    /// The text is no JSON value.
    NotJson,
    /// The value is no object.
    NotObject,
    /// No field has the name.
    UnknownField(Vec<u8>),
    /// The value is not allowed for the field.
    BadValue(Vec<u8>),
    /// An earlier member names the same field.
    Duplicate(Vec<u8>),
    /// The message would have more than 16,777,215 bytes.
    TooLong,
    /// The valuation does not lead on from the path's last field, or to the next one.
    Unsatisfied(Option<FieldId>, UnfitReason),
    /// The path ends, and lacks this field of the valuation.
    Unused(FieldId),
}

// What a text is that is no valuation.
fn refused(fault: ValueFault) -> Result<Encoded, NoMemory>
    ensures { IfOk result (λ e. (domains : List Domain) (m : Graph) (text : List ℕ) → IfSome (refusal_of fault) (λ r. value_of domains m text ≡ Err r) → IsEncoded domains m text e) }
{
    match fault {
        ValueFault::NotJson => Ok(Encoded::NotJson),
        ValueFault::NotObject => Ok(Encoded::NotObject),
        ValueFault::UnknownField(key) => Ok(Encoded::UnknownField(key)),
        ValueFault::BadValue(key) => Ok(Encoded::BadValue(key)),
        ValueFault::Duplicate(key) => Ok(Encoded::Duplicate(key)),
        ValueFault::NoMemory => Err(NoMemory),
    }
}

// What a valuation is that is not written.
fn unfit(why: WriteFault) -> Encoded
    requires { IsOfWalk why }
    ensures { (domains : List Domain) (m : Graph) (text : List ℕ) (values : List Assigned) → value_of domains m text ≡ Ok values → IsUnfit domains m values why → IsEncoded domains m text result }
{
    match why {
        WriteFault::NoRoom(_, _) => unreachable!(),
        WriteFault::Unsatisfied(field, reason) => Encoded::Unsatisfied(field, reason),
        WriteFault::Unused(field) => Encoded::Unused(field),
    }
}

// The bytes of a slice.
fn copied(alloc: Global, bytes: &[u8]) -> Result<Vec<u8>, NoMemory>
    ensures { IfOk result (λ copy. AreBytes copy.items × (copy.items ≡ bytes.now)) }
{
    let copy = Vec::from_slice(alloc, bytes)?;
    Ok(copy)
}

// What a valuation is, written into a buffer that has room for its message.
fn written_into<'b>(
    alloc: Global,
    plan: &'b Plan,
    valuation: &Valuation,
    buffer: &'b mut [u8],
) -> Result<Encoded, NoMemory>
    requires sound { IsSoundPlan plan.now }
    requires kinds { HaveKinds plan.now valuation.now }
    requires short { IsAtMost plan.now valuation.now 16777215 }
    requires long { (domains : List Domain) (m : Graph) → StandsForSound domains m plan.now → length_of domains m valuation.now ≤ length buffer.old }
    ensures { IfOk result (λ e. (domains : List Domain) (m : Graph) (text : List ℕ) → StandsForSound domains m plan.now → value_of domains m text ≡ Ok valuation.now → IsEncoded domains m text e) }
{
    match write(plan, valuation, buffer) {
        Ok(sealed) => {
            let message = copied(alloc, sealed.whole())?;
            Ok(Encoded::Bytes(message))
        }
        Err(refused) => Ok(unfit(refused.why)),
    }
}

// What a valuation is whose message is not too long.
fn written(alloc: Global, plan: &Plan, valuation: &Valuation) -> Result<Encoded, NoMemory>
    requires sound { IsSoundPlan plan.now }
    requires kinds { HaveKinds plan.now valuation.now }
    requires short { IsAtMost plan.now valuation.now 16777215 }
    ensures { IfOk result (λ e. (domains : List Domain) (m : Graph) (text : List ℕ) → StandsForSound domains m plan.now → value_of domains m text ≡ Ok valuation.now → IsEncoded domains m text e) }
{
    let mut buffer = vec![in alloc; 0u8; room(plan, valuation)]?;
    written_into(alloc, plan, valuation, buffer.as_mut_slice())
}

// What a valuation is.
fn valued(alloc: Global, plan: &Plan, valuation: &Valuation) -> Result<Encoded, NoMemory>
    requires sound { IsSoundPlan plan.now }
    requires kinds { HaveKinds plan.now valuation.now }
    ensures { IfOk result (λ e. (domains : List Domain) (m : Graph) (text : List ℕ) → StandsForSound domains m plan.now → value_of domains m text ≡ Ok valuation.now → IsEncoded domains m text e) }
{
    if is_within(plan, valuation, LONGEST) {
        written(alloc, plan, valuation)
    } else {
        Ok(Encoded::TooLong)
    }
}

/// What a JSON text is of a message whose checks hold, by its plan.
pub fn encode(
    alloc: Global,
    message: &Sound<'_>,
    plan: &Plan,
    text: &[u8],
) -> Result<Encoded, NoMemory>
    requires stands { StandsFor message.now.domains message.now.graph plan.now }
    ensures { IfOk result (IsEncoded message.now.domains message.now.graph text.now) }
{
    message.is_sound();
    match valuation_of(alloc, message.elaborated(), text) {
        Ok(valuation) => valued(alloc, plan, &valuation),
        Err(fault) => refused(fault),
    }
}
