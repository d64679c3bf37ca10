//! What a buffer is of a message.

ghost use Rattle.std.specs.Prelude.{◌<◌, ◌^◌, length, IfOk};
ghost use Rattle.rx_context.specs.Contexts.{ReadsBy};
ghost use Rattle.rx_context.specs.Plan.{StandsFor};
ghost use Rattle.rx_decode.specs.Decoded.{IsDecoded, IsJson};

use crate::fault::NoMemory;
use crate::gathering::values_of;
use rx_context::{Opened, Plan, Verified};
use rx_graph::Elaborated;
use rx_types::Stuck;
use rx_values::json_of;
use std::alloc::Global;

/// What a buffer is of a message: the JSON of what it reads as, or why no path fits it.
#[derive(Debug, Drop)]
pub enum Decoded {
    Json(Vec<u8>),
    Refused(Stuck),
}

/// Reads a buffer of at most 16,777,215 bytes by the plan of a message.
pub fn decode(
    alloc: Global,
    message: &Elaborated<'_>,
    plan: &Plan,
    bytes: &[u8],
) -> Result<Decoded, NoMemory>
    requires stands { StandsFor message.now.domains message.now.graph plan.now }
    requires short { length bytes.now < 2 ^ 24 }
    ensures { IfOk result (λ d. IsDecoded message.now.domains message.now.graph bytes.now d) }
{
    match Opened::over(bytes, plan).verify() {
        Ok(verified) => {
            let text = text_of(alloc, message, &verified)?;
            Ok(Decoded::Json(text))
        }
        Err(refused) => Ok(Decoded::Refused(refused.stuck)),
    }
}

// The JSON of what a buffer reads as.
fn text_of(
    alloc: Global,
    message: &Elaborated<'_>,
    verified: &Verified<'_>,
) -> Result<Vec<u8>, NoMemory>
    requires stands { StandsFor message.now.domains message.now.graph verified.now.plan }
    requires reads { ReadsBy verified.now.plan verified.now.bytes verified.now.fields }
    ensures { IfOk result (λ text. IsJson message.now.domains message.now.graph verified.now.bytes text.items) }
{
    let values = values_of(alloc, message, verified)?;
    let text = json_of(alloc, message, &values)?;
    Ok(text)
}
