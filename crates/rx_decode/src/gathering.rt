//! The valuation that a buffer reads as, field by field.

ghost use Rattle.std.specs.Prelude.{◌≡◌, ◌+◌, IfOk};
ghost use Rattle.rx_types.specs.Environment.{IsAmong};
ghost use Rattle.rx_graph.specs.Fits.{IsAscending, ReadsAs};
ghost use Rattle.rx_values.specs.Valuation.{content};
ghost use Rattle.rx_context.specs.Contexts.{ReadsBy};
ghost use Rattle.rx_context.specs.Plan.{StandsFor};
ghost use Rattle.rx_decode.specs.Gathered.{there_at, IsGathered};

use crate::fault::NoMemory;
use rx_context::Verified;
use rx_graph::Elaborated;
use rx_types::FieldId;
use rx_values::{Valuation, Value};
use std::alloc::Global;

/// The valuation that a buffer reads as.
pub fn values_of(
    alloc: Global,
    message: &Elaborated<'_>,
    verified: &Verified<'_>,
) -> Result<Valuation, NoMemory>
    requires stands { StandsFor message.now.domains message.now.graph verified.now.plan }
    requires reads { ReadsBy verified.now.plan verified.now.bytes verified.now.fields }
    ensures ascending { IfOk result (λ values. IsAscending values) }
    ensures reads { IfOk result (λ values. ReadsAs message.now.domains message.now.graph verified.now.bytes values) }
{
    let mut values = Valuation::new(alloc);
    for field in 0..message.fields().len() as u16 {
        values = with_field(alloc, message, verified, field, values)?;
    }
    Ok(values)
}

// The valuation of the fields with lesser ids, and of this one if it is present.
fn with_field(
    alloc: Global,
    message: &Elaborated<'_>,
    verified: &Verified<'_>,
    field: FieldId,
    values: Valuation,
) -> Result<Valuation, NoMemory>
    requires stands { StandsFor message.now.domains message.now.graph verified.now.plan }
    requires gathered { IsGathered message.now.domains message.now.graph verified.now.bytes verified.now.fields field values }
    ensures { IfOk result (λ v. IsGathered message.now.domains message.now.graph verified.now.bytes verified.now.fields (field + 1) v) }
{
    if !verified.present(field) {
        return Ok(values);
    }
    let value = value_of(alloc, message, verified, field)?;
    let values = values.put(field, value)?;
    Ok(values)
}

// What stands at a field's place.
fn value_of(
    alloc: Global,
    message: &Elaborated<'_>,
    verified: &Verified<'_>,
    field: FieldId,
) -> Result<Value, NoMemory>
    requires stands { StandsFor message.now.domains message.now.graph verified.now.plan }
    requires present { IsAmong field verified.now.fields }
    ensures { IfOk result (λ v. content v ≡ there_at message.now.domains message.now.graph verified.now.bytes verified.now.fields field) }
{
    if message.is_scalar(field) {
        return Ok(Value::Number(verified.number(field)));
    }
    let bytes = Vec::from_slice(alloc, verified.bytes(field))?;
    Ok(Value::Bytes(bytes))
}
