//! How long the message is that a valuation makes.

ghost use Rattle.std.specs.Prelude.{◌≡◌, ◌<◌, ◌^◌, List, slice_get};
ghost use Rattle.rx_types.specs.Domain.{Domain};
ghost use Rattle.rx_graph.specs.Fits.{content_size, length_of, unless_overlay};
ghost use Rattle.rx_graph.specs.Graph.{Graph, type_of, overlay_of};
ghost use Rattle.rx_context.specs.Plan.{StandsFor};
ghost use Rattle.rx_values.specs.Valuation.{content};
ghost use Rattle.rx_serial.specs.Rooms.{IsAtMost};

use rx_context::Plan;
use rx_types::FieldId;
use rx_values::{Valuation, Value};

// How many bits a value has.
fn size_of(plan: &Plan, field: FieldId, value: &Value) -> u128
    ensures { (domains : List Domain) (m : Graph) → StandsFor domains m plan.now → result ≡ content_size (type_of domains m field) (content value.now) }
{
    match plan.scalar_size(field) {
        Some(size) => size as u128,
        None => match value {
            Value::Number(_) => 0,
            Value::Bytes(bytes) => 8 * bytes.len() as u128,
        },
    }
}

// How many bits a value has of its own.
pub(crate) fn own_bits(plan: &Plan, field: FieldId, value: &Value) -> u128
    ensures { (domains : List Domain) (m : Graph) → StandsFor domains m plan.now → result ≡ unless_overlay (overlay_of (slice_get m.fields field)) (content_size (type_of domains m field) (content value.now)) }
{
    if plan.is_overlay(field) {
        return 0;
    }
    size_of(plan, field, value)
}

/// How many bytes the message has that the valuation makes.
pub fn room(plan: &Plan, valuation: &Valuation) -> usize
    requires { IsAtMost plan.now valuation.now 18446744073709551615 }
    ensures { (domains : List Domain) (m : Graph) → StandsFor domains m plan.now → result ≡ length_of domains m valuation.now }
{
    let mut bits = 0u128;
    for entry in valuation.entries() {
        bits += own_bits(plan, entry.0, &entry.1);
    }
    (bits / 8) as usize
}
