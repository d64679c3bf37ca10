// One step along the path that fits a buffer.

ghost use Rattle.std.specs.Prelude.{◌≡◌, ◌+◌, ◌*◌, ◌<◌, ◌≤◌, ◌^◌, List, length, IfSome, IfNone, IsTrue, ◌↔◌};
ghost use Rattle.rx_model.specs.Order.{number_in};
ghost use Rattle.rx_types.specs.Domain.{Domain};
ghost use Rattle.rx_types.specs.Environment.{end_of, bits_of};
ghost use Rattle.rx_graph.specs.Graph.{Graph};
ghost use Rattle.rx_graph.specs.Fits.{by_buffer};
ghost use Rattle.rx_context.specs.Plan.{planned, kept_type, StandsFor, IsKnown};
ghost use Rattle.rx_context.specs.Reading.{IsReadable, IsRead, IsRefused, AreReadBy};
ghost use Rattle.rx_context.specs.Steps.{IsStep};

use crate::advance::{Taken, advance, end, field_of};
use crate::kept::Kept;
use rx_bits::get;
use rx_graph::Node;
use rx_types::{Entry, Env, FieldId, Reason, Stuck, contains};

/// Where a step leads.
#[derive(Clone, Copy, Debug, PartialEq, Eq)]
pub enum Step {
    To(Entry),
    Done,
    Stop(Stuck),
}

/// The step from a node, at the end of a path that the buffer has.
pub fn next_step(kept: &Kept, bytes: &[u8], at: Node, env: &Env) -> Step
    requires known { IsKnown (planned kept.now) env.now }
    requires total { env.now.total ≡ length bytes.now }
    requires reads { AreReadBy (planned kept.now) bytes.now env.now.fields }
    ensures { (domains : List Domain) (m : Graph) → StandsFor domains m (planned kept.now) → IsStep domains m (by_buffer m.low_order bytes.now) env.now at result }
{
    match advance(kept, at, env) {
        Taken::To { field, first, size } => match number(kept, bytes, field, first, size) {
            Some(number) => Step::To(Entry {
                field,
                first,
                size,
                number,
            }),
            None => stop(Reason::Value, Some(field)),
        },
        Taken::Short { field, .. } => stop(Reason::Short, Some(field)),
        Taken::Null => {
            if ends(env) {
                Step::Done
            } else {
                stop(Reason::Trailing, field_of(at))
            }
        }
        Taken::Nothing => stop(Reason::Condition, field_of(at)),
    }
}

fn stop(reason: Reason, field: Option<FieldId>) -> Step
    ensures { result ≡ Step.Stop (record { reason = reason; field = field }) }
{
    Step::Stop(Stuck { reason, field })
}

// Whether the last field ends with the message.
fn ends(env: &Env) -> bool
    ensures { IsTrue result ↔ (end_of env.now.fields ≡ bits_of env.now) }
{
    end(env.entries()) == env.total() as i128 * 8
}

// The number of a field's bits, 0 where the field is no scalar, or nothing where it is none of the field's type.
fn number(kept: &Kept, bytes: &[u8], field: FieldId, first: u32, size: u32) -> Option<u64>
    requires within { first + size ≤ 8 * length bytes.now }
    requires readable { IsReadable (kept_type (planned kept.now) field) kept.now.message.low_order size }
    ensures some { IfSome result (λ n. IsRead (kept_type (planned kept.now) field) (number_in kept.now.message.low_order bytes.now first size) n) }
    ensures none { IfNone result (IsRefused (kept_type (planned kept.now) field) (number_in kept.now.message.low_order bytes.now first size)) }
{
    let Some(scalar) = kept.scalar(field) else {
        return Some(0);
    };
    let number = get(bytes, first as usize, size as u8, kept.message.low_order);
    if contains(scalar, number) {
        Some(number)
    } else {
        None
    }
}
