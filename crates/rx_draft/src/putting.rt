//! A field that is put behind the others.

ghost use Rattle.std.specs.Prelude.{◌≡◌, List, OnOk, OnErr, IfErr};
ghost use Rattle.rx_types.specs.Domain.{Domain};
ghost use Rattle.rx_graph.specs.Fits.{Number, Bytes};
ghost use Rattle.rx_graph.specs.Graph.{Graph};
ghost use Rattle.rx_draft.specs.Drafts.{StandsForSound, IsDraft, drafted};
ghost use Rattle.rx_draft.specs.Puts.{IsScalar, IsOpaque, Refuses, HasPut, values_of};

use crate::fault::PutFault;
use crate::stepping::{place_of_bytes, place_of_number};
use crate::writing::{set_bytes, set_number};
use rx_context::Plan;
use rx_types::{Entry, Env, FieldId};

/// Puts a number into the place of a scalar, if that is the next field.
pub fn put_number(
    plan: &Plan,
    buffer: &mut [u8],
    env: &mut Env,
    field: FieldId,
    number: u64,
) -> Result<(), PutFault>
    requires draft { IsDraft (drafted buffer.old plan.now env.old) }
    requires scalar { IsScalar plan.now field }
    ensures draft { IsDraft (drafted buffer.new plan.now env.new) }
    ensures total { env.new.total ≡ env.old.total }
    ensures put { OnOk result ((domains : List Domain) (m : Graph) → StandsForSound domains m plan.now → HasPut domains m (drafted buffer.old plan.now env.old) (drafted buffer.new plan.now env.new) field (Number number)) }
    ensures refused { IfErr result (λ fault. (domains : List Domain) (m : Graph) → StandsForSound domains m plan.now → Refuses domains m env.old (values_of domains m (drafted buffer.old plan.now env.old)) field (Number number) fault) }
    ensures same { OnErr result ((buffer.new ≡ buffer.old) × (env.new ≡ env.old)) }
{
    match place_of_number(plan, env, field, number) {
        Ok((first, size)) => {
            if !set_number(
                buffer,
                first,
                size,
                plan.low_order(),
                plan.is_overlay(field),
                number,
            ) {
                return Err(PutFault::Overlay);
            }
            env.push(Entry {
                field,
                first,
                size,
                number,
            });
            Ok(())
        }
        Err(fault) => Err(fault),
    }
}

/// Puts bytes into the place of a field that is no scalar, if that is the next field.
pub fn put_bytes(
    plan: &Plan,
    buffer: &mut [u8],
    env: &mut Env,
    field: FieldId,
    bytes: &[u8],
) -> Result<(), PutFault>
    requires draft { IsDraft (drafted buffer.old plan.now env.old) }
    requires opaque { IsOpaque plan.now field }
    ensures draft { IsDraft (drafted buffer.new plan.now env.new) }
    ensures total { env.new.total ≡ env.old.total }
    ensures put { OnOk result ((domains : List Domain) (m : Graph) → StandsForSound domains m plan.now → HasPut domains m (drafted buffer.old plan.now env.old) (drafted buffer.new plan.now env.new) field (Bytes bytes.now)) }
    ensures refused { IfErr result (λ fault. (domains : List Domain) (m : Graph) → StandsForSound domains m plan.now → Refuses domains m env.old (values_of domains m (drafted buffer.old plan.now env.old)) field (Bytes bytes.now) fault) }
    ensures same { OnErr result ((buffer.new ≡ buffer.old) × (env.new ≡ env.old)) }
{
    match place_of_bytes(plan, env, field, bytes) {
        Ok((first, size)) => {
            if !set_bytes(buffer, first as usize / 8, plan.is_overlay(field), bytes) {
                return Err(PutFault::Overlay);
            }
            env.push(Entry {
                field,
                first,
                size,
                number: 0,
            });
            Ok(())
        }
        Err(fault) => Err(fault),
    }
}
