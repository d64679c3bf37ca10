//! Where a field is to be put, or why it is not put there.

ghost use Rattle.std.specs.Prelude.{◌≡◌, ℕ, ◌+◌, ◌*◌, ◌<◌, ◌≤◌, ◌^◌, List, length, IfOk, IfErr, IfSome, IfNone, IsTrue, ◌↔◌};
ghost use Rattle.rx_types.specs.Domain.{Domain};
ghost use Rattle.rx_types.specs.Environment.{places, end_of, bits_of};
ghost use Rattle.rx_graph.specs.Fits.{Assigned, Number, Bytes};
ghost use Rattle.rx_graph.specs.Graph.{Graph};
ghost use Rattle.rx_context.specs.Steps.{IsTaken};
ghost use Rattle.rx_draft.specs.Drafts.{StandsForSound, IsUnderway, end_node};
ghost use Rattle.rx_draft.specs.Puts.{IsScalar, IsOpaque, IsNext, IsAtNull, IsDone, HasValue, HasSize, Refuses};
ghost use Rattle.rx_draft.specs.Steps.{LiesAt, IsPlaced};

use crate::fault::PutFault;
use rx_context::{Plan, Taken};
use rx_graph::Node;
use rx_types::{Entry, Env, FieldId};

/// Where a field lies that is to be put.
#[derive(Clone, Copy, Debug, PartialEq, Eq)]
pub enum Place {
    /// It is the next, and lies here within the message.
    Within { first: u32, size: u32 },
    /// It is the next, and does not lie within the message.
    Beyond { size: i128 },
    /// It is not the next.
    Elsewhere,
}

// The node where the fields end.
fn end_of_path(entries: &[Entry]) -> Node
    ensures { result ≡ end_node (places entries.now) }
{
    match entries.last() {
        None => Node::Start,
        Some(entry) => Node::At(entry.field),
    }
}

/// Where the link leads that is taken behind the fields so far.
pub fn taken(plan: &Plan, env: &Env) -> Taken
    requires { IsUnderway plan.now env.now }
    ensures { (domains : List Domain) (m : Graph) → StandsForSound domains m plan.now → IsTaken domains m env.now (end_node env.now.fields) result }
{
    plan.next(end_of_path(env.entries()), env)
}

// Where the field lies, if it is the next.
fn place_of(plan: &Plan, env: &Env, field: FieldId) -> Place
    requires { IsUnderway plan.now env.now }
    ensures { (domains : List Domain) (m : Graph) → StandsForSound domains m plan.now → IsPlaced domains m env.now field result }
{
    match taken(plan, env) {
        Taken::To {
            field: next,
            first,
            size,
        } => {
            if next == field {
                return Place::Within { first, size };
            }
            Place::Elsewhere
        }
        Taken::Short {
            field: next,
            size,
            ..
        } => {
            if next == field {
                return Place::Beyond { size };
            }
            Place::Elsewhere
        }
        Taken::Null => Place::Elsewhere,
        Taken::Nothing => Place::Elsewhere,
    }
}

/// The place of a scalar for which the number is meant, or why it can't be put there.
pub fn place_of_number(
    plan: &Plan,
    env: &Env,
    field: FieldId,
    number: u64,
) -> Result<(u32, u32), PutFault>
    requires underway { IsUnderway plan.now env.now }
    requires scalar { IsScalar plan.now field }
    ensures place { IfOk result (λ r. (domains : List Domain) (m : Graph) → StandsForSound domains m plan.now → LiesAt domains m env.now field r.0 r.1) }
    ensures value { IfOk result (λ r. (domains : List Domain) (m : Graph) → StandsForSound domains m plan.now → HasValue domains m env.now field (Number number)) }
    ensures refused { IfErr result (λ fault. (domains : List Domain) (m : Graph) (before : List Assigned) → StandsForSound domains m plan.now → Refuses domains m env.now before field (Number number) fault) }
{
    match place_of(plan, env, field) {
        Place::Within { first, size } => {
            if plan.allows(field, number) {
                return Ok((first, size));
            }
            Err(PutFault::Value)
        }
        Place::Beyond { .. } => {
            if plan.allows(field, number) {
                return Err(PutFault::Short);
            }
            Err(PutFault::Value)
        }
        Place::Elsewhere => Err(PutFault::NotNext),
    }
}

/// The place of a field for which these bytes are meant, or why they can't be put there.
pub fn place_of_bytes(
    plan: &Plan,
    env: &Env,
    field: FieldId,
    bytes: &[u8],
) -> Result<(u32, u32), PutFault>
    requires underway { IsUnderway plan.now env.now }
    requires opaque { IsOpaque plan.now field }
    ensures place { IfOk result (λ r. (domains : List Domain) (m : Graph) → StandsForSound domains m plan.now → LiesAt domains m env.now field r.0 r.1) }
    ensures size { IfOk result (λ r. r.1 ≡ 8 * length bytes.now) }
    ensures refused { IfErr result (λ fault. (domains : List Domain) (m : Graph) (before : List Assigned) → StandsForSound domains m plan.now → Refuses domains m env.now before field (Bytes bytes.now) fault) }
{
    let wanted = 8 * bytes.len() as i128;
    match place_of(plan, env, field) {
        Place::Within { first, size } => {
            if size as i128 == wanted {
                return Ok((first, size));
            }
            Err(PutFault::Size)
        }
        Place::Beyond { size } => {
            if size == wanted {
                return Err(PutFault::Short);
            }
            Err(PutFault::Size)
        }
        Place::Elsewhere => Err(PutFault::NotNext),
    }
}

/// The field that is the next, if any.
pub fn next_field(plan: &Plan, env: &Env) -> Option<FieldId>
    requires { IsUnderway plan.now env.now }
    ensures some { IfSome result (λ f. (domains : List Domain) (m : Graph) → StandsForSound domains m plan.now → IsNext m env.now f) }
    ensures none { IfNone result ((domains : List Domain) (m : Graph) (f : ℕ) → StandsForSound domains m plan.now → IsNext m env.now f → ⊥) }
{
    match taken(plan, env) {
        Taken::To { field, .. } => Some(field),
        Taken::Short { field, .. } => Some(field),
        Taken::Null => None,
        Taken::Nothing => None,
    }
}

/// Whether the path ends here.
pub fn is_at_null(plan: &Plan, env: &Env) -> bool
    requires { IsUnderway plan.now env.now }
    ensures { (domains : List Domain) (m : Graph) → StandsForSound domains m plan.now → (IsTrue result ↔ IsAtNull domains m env.now) }
{
    match taken(plan, env) {
        Taken::To { .. } => false,
        Taken::Short { .. } => false,
        Taken::Null => true,
        Taken::Nothing => false,
    }
}

// Whether the last field ends with the message.
fn ends(env: &Env) -> bool
    ensures { IsTrue result ↔ (end_of env.now.fields ≡ bits_of env.now) }
{
    match env.entries().last() {
        None => {
            if env.total() == 0 {
                return true;
            }
            false
        }
        Some(entry) => {
            if entry.first as u64 + entry.size as u64 == env.total() as u64 * 8 {
                return true;
            }
            false
        }
    }
}

/// Whether the path ends here, and the message with it.
pub fn is_done(plan: &Plan, env: &Env) -> bool
    requires { IsUnderway plan.now env.now }
    ensures { (domains : List Domain) (m : Graph) → StandsForSound domains m plan.now → (IsTrue result ↔ IsDone domains m env.now) }
{
    if is_at_null(plan, env) {
        return ends(env);
    }
    false
}
