//! Paths that are followed link by link, with a number for each scalar.

ghost use Rattle.std.specs.Prelude.{◌≡◌, ◌++◌, [], List, ℕ, Option, IfSome, IsTrue, ◌↔◌, ◌∷◌, false, pos, Some, None, MatchOption, slice_get};
ghost use Rattle.rx_types.specs.Domain.{Domain, domain_of};
ghost use Rattle.rx_types.specs.Environment.{Placed, in_message, place_of, placed, places, end_of};
ghost use Rattle.rx_graph.specs.Checks.{is_node};
ghost use Rattle.rx_graph.specs.Graph.{arrow_of, domains_of, graph_of, type_of, overlay_of};
ghost use Rattle.rx_graph.specs.Paths.{first_of, size_of_target, HasNumber, LiesWithin, Places, Leads, IsPartial};

use crate::evaluated::{evaluated, is_true};
use rx_graph::{Link, Message, Node, Spec};
use rx_types::{Entry, Env, FieldId, ScalarType, contains};

/// The scalar type of a field that is a scalar.
pub fn scalar_of<'a>(message: &Message, spec: &'a Spec, field: FieldId) -> Option<&'a ScalarType>
    ensures { MatchOption result (type_of (domains_of spec.now) (graph_of message.now) field ≡ None) (λ t. type_of (domains_of spec.now) (graph_of message.now) field ≡ Some (domain_of t.now)) }
{
    match rx_graph::scalar_of(spec.scalars.as_slice(), message, field) {
        Some(scalar) => Some(scalar),
        None => None,
    }
}

/// Whether two nodes are one.
pub fn is_same(left: Node, right: Node) -> bool
    ensures same { IsTrue result ↔ (left ≡ right) }
    ensures node { result ≡ is_node left right }
{
    match (left, right) {
        (Node::Start, Node::Start) => true,
        (Node::At(one), Node::At(other)) => one == other,
        (Node::Null, Node::Null) => true,
        _ => false,
    }
}

/// The end of the last field, in bits.
pub fn end(entries: &[Entry]) -> i128
    ensures { result ≡ end_of (places entries.now) }
{
    match entries.last() {
        None => 0,
        Some(entry) => entry.first as i128 + entry.size as i128,
    }
}

/// The First of the link's target, if it has a value.
pub fn first(link: &Link, env: &Env) -> Option<i128>
    ensures { IfSome result (λ z. z ≡ first_of (arrow_of link.now) env.now) }
{
    match &link.first {
        None => Some(end(env.entries())),
        Some(expr) => evaluated(expr, env),
    }
}

/// The Size of the link's target, a field of bytes, if it has a value.
fn size_of_bytes(link: &Link, env: &Env) -> Option<i128>
    ensures { IfSome result (λ z. z ≡ size_of_target None (arrow_of link.now) env.now) }
{
    match &link.size {
        None => {
            let first = first(link, env)?;
            (env.total() as i128 * 8).checked_sub(first)
        }
        Some(expr) => evaluated(expr, env),
    }
}

/// The Size of the link's target, field `field`, if it has a value.
pub fn size(message: &Message, spec: &Spec, link: &Link, field: FieldId, env: &Env) -> Option<i128>
    ensures { IfSome result (λ z. z ≡ size_of_target (type_of (domains_of spec.now) (graph_of message.now) field) (arrow_of link.now) env.now) }
{
    match scalar_of(message, spec, field) {
        Some(scalar) => Some(scalar.size() as i128),
        None => size_of_bytes(link, env),
    }
}

// The place of bits that lie within the message.
fn within(first: i128, size: i128, env: &Env) -> Option<(u32, u32)>
    ensures place { IfSome result (λ r. (first ≡ pos r.0) × (size ≡ pos r.1)) }
    ensures within { IfSome result (λ r. LiesWithin env.now first size) }
{
    let bits = env.total() as i128 * 8;
    if first >= 0 && size >= 0 && first <= bits && size <= bits - first {
        let first = u32::try_from(first).ok()?;
        let size = u32::try_from(size).ok()?;
        Some((first, size))
    } else {
        None
    }
}

// The next number if the field is a scalar that has it, else 0, and the numbers behind it.
fn number<'n>(
    message: &Message,
    spec: &Spec,
    field: FieldId,
    numbers: &'n [u64],
) -> Option<(u64, &'n [u64])>
    ensures { IfSome result (λ r. HasNumber (type_of (domains_of spec.now) (graph_of message.now) field) r.0) }
{
    let Some(scalar) = scalar_of(message, spec, field) else {
        return Some((0, numbers));
    };
    let (number, rest) = numbers.split_first()?;
    if contains(scalar, *number) {
        Some((*number, rest))
    } else {
        None
    }
}

/// The field that a field lies over, if any.
pub fn overlay(message: &Message, field: FieldId) -> Option<FieldId>
    ensures { result ≡ overlay_of (slice_get message.now.fields.items field) }
{
    match message.fields.get(field as usize) {
        Some(field) => field.overlay,
        None => None,
    }
}

// Whether a field is a scalar.
fn is_scalar(message: &Message, spec: &Spec, field: FieldId) -> bool
    ensures { result ≡ false → type_of (domains_of spec.now) (graph_of message.now) field ≡ None }
{
    match scalar_of(message, spec, field) {
        Some(_) => true,
        None => false,
    }
}

// Whether a scalar that lies over an earlier one, which is as long, has its number.
fn agrees(message: &Message, spec: &Spec, entry: Entry, env: &Env) -> bool
    ensures { IsTrue result → (x : ℕ) (s t : Domain) → overlay_of (slice_get message.now.fields.items entry.field) ≡ Some x → type_of (domains_of spec.now) (graph_of message.now) entry.field ≡ Some s → type_of (domains_of spec.now) (graph_of message.now) x ≡ Some t → (place_of x env.now.fields).size ≡ pos entry.size → entry.number ≡ (place_of x env.now.fields).number }
{
    let Some(below) = overlay(message, entry.field) else {
        return true;
    };
    if !is_scalar(message, spec, entry.field) || !is_scalar(message, spec, below) {
        return true;
    }
    let below = env.entry(below);
    below.size != entry.size || below.number == entry.number
}

// The field to which the link leads, if it is taken and places it, and the numbers behind its own.
fn placed_by<'n>(
    message: &Message,
    spec: &Spec,
    link: &Link,
    env: &Env,
    numbers: &'n [u64],
) -> Option<(Entry, &'n [u64])>
    ensures { IfSome result (λ r. Places (domains_of spec.now) (graph_of message.now) (arrow_of link.now) env.now (placed r.0)) }
{
    let Node::At(field) = link.target else {
        return None;
    };
    if !is_true(&link.condition, env) {
        return None;
    }
    let first = first(link, env)?;
    let size = size(message, spec, link, field, env)?;
    let (first, size) = within(first, size, env)?;
    let (number, rest) = number(message, spec, field, numbers)?;
    let entry = Entry {
        field,
        first,
        size,
        number,
    };
    if agrees(message, spec, entry, env) {
        Some((entry, rest))
    } else {
        None
    }
}

/// The fields of a path, and where it ends.
pub type Followed = (Env, Node);

// Goes on from a node along the links of a path, if each is taken and places its target.
fn go_on(
    message: &Message,
    spec: &Spec,
    at: Node,
    env: Env,
    path: &[u16],
    numbers: &[u64],
) -> Option<Followed>
    ensures { IfSome result (λ r. (fields : List Placed) × (r.0 ≡ in_message env.total (env.fields ++ fields)) × Leads (domains_of spec.now) (graph_of message.now) env.total env.fields at path.now fields r.1) }
{
    let Some((index, path)) = path.split_first() else {
        return Some((env, at));
    };
    let link = message.links.get(*index as usize)?;
    if !is_same(link.source, at) {
        return None;
    }
    let (entry, numbers) = placed_by(message, spec, link, &env, numbers)?;
    let env = with(env, entry)?;
    go_on(message, spec, Node::At(entry.field), env, path, numbers)
}

// One more field, if there is room and it is a new one.
fn with(mut env: Env, entry: Entry) -> Option<Env>
    ensures { IfSome result (λ more. more ≡ in_message env.total (env.fields ++ placed entry ∷ [])) }
{
    if env.has(entry.field) || env.entries().len() >= 144 {
        return None;
    }
    env.push(entry);
    Some(env)
}

/// Follows a path in a message of `total` bytes, with a number for each of its scalars, if it is partial with them.
pub fn follow(
    message: &Message,
    spec: &Spec,
    path: &[u16],
    total: u32,
    numbers: &[u64],
) -> Option<Followed>
    ensures { IfSome result (λ r. IsPartial (domains_of spec.now) (graph_of message.now) total path.now r.0.fields r.1 × (r.0 ≡ in_message total r.0.fields)) }
{
    if total >= 1 << 24 {
        return None;
    }
    go_on(message, spec, Node::Start, Env::new(total), path, numbers)
}
