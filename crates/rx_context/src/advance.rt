//! Where the link that is taken leads.

ghost use Rattle.std.specs.Prelude.{◌≡◌, ℕ, ◌+◌, ◌*◌, ◌≤◌, ◌^◌, List, slice_get, IfSome, IfNone, pos, ◌<ℤ◌};
ghost use Rattle.std.specs.Option.{option_copied};
ghost use Rattle.rx_types.specs.Domain.{Domain};
ghost use Rattle.rx_types.specs.Environment.{places, end_of};
ghost use Rattle.rx_types.specs.Value.{IsSmall};
ghost use Rattle.rx_graph.specs.Graph.{Arrow, Graph, graph_of, arrow_of};
ghost use Rattle.rx_graph.specs.Cycles.{IsLink};
ghost use Rattle.rx_graph.specs.Paths.{IsTrue, first_of, size_of_target, LiesWithin};
ghost use Rattle.rx_graph.specs.Stuck.{field_of as field_of_lem};
ghost use Rattle.rx_context.specs.Plan.{planned, domain_if_any, StandsFor, IsKnown, HasValues};
ghost use Rattle.rx_context.specs.Steps.{IsTaken};
ghost use Rattle.rx_context.specs.declared.advance.Taken.TheVariants.{Short};

use crate::kept::Kept;
use rx_graph::{Link, Node};
use rx_types::{Entry, Env, FieldId, ScalarType, truth, value};

/// Where the link of a node that is taken leads.
#[derive(Clone, Copy, Debug, PartialEq, Eq)]
pub enum Taken {
    /// To a field, which lies within the message.
    To {
        field: FieldId,
        first: u32,
        size: u32,
    },
    /// To a field that does not lie within the message.
    Short {
        field: FieldId,
        first: i128,
        size: i128,
    },
    /// To null.
    Null,
    /// No link is taken.
    Nothing,
}

/// Where the link of the node leads that is taken at the end of a path.
pub fn advance(kept: &Kept, at: Node, env: &Env) -> Taken
    requires { IsKnown (planned kept.now) env.now }
    ensures { (domains : List Domain) (m : Graph) → StandsFor domains m (planned kept.now) → IsTaken domains m env.now at result }
{
    let Some(link) = taken_link(kept, at, env) else {
        return Taken::Nothing;
    };
    let Node::At(field) = link.target else {
        return Taken::Null;
    };
    match place(kept.scalar(field), link, env) {
        Some((first, size)) => Taken::To { field, first, size },
        None => beyond(field, kept.scalar(field), link, env),
    }
}

// The first link of the node whose condition is true.
fn taken_link<'p>(kept: &'p Kept, at: Node, env: &Env) -> Option<&'p Link>
    requires { IsKnown (planned kept.now) env.now }
    ensures some { IfSome result (λ link. (i : ℕ) × IsLink (graph_of kept.now.message) i (arrow_of link.now) × (link.now.source ≡ at) × IsTrue (arrow_of link.now) env.now) }
    ensures none { IfNone result ((i : ℕ) (link : Arrow) → IsLink (graph_of kept.now.message) i link → link.source ≡ at → IsTrue link env.now → ⊥) }
{
    let found = kept.span(at);
    let links = kept.message.links.as_slice();
    for index in found.from..found.end.min(links.len()) {
        let link = &links[index];
        if link.source.is(at) && truth(&link.condition, env) {
            return Some(link);
        }
    }
    None
}

// The place of the link's target, if it lies within the message.
fn place(scalar: Option<&ScalarType>, link: &Link, env: &Env) -> Option<(u32, u32)>
    requires { HasValues (arrow_of link.now) env.now }
    ensures some { IfSome result (λ r. (first_of (arrow_of link.now) env.now ≡ pos r.0) × (size_of_target (domain_if_any (option_copied scalar.entry)) (arrow_of link.now) env.now ≡ pos r.1) × (r.0 + r.1 ≤ env.now.total * 8)) }
    ensures none { IfNone result (LiesWithin env.now (first_of (arrow_of link.now) env.now) (size_of_target (domain_if_any (option_copied scalar.entry)) (arrow_of link.now) env.now) → ⊥) }
{
    let first = first(link, env);
    let size = size(scalar, link, first, env);
    let bits = env.total() as i128 * 8;
    if first >= 0 && size >= 0 && first + size <= bits {
        Some((first as u32, size as u32))
    } else {
        None
    }
}

// The link's target does not lie within the message.
fn beyond(field: FieldId, scalar: Option<&ScalarType>, link: &Link, env: &Env) -> Taken
    requires { HasValues (arrow_of link.now) env.now }
    ensures { result ≡ Short field (first_of (arrow_of link.now) env.now) (size_of_target (domain_if_any (option_copied scalar.entry)) (arrow_of link.now) env.now) }
{
    let first = first(link, env);
    let size = size(scalar, link, first, env);
    Taken::Short { field, first, size }
}

// Where the link's target begins.
fn first(link: &Link, env: &Env) -> i128
    requires { HasValues (arrow_of link.now) env.now }
    ensures value { result ≡ first_of (arrow_of link.now) env.now }
    ensures small { IsSmall result }
{
    match &link.first {
        None => end(env.entries()),
        Some(expr) => value(expr, env),
    }
}

// The size of the link's target, which begins at `first`.
fn size(scalar: Option<&ScalarType>, link: &Link, first: i128, env: &Env) -> i128
    requires values { HasValues (arrow_of link.now) env.now }
    requires begins { first ≡ first_of (arrow_of link.now) env.now }
    requires small { IsSmall first }
    ensures value { result ≡ size_of_target (domain_if_any (option_copied scalar.entry)) (arrow_of link.now) env.now }
    ensures bounded { result <ℤ pos (2 ^ 101) }
{
    match scalar {
        Some(scalar) => scalar.size() as i128,
        None => match &link.size {
            Some(expr) => value(expr, env),
            None => env.total() as i128 * 8 - first,
        },
    }
}

/// The end of the last field, in bits.
pub fn end(entries: &[Entry]) -> i128
    ensures value { result ≡ end_of (places entries.now) }
    ensures small { IsSmall result }
{
    match entries.last() {
        None => 0,
        Some(entry) => entry.first as i128 + entry.size as i128,
    }
}

/// The field of a node, if it is one.
pub fn field_of(at: Node) -> Option<FieldId>
    ensures { result ≡ field_of_lem at }
{
    match at {
        Node::At(field) => Some(field),
        _ => None,
    }
}
