//! What a plan keeps of a message.

ghost use Rattle.std.specs.Prelude.{◌≡◌};
ghost use Rattle.std.specs.Option.{option_copied};
ghost use Rattle.rx_context.specs.Plan.{planned, slot_of, kept_type, domain_if_any, span_at};

use rx_graph::{Message, Node};
use rx_types::{FieldId, ScalarType};

/// Where the links of a node stand in the list of links: from the first of them up to the end, which is excluded.
#[derive(Clone, Copy, Debug, PartialEq, Eq)]
pub struct Span {
    pub from: usize,
    pub end: usize,
}

/// A copy of a message, the scalar type of each field that is a scalar, and where the links of each node stand, those
/// of the start first and then those of each field.
#[derive(Drop)]
pub struct Kept {
    pub message: Message,
    pub kinds: Vec<Option<ScalarType>>,
    pub spans: Vec<Span>,
}

impl Kept {
    /// The type of a field that is a scalar.
    pub fn scalar(&self, field: FieldId) -> Option<&ScalarType>
        ensures { domain_if_any (option_copied result) ≡ kept_type (planned self.now) field }
    {
        match self.kinds.get(field as usize) {
            Some(kind) => kind.as_ref(),
            None => None,
        }
    }

    /// Where the links of a node stand.
    pub fn span(&self, at: Node) -> Span
        ensures { result ≡ span_at (planned self.now) at }
    {
        match self.spans.get(slot(at)) {
            Some(span) => *span,
            None => Span { from: 0, end: 0 },
        }
    }
}

// The place of a node's span.
fn slot(at: Node) -> usize
    ensures { result ≡ slot_of at }
{
    match at {
        Node::Start => 0,
        Node::At(field) => field as usize + 1,
        Node::Null => 0,
    }
}
