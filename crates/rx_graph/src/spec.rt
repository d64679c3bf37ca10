//! Specifications: the scalar types, messages and refinements of packages.

ghost use Rattle.std.specs.Prelude.{◌≡◌, IfOk, option_map};
ghost use Rattle.rx_types.specs.Domain.{domain_of};
ghost use Rattle.rx_graph.specs.Graph.{domains_in, graph_of, named_domain_of, type_of};

use crate::fault::NoMemory;
use crate::message::Message;
use rx_types::{Expr, FieldId, FieldType, Name, ScalarType};
use std::alloc::Global;

/// A message's place in its specification.
pub type MessageId = u32;

/// A scalar type of a package. Boolean is the first of all, and its package's name is empty.
#[derive(Debug, Drop)]
pub struct Scalar {
    pub package: Name,
    pub name: Name,
    pub kind: ScalarType,
}

/// The opaque field of a message holds the inner message, or nothing, where the condition is true.
#[derive(Debug, Drop)]
pub struct Refinement {
    pub of: MessageId,
    pub field: FieldId,
    pub inner: Option<MessageId>,
    pub condition: Expr,
}

/// All scalar types, messages and refinements, in order.
#[derive(Debug, Drop)]
pub struct Spec {
    pub scalars: Vec<Scalar>,
    pub messages: Vec<Message>,
    pub refinements: Vec<Refinement>,
}

impl Scalar {
    /// The same type once more.
    pub fn copy(&self, alloc: Global) -> Result<Scalar, NoMemory>
        ensures { IfOk result (λ scalar. named_domain_of scalar ≡ named_domain_of self.now) }
    {
        let package = self.package.copy(alloc)?;
        let name = self.name.copy(alloc)?;
        let kind = self.kind.copy(alloc)?;
        Ok(Scalar {
            package,
            name,
            kind,
        })
    }
}

/// The scalar type of a message's field, if it is a scalar.
pub fn scalar_of<'s>(
    scalars: &'s [Scalar],
    message: &Message,
    field: FieldId,
) -> Option<&'s ScalarType>
    ensures { option_map (λ t. domain_of t.now) result ≡ type_of (domains_in scalars.entry.now) (graph_of message.now) field }
{
    match message.fields.get(field as usize)?.kind {
        FieldType::Scalar(id) => {
            let scalar = scalars.get(id as usize)?;
            Some(&scalar.kind)
        }
        FieldType::Opaque => None,
        FieldType::Sequence(_) => None,
    }
}
