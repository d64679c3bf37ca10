//! Elaborated messages, with the scalar types of their fields.

ghost use Rattle.std.specs.Prelude.{◌≡◌, ◌≤◌, length, is_some, option_map, slice_get};
ghost use Rattle.rx_types.specs.Domain.{domain_of};
ghost use Rattle.rx_graph.specs.Graph.{arrow_of, arrows, domains_in, domains_of, graph_of, type_of, overlay_of};
ghost use Rattle.rx_graph.specs.Typed.{typed, IsKnown};

use crate::message::{Field, Link, Message};
use crate::spec::{Scalar, Spec, scalar_of};
use rx_types::{FieldId, ScalarType};
use std::marker::Model;

/// A message that was elaborated, with the scalar types that its fields name. The first of these is Boolean.
#[derive(Drop)]
pub struct Elaborated<'s> {
    scalars: &'s [Scalar],
    message: &'s Message,
}

impl<'s> Model for Elaborated<'s> {
    ghost use Rattle.rx_graph.specs.Typed.{Typed, typed_code};

    ghost Value = { Typed };

    ghost coded = { typed_code };

    ghost use Rattle.rx_graph.specs.Graph.{domains_in, graph_of};
    ghost use Rattle.rx_graph.specs.Typed.{typed, IsKnown};

    ghost view = { λ e. typed (domains_in e.scalars.now) (graph_of e.message.now) };

    ghost invariant = { λ e. IsKnown (typed (domains_in e.scalars.now) (graph_of e.message.now)) };
}

impl<'s> Elaborated<'s> {
    /// A message of a specification.
    pub fn over(spec: &'s Spec, message: &'s Message) -> Elaborated<'s>
        requires { IsKnown (typed (domains_of spec.now) (graph_of message.now)) }
        ensures { result ≡ typed (domains_of spec.now) (graph_of message.now) }
    {
        Elaborated::with(spec.scalars.as_slice(), message)
    }

    /// A message with its scalar types, where no specification is finished.
    pub fn with(scalars: &'s [Scalar], message: &'s Message) -> Elaborated<'s>
        requires { IsKnown (typed (domains_in scalars.now) (graph_of message.now)) }
        ensures { result ≡ typed (domains_in scalars.now) (graph_of message.now) }
    {
        Elaborated { scalars, message }
    }

    /// The message is elaborated.
    pub fn is_known(&self)
        ensures { IsKnown self.now }
    {
        let _ = &self.message;
    }

    /// The scalar types, each at the place that its id says.
    pub fn scalars(&self) -> &'s [Scalar]
        ensures { domains_in result.now ≡ self.now.domains }
    {
        self.scalars
    }

    /// The message as it stands in memory.
    pub fn message(&self) -> &'s Message
        ensures graph { graph_of result.now ≡ self.now.graph }
        ensures known { IsKnown self.now }
    {
        self.message
    }

    /// The fields, each at the place that its id says.
    pub fn fields(&self) -> &'s [Field]
        ensures fields { result.now ≡ self.now.graph.fields }
        ensures few { length result.now ≤ 128 }
    {
        self.message.fields.as_slice()
    }

    /// The links.
    pub fn links(&self) -> &'s [Link]
        ensures links { arrows result.now ≡ self.now.graph.links }
        ensures few { length result.now ≤ 512 }
    {
        self.message.links.as_slice()
    }

    /// A link by its place in the list.
    pub fn link(&self, place: u16) -> Option<&'s Link>
        ensures { option_map (λ l. arrow_of l.now) result ≡ slice_get self.now.graph.links place }
    {
        self.message.links.get(place as usize)
    }

    /// The scalar type of a field, if it is a scalar.
    pub fn scalar(&self, field: FieldId) -> Option<&'s ScalarType>
        ensures { option_map (λ t. domain_of t.now) result ≡ type_of self.now.domains self.now.graph field }
    {
        scalar_of(self.scalars, self.message, field)
    }

    /// Whether a field is a scalar.
    pub fn is_scalar(&self, field: FieldId) -> bool
        ensures { result ≡ is_some (type_of self.now.domains self.now.graph field) }
    {
        self.scalar(field).is_some()
    }

    /// The field that a field lies over, if any.
    pub fn overlay(&self, field: FieldId) -> Option<FieldId>
        ensures { result ≡ overlay_of (slice_get self.now.graph.fields field) }
    {
        match self.message.fields.get(field as usize) {
            Some(field) => field.overlay,
            None => None,
        }
    }

    /// Whether the bytes of its numbers stand in reverse.
    pub fn low_order(&self) -> bool
        ensures { result ≡ self.now.graph.low_order }
    {
        self.message.low_order
    }
}
