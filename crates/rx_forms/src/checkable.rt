//! Elaborated messages that keep the path limit, and specifications of such messages.

ghost use Rattle.std.specs.Prelude.{◌≡◌, length, option_map, slice_get};
ghost use Rattle.rx_graph.specs.Graph.{domains_of, graph_of};
ghost use Rattle.rx_graph.specs.Typed.{typed};
ghost use Rattle.rx_forms.specs.Checkable.{IsCheckable, AllCheckable, messages_of};

use rx_graph::{Elaborated, Message, Spec};
use std::marker::Model;

/// An elaborated message that keeps the path limit, so that it can be checked.
#[derive(Drop)]
pub struct Checkable<'s> {
    message: Elaborated<'s>,
}

impl<'s> Model for Checkable<'s> {
    ghost use Rattle.rx_graph.specs.Typed.{Typed, typed_code};

    ghost Value = { Typed };

    ghost coded = { typed_code };

    ghost use Rattle.rx_forms.specs.Checkable.{IsCheckable};

    ghost view = { λ c. c.message };

    ghost invariant = { λ c. IsCheckable c.message };
}

impl<'s> Checkable<'s> {
    /// A message of a specification.
    pub fn over(spec: &'s Spec, message: &'s Message) -> Checkable<'s>
        requires { IsCheckable (typed (domains_of spec.now) (graph_of message.now)) }
        ensures { result ≡ typed (domains_of spec.now) (graph_of message.now) }
    {
        Checkable {
            message: Elaborated::over(spec, message),
        }
    }

    /// The message is elaborated and keeps the path limit.
    pub fn is_checkable(&self)
        ensures { IsCheckable self.now }
    {
        let _ = &self.message;
    }

    /// The message, without the limit.
    pub fn elaborated(&self) -> &Elaborated<'s>
        ensures { result.now ≡ self.now }
    {
        &self.message
    }
}

/// A specification each of whose messages can be checked.
#[derive(Drop)]
pub struct CheckableSpec {
    spec: Spec,
}

impl Model for CheckableSpec {
    ghost use Rattle.rx_forms.specs.Checkable.{TypedMessages, typed_messages_code};

    ghost Value = { TypedMessages };

    ghost coded = { typed_messages_code };

    ghost use Rattle.rx_forms.specs.Checkable.{messages_of, AllCheckable};

    ghost view = { λ s. messages_of s.spec };

    ghost invariant = { λ s. AllCheckable (messages_of s.spec) };
}

impl CheckableSpec {
    /// A specification of which this is known.
    pub fn of(spec: Spec) -> CheckableSpec
        requires { AllCheckable (messages_of spec) }
        ensures { result ≡ messages_of spec }
    {
        CheckableSpec { spec }
    }

    /// How many messages there are.
    pub fn count(&self) -> usize
        ensures { result ≡ length self.now.graphs }
    {
        self.spec.messages.len()
    }

    /// A message by its place in the list.
    pub fn message(&self, place: usize) -> Option<Checkable<'_>>
        ensures { result ≡ option_map (typed self.now.domains) (slice_get self.now.graphs place) }
    {
        match self.spec.messages.get(place) {
            Some(message) => Some(Checkable::over(&self.spec, message)),
            None => None,
        }
    }
}
