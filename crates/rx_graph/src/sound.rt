//! Sound messages: elaborated messages whose checks all hold.

ghost use Rattle.std.specs.Prelude.{◌≡◌};
ghost use Rattle.rx_graph.specs.Elaborated.{IsSound};
ghost use Rattle.rx_graph.specs.Graph.{domains_of, graph_of};
ghost use Rattle.rx_graph.specs.Typed.{typed, HasBoolean, IsKnown};

use crate::elaborated::Elaborated;
use crate::message::Message;
use crate::spec::Spec;
use std::marker::Model;

/// An elaborated message whose checks all hold.
#[derive(Drop)]
pub struct Sound<'s> {
    message: Elaborated<'s>,
}

impl<'s> Model for Sound<'s> {
    ghost use Rattle.rx_graph.specs.Typed.{Typed, typed_code};

    ghost Value = { Typed };

    ghost coded = { typed_code };

    ghost use Rattle.rx_graph.specs.Typed.{IsKnownSound};

    ghost view = { λ s. s.message };

    ghost invariant = { λ s. IsKnownSound s.message };
}

impl<'s> Sound<'s> {
    /// A message of a specification.
    pub fn over(spec: &'s Spec, message: &'s Message) -> Sound<'s>
        requires boolean { HasBoolean (domains_of spec.now) }
        requires sound { IsSound (domains_of spec.now) (graph_of message.now) }
        ensures { result ≡ typed (domains_of spec.now) (graph_of message.now) }
    {
        Sound {
            message: Elaborated::over(spec, message),
        }
    }

    /// An elaborated message whose checks all hold.
    pub fn of(message: &Elaborated<'s>) -> Sound<'s>
        requires { IsSound message.now.domains message.now.graph }
        ensures { result ≡ message.now }
    {
        Sound {
            message: Elaborated::with(message.scalars(), message.message()),
        }
    }

    /// Its checks all hold.
    pub fn is_sound(&self)
        ensures known { IsKnown self.now }
        ensures sound { IsSound self.now.domains self.now.graph }
    {
        let _ = &self.message;
    }

    /// The message, without its checks.
    pub fn elaborated(&self) -> &Elaborated<'s>
        ensures { result.now ≡ self.now }
    {
        &self.message
    }
}
