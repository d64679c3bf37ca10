//! Links of elaborated messages.

ghost use Rattle.std.specs.Prelude.{◌≡◌, option_map, slice_get};
ghost use Rattle.rx_graph.specs.Elaborated.{IsElaboratedLink};
ghost use Rattle.rx_graph.specs.Graph.{arrow_of};
ghost use Rattle.rx_graph.specs.Typed.{typed, typed_link, IsLinked};

use crate::elaborated::Elaborated;
use crate::message::{Link, Node};
use std::marker::Model;

/// A link of an elaborated message.
#[derive(Drop)]
pub struct Linked<'s> {
    message: &'s Elaborated<'s>,
    link: &'s Link,
}

impl<'s> Model for Linked<'s> {
    ghost use Rattle.rx_graph.specs.Typed.{TypedLink, typed_link_code};

    ghost Value = { TypedLink };

    ghost coded = { typed_link_code };

    ghost use Rattle.rx_graph.specs.Graph.{arrow_of};
    ghost use Rattle.rx_graph.specs.Typed.{typed_link, IsLinked};

    ghost view = { λ l. typed_link l.message.now (arrow_of l.link.now) };

    ghost invariant = { λ l. IsLinked (typed_link l.message.now (arrow_of l.link.now)) };
}

impl<'s> Linked<'s> {
    /// The link at a place of the message's list.
    pub fn at(message: &'s Elaborated<'s>, place: u16) -> Option<Linked<'s>>
        ensures { result ≡ option_map (typed_link message.now) (slice_get message.now.graph.links place) }
    {
        message.is_known();
        match message.link(place) {
            Some(link) => Some(Linked { message, link }),
            None => None,
        }
    }

    /// It is one of the message's links, and the message is elaborated.
    pub fn is_linked(&self)
        ensures linked { IsLinked self.now }
        ensures elaborated { IsElaboratedLink self.now.domains self.now.graph self.now.arrow }
    {
        let _ = &self.link;
    }

    /// The message.
    pub fn message(&self) -> &'s Elaborated<'s>
        ensures { result.now ≡ typed self.now.domains self.now.graph }
    {
        self.message
    }

    /// The link as it stands in memory.
    pub fn link(&self) -> &'s Link
        ensures { arrow_of result.now ≡ self.now.arrow }
    {
        self.link
    }

    /// Where the link goes.
    pub fn target(&self) -> Node
        ensures { result ≡ self.now.arrow.target }
    {
        self.link.target
    }
}
