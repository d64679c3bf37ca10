//! What holds of every message, each as the clause of a function that does nothing.

ghost use Rattle.rx_graph.specs.Paths.{Exclusive};
ghost use Rattle.rx_decode.specs.Decoded.{HasOneAnswer};

use rx_graph::Elaborated;

/// What is decoded of a buffer is determined by it: the text, or the reason.
pub fn one_answer(message: &Elaborated<'_>)
    requires { Exclusive message.now.domains message.now.graph }
    ensures { HasOneAnswer message.now.domains message.now.graph }
{}
