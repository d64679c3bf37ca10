//! What holds of valuations and buffers, each as the clause of a function that does nothing.

ghost use Rattle.rx_graph.specs.Paths.{Exclusive};
ghost use Rattle.rx_serial.specs.Laws.{NoneFits, HasOneRefusal, HasOneBuffer};

use rx_graph::{Elaborated, Sound};

/// Where the walk with a valuation is refused, no path fits the valuation.
pub fn unfit_valuations_fit_no_path(message: &Elaborated<'_>)
    requires { Exclusive message.now.domains message.now.graph }
    ensures { NoneFits message.now.domains message.now.graph }
{}

/// The walk with a valuation has one first refusal at most.
pub fn unfit_valuations_have_one_refusal(message: &Elaborated<'_>)
    requires { Exclusive message.now.domains message.now.graph }
    ensures { HasOneRefusal message.now.domains message.now.graph }
{}

/// One buffer reads as a valuation.
pub fn valuations_have_one_buffer(message: &Sound<'_>)
    ensures { HasOneBuffer message.now.domains message.now.graph }
{
    message.is_sound();
}
