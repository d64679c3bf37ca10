//! What holds of every valuation, each as the clause of a function that does nothing.

ghost use Rattle.rx_values.specs.Laws.{AreNamed, ReadsBack};

use rx_graph::Elaborated;

/// What is printed of a valuation reads as the same valuation.
pub fn printed_reads_back(message: &Elaborated<'_>)
    requires { AreNamed message.now.domains message.now.graph }
    ensures { ReadsBack message.now.domains message.now.graph }
{
    message.is_known();
}
