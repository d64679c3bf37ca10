//! Whether the message that a valuation makes is short enough.

ghost use Rattle.std.specs.Prelude.{◌↔◌, ◌≤◌, List, IsTrue};
ghost use Rattle.rx_types.specs.Domain.{Domain};
ghost use Rattle.rx_graph.specs.Fits.{length_of};
ghost use Rattle.rx_graph.specs.Graph.{Graph};
ghost use Rattle.rx_context.specs.Plan.{StandsFor};

use crate::measuring::own_bits;
use rx_context::Plan;
use rx_values::Valuation;

/// Whether the message that the valuation makes has at most so many bytes.
pub fn is_within(plan: &Plan, valuation: &Valuation, limit: usize) -> bool
    ensures { (domains : List Domain) (m : Graph) → StandsFor domains m plan.now → (IsTrue result ↔ length_of domains m valuation.now ≤ limit) }
{
    let most = 8 * limit as u128 + 7;
    let mut bits = 0u128;
    for entry in valuation.entries() {
        let own = own_bits(plan, entry.0, &entry.1);
        if own > most - bits {
            return false;
        }
        bits += own;
    }
    true
}
