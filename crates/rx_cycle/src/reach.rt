//! The nodes to which a node leads.
//! - a node that was reached waits until its links are followed, last reached first
//! - each node waits once, so each link is followed once

ghost use Rattle.std.specs.Prelude.{◌≡◌, ℕ, ◌<◌, ◌+◌, ◌↔◌, ◌++◌, ◌∷◌, [], IsTrue, IfOk, OnOk, not, length, count_by};
ghost use Rattle.rx_cycle.specs.Graph.{AreBelow, LeadsTo};
ghost use Rattle.rx_cycle.specs.Ways.{ListsLinks, HasReached};

use crate::ends::Ends;
use crate::fault::NoMemory;
use crate::ways::Ways;
use std::alloc::Global;

/// Whether one node leads to another.
pub(crate) fn leads(
    alloc: Global,
    ways: &Ways,
    links: &[Ends],
    from: usize,
    to: usize,
) -> Result<bool, NoMemory>
    requires below { AreBelow (length ways.now.last.items) links.now }
    requires lists { ListsLinks links.now (length ways.now.last.items) ways.now.last.items ways.now.previous.items }
    requires from { from < length ways.now.last.items }
    requires to { to < length ways.now.last.items }
    ensures { IfOk result (λ leads. IsTrue leads ↔ LeadsTo links.now from to) }
{
    let mut seen = vec![in alloc; false; ways.last.len()]?;
    let mut waiting = Vec::new(alloc);
    seen[from] = true;
    waiting.push(from)?;
    while let Some(node) = waiting.pop() {
        follow(ways, links, node, &mut seen, &mut waiting)?;
    }
    Ok(seen[to])
}

// Reaches the targets of a node's links.
fn follow(
    ways: &Ways,
    links: &[Ends],
    node: usize,
    seen: &mut Vec<bool>,
    waiting: &mut Vec<usize>,
) -> Result<(), NoMemory>
    requires below { AreBelow (length ways.now.last.items) links.now }
    requires lists { ListsLinks links.now (length ways.now.last.items) ways.now.last.items ways.now.previous.items }
    requires node { node < length ways.now.last.items }
    requires nodes { length seen.old.items ≡ length ways.now.last.items }
    ensures reached { OnOk result ((start : ℕ) → HasReached links.now (length ways.now.last.items) start seen.old.items waiting.old.items node (length links.now) → HasReached links.now (length ways.now.last.items) start seen.new.items waiting.new.items node 0) }
    ensures left { OnOk result (count_by not seen.new.items + length waiting.new.items ≡ count_by not seen.old.items + length waiting.old.items) }
{
    let mut next = ways.last[node];
    while next > 0 {
        let target = links[next - 1].target;
        if !seen[target] {
            seen[target] = true;
            waiting.push(target)?;
        }
        next = ways.previous[next - 1];
    }
    Ok(())
}
