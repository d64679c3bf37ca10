//! The first link that lies on a cycle.
//! - ranks that never rise along a link pass over the links along which they fall
//! - a search from the target decides each other link, and the first that returns ends it
//! - the ranks of a walk leave none but the links on cycles, so one search is made; ranks that said less would cost more searches, and no answer

ghost use Rattle.std.specs.Prelude.{◌≡◌, ◌<◌, ◌↔◌, IsTrue, IfOk, length};
ghost use Rattle.rx_cycle.specs.Graph.{AreBelow, LeadsTo, Returns, TellsFirst, first_returning};
ghost use Rattle.rx_cycle.specs.Ways.{ListsLinks, NeverRises};

use crate::ends::Ends;
use crate::fault::NoMemory;
use crate::rank::{entry, ranks};
use crate::reach::leads;
use crate::ways::Ways;
use std::alloc::Global;

/// The first link, in order, whose target leads back to its source, by its place in the list.
pub fn first_to_return(
    alloc: Global,
    nodes: usize,
    links: &[Ends],
) -> Result<Option<usize>, NoMemory>
    requires { AreBelow nodes links.now }
    ensures first { IfOk result (λ first. TellsFirst links.now first) }
    ensures value { IfOk result (λ first. first ≡ first_returning links.now) }
{
    let ways = Ways::make(alloc, nodes, links)?;
    let ranks = ranks(alloc, &ways, links)?;
    for index in 0..links.len() {
        if returns(alloc, &ways, ranks.as_slice(), links, index)? {
            return Ok(Some(index));
        }
    }
    Ok(None)
}

// Whether the target of a link leads back to its source.
fn returns(
    alloc: Global,
    ways: &Ways,
    ranks: &[usize],
    links: &[Ends],
    index: usize,
) -> Result<bool, NoMemory>
    requires below { AreBelow (length ways.now.last.items) links.now }
    requires lists { ListsLinks links.now (length ways.now.last.items) ways.now.last.items ways.now.previous.items }
    requires ranks { NeverRises ranks.now links.now }
    requires index { index < length links.now }
    ensures { IfOk result (λ returns. IsTrue returns ↔ Returns links.now index) }
{
    let source = links[index].source;
    let target = links[index].target;
    if entry(ranks, target) < entry(ranks, source) {
        return Ok(false);
    }
    leads(alloc, ways, links, target, source)
}
