//! The links that leave each node.

ghost use Rattle.std.specs.Prelude.{◌≡◌, IfOk, length};
ghost use Rattle.rx_cycle.specs.Graph.{AreBelow};
ghost use Rattle.rx_cycle.specs.Ways.{ListsLinks};

use crate::ends::Ends;
use crate::fault::NoMemory;
use std::alloc::Global;

/// Chains of links, from the last one of each node back. A link is counted from 1, and 0 is none.
#[derive(Drop)]
pub(crate) struct Ways {
    pub(crate) last: Vec<usize>,
    pub(crate) previous: Vec<usize>,
}

impl Ways {
    /// The chains of these links between so many nodes.
    pub(crate) fn make(alloc: Global, nodes: usize, links: &[Ends]) -> Result<Ways, NoMemory>
        requires { AreBelow nodes links.now }
        ensures { IfOk result (λ ways. ListsLinks links.now nodes ways.last.items ways.previous.items) }
    {
        let mut last = vec![in alloc; 0usize; nodes]?;
        let mut previous = Vec::new(alloc);
        for index in 0..links.len() {
            let source = links[index].source;
            previous.push(last[source])?;
            last[source] = index + 1;
        }
        Ok(Ways { last, previous })
    }
}
