//! Ranks of nodes that never rise along a link.
//! - a walk in depth meets each node once and gives it the next number; its lowest is the least
//!   number of a node without rank that is met again from it
//! - a node left with its own number as its lowest gives the next rank to all nodes without rank
//!   that were met since it
//! - so the rank falls along each link that lies on no cycle; nothing rests on that, and what rests on the ranks is tested

ghost use Rattle.std.specs.Prelude.{◌≡◌, ◌↔◌, IsTrue, IfOk, slice_index, vec_len};
ghost use Rattle.rx_cycle.specs.Ways.{NeverRises};

use crate::ends::Ends;
use crate::fault::NoMemory;
use crate::ways::Ways;
use std::alloc::Global;

// The walk: by node the link to follow next, counted from 1, the number, the lowest and the rank, with 0 for none;
// the nodes whose links are followed, and the nodes met without a rank, both in order.
#[derive(Drop)]
struct Walk {
    next: Vec<usize>,
    number: Vec<usize>,
    lowest: Vec<usize>,
    rank: Vec<usize>,
    path: Vec<usize>,
    open: Vec<usize>,
    met: usize,
    ranks: usize,
}

/// A rank for each node, or none where the ranks rise along a link.
pub(crate) fn ranks(alloc: Global, ways: &Ways, links: &[Ends]) -> Result<Vec<usize>, NoMemory>
    ensures { IfOk result (λ ranks. NeverRises ranks.items links.now) }
{
    let ranks = walk_all(alloc, ways, links)?;
    if never_rise(ranks.as_slice(), links) {
        Ok(ranks)
    } else {
        Ok(Vec::new(alloc))
    }
}

/// The entry of a node, or 0.
pub(crate) fn entry(list: &[usize], node: usize) -> usize
    ensures { result ≡ slice_index list.now node }
{
    list.get(node).copied().unwrap_or(0)
}

// Whether no link goes to a higher rank.
fn never_rise(ranks: &[usize], links: &[Ends]) -> bool
    ensures { IsTrue result → NeverRises ranks.now links.now }
{
    for link in links {
        if entry(ranks, link.source) < entry(ranks, link.target) {
            return false;
        }
    }
    true
}

// The ranks of a walk from every node.
fn walk_all(alloc: Global, ways: &Ways, links: &[Ends]) -> Result<Vec<usize>, NoMemory> {
    let nodes = ways.last.len();
    let mut walk = Walk {
        next: Vec::from_slice(alloc, ways.last.as_slice())?,
        number: vec![in alloc; 0usize; nodes]?,
        lowest: vec![in alloc; 0usize; nodes]?,
        rank: vec![in alloc; 0usize; nodes]?,
        path: Vec::new(alloc),
        open: Vec::new(alloc),
        met: 0,
        ranks: 0,
    };
    for node in 0..nodes {
        if entry(walk.number.as_slice(), node) == 0 {
            walk.from(ways, links, node)?;
        }
    }
    Ok(walk.rank)
}

impl Walk {
    // Walks from a node to all that it leads to.
    fn from(&mut self, ways: &Ways, links: &[Ends], node: usize) -> Result<(), NoMemory> {
        self.meet(node)?;
        for _ in 0..u64::MAX {
            match self.path.last() {
                None => break,
                Some(node) => {
                    let node = *node;
                    self.go_on(ways, links, node)?;
                }
            }
        }
        Ok(())
    }

    // Follows the next link of a node, or leaves it.
    fn go_on(&mut self, ways: &Ways, links: &[Ends], node: usize) -> Result<(), NoMemory> {
        let next = entry(self.next.as_slice(), node);
        if next == 0 {
            self.leave(node);
            return Ok(());
        }
        put(
            &mut self.next,
            node,
            entry(ways.previous.as_slice(), next - 1),
        );
        match links.get(next - 1) {
            None => Ok(()),
            Some(link) => self.follow(node, link.target),
        }
    }

    fn follow(&mut self, node: usize, target: usize) -> Result<(), NoMemory> {
        let number = entry(self.number.as_slice(), target);
        if number == 0 {
            return self.meet(target);
        }
        if entry(self.rank.as_slice(), target) == 0 {
            self.lower(node, number);
        }
        Ok(())
    }

    fn meet(&mut self, node: usize) -> Result<(), NoMemory> {
        self.met = self.met.saturating_add(1);
        put(&mut self.number, node, self.met);
        put(&mut self.lowest, node, self.met);
        self.open.push(node)?;
        self.path.push(node)?;
        Ok(())
    }

    fn lower(&mut self, node: usize, number: usize) {
        let lowest = entry(self.lowest.as_slice(), node);
        put(&mut self.lowest, node, lowest.min(number));
    }

    fn leave(&mut self, node: usize) {
        self.path.pop();
        let lowest = entry(self.lowest.as_slice(), node);
        if lowest == entry(self.number.as_slice(), node) {
            self.close(node);
        }
        if let Some(outer) = self.path.last() {
            let outer = *outer;
            self.lower(outer, lowest);
        }
    }

    // Gives the next rank to the nodes met since this one.
    fn close(&mut self, node: usize) {
        self.ranks = self.ranks.saturating_add(1);
        while let Some(member) = self.open.pop() {
            put(&mut self.rank, member, self.ranks);
            if member == node {
                break;
            }
        }
    }
}

// Writes the entry of a node, if it has one.
fn put(list: &mut Vec<usize>, node: usize, value: usize) {
    if let Some(entry) = list.get_mut(node) {
        *entry = value;
    }
}
