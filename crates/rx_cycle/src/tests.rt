ghost use Rattle.std.specs.Prelude.{◌<◌};
ghost use Rattle.rx_cycle.specs.Graph.{AreBelow};

use crate::{Ends, NoMemory, first_to_return};
use std::alloc::Global;
use std::test::Fail;

// The first link that returns, among links between `nodes` nodes that are given as sources and targets in turn.
fn first(alloc: Global, nodes: usize, ends: &[usize]) -> Result<Option<usize>, NoMemory>
    requires { 0 < nodes }
{
    let mut links = Vec::new(alloc);
    for index in 0..ends.len() / 2 {
        links.push(Ends {
            source: ends[2 * index] % nodes,
            target: ends[2 * index + 1] % nodes,
        })?;
    }
    first_to_return(alloc, nodes, links.as_slice())
}

#[test]
fn tells_the_first_link_of_a_ring(rt: HostRuntime) -> Result<(), Fail> {
    let ring = first(rt.alloc(), 4, &[0, 2, 2, 3, 3, 2, 2, 1])?;
    assert_eq!(rt; ring, Some(1));
    let itself = first(rt.alloc(), 3, &[0, 1, 1, 2, 2, 2])?;
    assert_eq!(rt; itself, Some(2));
    let between = first(rt.alloc(), 5, &[2, 3, 1, 2, 2, 1, 3, 4, 4, 3])?;
    assert_eq!(rt; between, Some(1));
    Ok(())
}

#[test]
fn finds_none_where_ways_only_meet(rt: HostRuntime) -> Result<(), Fail> {
    let meeting = first(rt.alloc(), 4, &[0, 1, 0, 2, 1, 3, 2, 3])?;
    assert_eq!(rt; meeting, None);
    let none = first(rt.alloc(), 1, &[])?;
    assert_eq!(rt; none, None);
    Ok(())
}

// A long way between two rings stands before them in the list.
#[test]
fn passes_over_a_long_way_between_rings(rt: HostRuntime) -> Result<(), Fail> {
    let mut ends = Vec::new(rt.alloc());
    for node in 0..60_000usize {
        ends.push(node)?;
        ends.push(node + 1)?;
    }
    ends.push(0)?;
    ends.push(0)?;
    ends.push(60_000)?;
    ends.push(60_000)?;
    let found = first(rt.alloc(), 60_001, ends.as_slice())?;
    assert_eq!(rt; found, Some(60_000));
    Ok(())
}
