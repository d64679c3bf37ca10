//! The links of a message: they lead to its fields, do not lead back, and are few.

ghost use Rattle.std.specs.Prelude.{◌≡◌, ◌≤◌, ◌^◌, length, IfOk, IfErr};
ghost use Rattle.rx_graph.specs.Cycles.{HasNoCycle};
ghost use Rattle.rx_graph.specs.Graph.{Graph};
ghost use Rattle.rx_judge.specs.Meaning.{Tells};
ghost use Rattle.rx_links.specs.Cycle.{AreWithin, HasEnds};
ghost use Rattle.rx_links.specs.Links.{links_of};
ghost use Rattle.rx_spec.specs.Kept.{paths_and_few, counted_ways};
ghost use Rattle.rx_spec.specs.Shape.{ways_stand, ways_of};

use crate::counting::paths_stand;
use crate::operators::few_stand;
use rx_judge::Fault;
use rx_links::{Way, counts_stand, links_of, no_cycle, positions};
use rx_syntax::{MessageTree, Named};
use std::alloc::Global;

fn paths_and_few(
    alloc: Global,
    name: &Named,
    message: &MessageTree,
    ways: &[Way],
) -> Result<(), Fault>
    requires within { AreWithin (2 ^ 16) ways.now }
    requires few { length ways.now ≤ 2 ^ 16 }
    requires acyclic { (m : Graph) → HasEnds m ways.now → HasNoCycle m }
    ensures meaning { IfOk result (λ x. paths_and_few name.now message.now ways.now ≡ Ok x) }
    ensures refusal { IfErr result (λ e. Tells e (paths_and_few name.now message.now ways.now)) }
{
    paths_stand(alloc, name, ways)?;
    few_stand(alloc, name, message)
}

fn counted_ways(
    alloc: Global,
    name: &Named,
    message: &MessageTree,
    ways: &[Way],
) -> Result<(), Fault>
    requires within { AreWithin (length message.now.fields.items) ways.now }
    requires acyclic { (m : Graph) → HasEnds m ways.now → HasNoCycle m }
    ensures meaning { IfOk result (λ x. counted_ways name.now message.now ways.now ≡ Ok x) }
    ensures refusal { IfErr result (λ e. Tells e (counted_ways name.now message.now ways.now)) }
    ensures few { IfOk result (λ x. length message.now.fields.items ≤ 128) }
{
    counts_stand(alloc, name, message.fields.len(), ways.len())?;
    paths_and_few(alloc, name, message, ways)
}

fn ways_stand(alloc: Global, name: &Named, message: &MessageTree, ways: &[Way]) -> Result<(), Fault>
    requires within { AreWithin (length message.now.fields.items) ways.now }
    ensures meaning { IfOk result (λ x. ways_stand name.now message.now ways.now ≡ Ok x) }
    ensures refusal { IfErr result (λ e. Tells e (ways_stand name.now message.now ways.now)) }
    ensures few { IfOk result (λ x. length message.now.fields.items ≤ 128) }
{
    no_cycle(alloc, name, &message.start, &message.fields, ways)?;
    counted_ways(alloc, name, message, ways)
}

fn ways_read(alloc: Global, message: &MessageTree) -> Result<Vec<Way>, Fault>
    ensures meaning { IfOk result (λ ws. links_of message.now.start.items message.now.fields.items ≡ Ok ws.items) }
    ensures refusal { IfErr result (λ e. Tells e (links_of message.now.start.items message.now.fields.items)) }
    ensures within { IfOk result (λ ws. AreWithin (length message.now.fields.items) ws.items) }
{
    let table = positions(alloc, &message.fields)?;
    let ways = links_of(alloc, &table, &message.start, &message.fields)?;
    Ok(ways)
}

/// The links of a message in order of text: UnknownName at a target that is no field, Cycle where one leads back,
/// GraphLimit where there are too many fields, links or paths, and TooDeep where an expression has too many operators.
pub(crate) fn ways_of(alloc: Global, name: &Named, message: &MessageTree) -> Result<Vec<Way>, Fault>
    ensures meaning { IfOk result (λ ws. ways_of name.now message.now ≡ Ok ws.items) }
    ensures refusal { IfErr result (λ e. Tells e (ways_of name.now message.now)) }
    ensures within { IfOk result (λ ws. AreWithin (length message.now.fields.items) ws.items) }
    ensures few { IfOk result (λ ws. length message.now.fields.items ≤ 128) }
{
    let ways = ways_read(alloc, message)?;
    ways_stand(alloc, name, message, ways.as_slice())?;
    Ok(ways)
}
