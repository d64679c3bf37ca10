//! The limit on the whole paths of a message.

ghost use Rattle.std.specs.Prelude.{◌≡◌, ◌≤◌, ◌^◌, length, nat_le, map, IfOk, IfErr};
ghost use Rattle.rx_graph.specs.Cycles.{HasNoCycle};
ghost use Rattle.rx_graph.specs.Graph.{Graph, arrow_of, arrows, graph_of};
ghost use Rattle.rx_judge.specs.Meaning.{Tells};
ghost use Rattle.rx_links.specs.Cycle.{IsStop, AreWithin, HasEnds};
ghost use Rattle.rx_spec.specs.Kept.{paths_onward};
ghost use Rattle.rx_spec.specs.Shape.{bare_arrow, whole_paths, paths_stand};

use crate::arrows::node_of;
use rx_graph::{Link, Message, PathFault, paths};
use rx_judge::{Fault, NoMemory, refused_at};
use rx_links::Way;
use rx_syntax::{Named, Place, Rule};
use rx_types::{Expr, Name};
use std::alloc::Global;

fn bare_link(place: Place, way: Way) -> Link
    requires source { IsStop (2 ^ 16) way.source }
    requires target { IsStop (2 ^ 16) way.target }
    ensures { arrow_of result ≡ bare_arrow place way }
{
    Link {
        source: node_of(way.source),
        target: node_of(way.target),
        condition: Expr::Truth(true),
        first: None,
        size: None,
        place,
    }
}

fn bare_links(alloc: Global, place: Place, ways: &[Way]) -> Result<Vec<Link>, NoMemory>
    requires { AreWithin (2 ^ 16) ways.now }
    ensures { IfOk result (λ ls. arrows ls.items ≡ map (bare_arrow place) ways.now) }
{
    let mut links = Vec::new(alloc);
    for way in ways {
        links.push(bare_link(place, *way))?;
    }
    Ok(links)
}

// A message that has these links, and nothing else.
fn bare_message(alloc: Global, place: Place, ways: &[Way]) -> Result<Message, NoMemory>
    requires { AreWithin (2 ^ 16) ways.now }
    ensures { IfOk result (λ m. (graph_of m).links ≡ map (bare_arrow place) ways.now) }
{
    let links = bare_links(alloc, place, ways)?;
    let package = Name::make(alloc, b"")?;
    let name = Name::make(alloc, b"")?;
    Ok(Message {
        package,
        name,
        fields: Vec::new(alloc),
        links,
        low_order: false,
    })
}

// Whether at most 4,096 paths lead from the start to null.
fn has_few_paths(alloc: Global, message: &Message) -> Result<bool, NoMemory>
    requires acyclic { HasNoCycle (graph_of message.now) }
    requires few { length message.now.links.items ≤ 2 ^ 16 }
    ensures { IfOk result (λ b. b ≡ nat_le (length (paths_onward (graph_of message.now))) 4096) }
{
    match paths(alloc, message) {
        Ok(_) => Ok(true),
        Err(PathFault::TooManyPaths) => Ok(false),
        Err(PathFault::NoMemory) => Err(NoMemory),
    }
}

fn ways_have_few_paths(alloc: Global, place: Place, ways: &[Way]) -> Result<bool, NoMemory>
    requires within { AreWithin (2 ^ 16) ways.now }
    requires few { length ways.now ≤ 2 ^ 16 }
    requires acyclic { (m : Graph) → HasEnds m ways.now → HasNoCycle m }
    ensures { IfOk result (λ b. b ≡ nat_le (length (whole_paths place ways.now)) 4096) }
{
    let message = bare_message(alloc, place, ways)?;
    has_few_paths(alloc, &message)
}

/// That a message has at most 4,096 whole paths; else GraphLimit at its name.
pub(crate) fn paths_stand(alloc: Global, name: &Named, ways: &[Way]) -> Result<(), Fault>
    requires within { AreWithin (2 ^ 16) ways.now }
    requires few { length ways.now ≤ 2 ^ 16 }
    requires acyclic { (m : Graph) → HasEnds m ways.now → HasNoCycle m }
    ensures meaning { IfOk result (λ x. paths_stand name.now ways.now ≡ Ok x) }
    ensures refusal { IfErr result (λ e. Tells e (paths_stand name.now ways.now)) }
{
    let few = ways_have_few_paths(alloc, name.place, ways)?;
    if few {
        return Ok(());
    }
    Err(Fault::Refused(refused_at(alloc, Rule::GraphLimit, name)?))
}
