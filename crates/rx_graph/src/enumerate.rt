// All paths of a message, in order of link numbers.

ghost use Rattle.std.specs.Prelude.{◌≡◌, ℕ, ◌<◌, ◌≤◌, ◌^◌, [], ◌∷◌, ◌++◌, map, length, OnOk, IfOk, IfErr};
ghost use Rattle.rx_graph.specs.Graph.{arrows, graph_of};
ghost use Rattle.rx_graph.specs.Cycles.{HasNoCycle, ArePathsTo, AreWholePaths, HasMorePathsTo};
ghost use Rattle.rx_graph.specs.Onward.{onward};

use crate::fault::PathFault;
use crate::message::{Link, Message, Node};
use crate::path::Path;
use std::alloc::Global;

const LIMIT: usize = 4096;

/// All whole paths.
pub fn paths(alloc: Global, message: &Message) -> Result<Vec<Path>, PathFault>
    requires acyclic { HasNoCycle (graph_of message.now) }
    requires few { length message.now.links.items ≤ 2 ^ 16 }
    ensures paths { IfOk result (λ paths. AreWholePaths (graph_of message.now) paths.items) }
    ensures within { IfOk result (λ paths. length paths.items ≤ 4096) }
    ensures many { IfErr result (λ e. e ≡ PathFault.TooManyPaths → HasMorePathsTo (graph_of message.now) Node.Null 4096) }
{
    paths_to(alloc, message, Node::Null)
}

/// All paths from the start to a node.
pub fn paths_to(alloc: Global, message: &Message, end: Node) -> Result<Vec<Path>, PathFault>
    requires acyclic { HasNoCycle (graph_of message.now) }
    requires few { length message.now.links.items ≤ 2 ^ 16 }
    ensures paths { IfOk result (λ paths. ArePathsTo (graph_of message.now) end paths.items) }
    ensures within { IfOk result (λ paths. length paths.items ≤ 4096) }
    ensures many { IfErr result (λ e. e ≡ PathFault.TooManyPaths → HasMorePathsTo (graph_of message.now) end 4096) }
{
    let links = message.links.as_slice();
    let mut path = Vec::new(alloc);
    let mut paths = Vec::new(alloc);
    extend(
        alloc,
        links,
        links.len(),
        end,
        Node::Start,
        &mut path,
        &mut paths,
    )?;
    Ok(paths)
}

// Adds what goes on from a node to the end, each behind the path, in order.
fn extend(
    alloc: Global,
    links: &[Link],
    more: usize,
    end: Node,
    at: Node,
    path: &mut Vec<u16>,
    paths: &mut Vec<Path>,
) -> Result<(), PathFault>
    requires few { length links.now ≤ 2 ^ 16 }
    requires within { length paths.old.items ≤ 4096 }
    ensures added { OnOk result (paths.new.items ≡ paths.old.items ++ map (λ p. path.old.items ++ p) (onward (arrows links.now) more end at)) }
    ensures within { OnOk result (length paths.new.items ≤ 4096) }
    ensures path { OnOk result (path.new.items ≡ path.old.items) }
    ensures many { IfErr result (λ e. e ≡ PathFault.TooManyPaths → 4096 < length (paths.old.items ++ map (λ p. path.old.items ++ p) (onward (arrows links.now) more end at))) }
{
    if at.is(end) {
        return add(alloc, path.as_slice(), paths);
    }
    if more == 0 {
        return Ok(());
    }
    for index in 0..links.len() {
        let link = &links[index];
        if link.source.is(at) {
            let depth = path.len();
            path.push(index as u16)?;
            extend(alloc, links, more - 1, end, link.target, path, paths)?;
            path.truncate(depth);
        }
    }
    Ok(())
}

// Adds one path, if there are not too many.
fn add(alloc: Global, path: &[u16], paths: &mut Vec<Path>) -> Result<(), PathFault>
    requires within { length paths.old.items ≤ 4096 }
    ensures added { OnOk result (paths.new.items ≡ paths.old.items ++ path.now ∷ []) }
    ensures within { OnOk result (length paths.new.items ≤ 4096) }
    ensures many { IfErr result (λ e. e ≡ PathFault.TooManyPaths → 4096 < length (paths.old.items ++ path.now ∷ [])) }
{
    if paths.len() >= LIMIT {
        return Err(PathFault::TooManyPaths);
    }
    let path = Path::make(alloc, path)?;
    paths.push(path)?;
    Ok(())
}
