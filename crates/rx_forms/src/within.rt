//! Whether a message stays within the path limit.

ghost use Rattle.std.specs.Prelude.{◌≡◌, ◌<◌, IfOk, length};
ghost use Rattle.std.specs.List.{list_all};
ghost use Rattle.rx_graph.specs.declared.message.Node.TheVariants.{Start};
ghost use Rattle.rx_graph.specs.Onward.{onward};
ghost use Rattle.rx_forms.specs.PathLimit.{numbers_from, keeps_path, keeps_limit_at, fields_from, keeps_limit, LimitIsKept, HasFewPaths};

use crate::choices::{keeps_choices, reach};
use crate::fault::{FormFault, NoMemory};
use crate::gather::scalars_along;
use crate::limit::VARIABLES;
use rx_graph::{Elaborated, Node, Path, PathFault, paths_to};
use std::alloc::Global;

/// Whether each path from the start, with the conditions of at most two links of its end, stays within the path limit: at most 189
/// scalars and divisions, and no sum too large.
pub fn keeps_limit(alloc: Global, message: &Elaborated<'_>) -> Result<bool, NoMemory>
    ensures { IfOk result (λ kept. kept ≡ keeps_limit message.now.domains message.now.graph) }
{
    let start = keeps_at(alloc, message, Node::Start)?;
    if !start {
        return Ok(false);
    }
    let fields = keeps_at_fields(alloc, message)?;
    if !fields {
        return Ok(false);
    }
    keeps_at(alloc, message, Node::Null)
}

// Whether the paths to fields do.
fn keeps_at_fields(alloc: Global, message: &Elaborated<'_>) -> Result<bool, NoMemory>
    ensures { IfOk result (λ kept. kept ≡ list_all (keeps_limit_at message.now.domains message.now.graph) (fields_from 0 message.now.graph.fields)) }
{
    for field in 0..message.fields().len() {
        let kept = keeps_at(alloc, message, Node::At(field as u16))?;
        if !kept {
            return Ok(false);
        }
    }
    Ok(true)
}

// Whether the paths to a node do, with the links of the node.
fn keeps_at(alloc: Global, message: &Elaborated<'_>, node: Node) -> Result<bool, NoMemory>
    ensures { IfOk result (λ kept. kept ≡ keeps_limit_at message.now.domains message.now.graph node) }
{
    let numbers = numbers_of(alloc, message, node)?;
    let paths = paths_of(alloc, message, node)?;
    keep_within(alloc, message, paths.as_slice(), numbers.as_slice())
}

// The numbers of the links that lead from a node.
fn numbers_of(alloc: Global, message: &Elaborated<'_>, node: Node) -> Result<Vec<u16>, NoMemory>
    ensures { IfOk result (λ numbers. numbers.items ≡ numbers_from node 0 message.now.graph.links) }
{
    let links = message.links();
    let mut numbers = Vec::new(alloc);
    for index in 0..links.len() {
        if links[index].source.is(node) {
            numbers.push(index as u16)?;
        }
    }
    Ok(numbers)
}

// The paths to a node, of which there are never too many.
fn paths_of(alloc: Global, message: &Elaborated<'_>, node: Node) -> Result<Vec<Path>, NoMemory>
    ensures { IfOk result (λ paths. paths.items ≡ onward message.now.graph.links (length message.now.graph.links) node Start) }
{
    paths_to_nodes_are_few(message);
    match paths_to(alloc, message.message(), node) {
        Ok(paths) => Ok(paths),
        Err(PathFault::TooManyPaths) => unreachable!(),
        Err(PathFault::NoMemory) => Err(NoMemory),
    }
}

// Whether paths do, with none, one or two of these links.
fn keep_within(
    alloc: Global,
    message: &Elaborated<'_>,
    paths: &[Path],
    numbers: &[u16],
) -> Result<bool, NoMemory>
    ensures { IfOk result (λ kept. kept ≡ list_all (keeps_path message.now.domains message.now.graph numbers.now) paths.now) }
{
    for path in paths {
        let kept = keeps_path(alloc, message, path.links(), numbers)?;
        if !kept {
            return Ok(false);
        }
    }
    Ok(true)
}

// Whether a path does, with none, one or two of these links.
fn keeps_path(
    alloc: Global,
    message: &Elaborated<'_>,
    path: &[u16],
    numbers: &[u16],
) -> Result<bool, NoMemory>
    ensures { IfOk result (λ kept. kept ≡ keeps_path message.now.domains message.now.graph numbers.now path.now) }
{
    let count = scalars_along(path, message);
    if count >= VARIABLES {
        return Ok(false);
    }
    match reach(alloc, count, path, message) {
        Ok(builder) => {
            let fields = builder.fields.as_slice();
            keeps_choices(alloc, numbers, message, fields, builder.work.next)
        }
        Err(FormFault::PathLimit) => Ok(false),
        Err(FormFault::NoMemory) => Err(NoMemory),
    }
}

/// That is so exactly where every path of the message, with none, one or two links of its end, stays within the limit.
pub fn limit_is_kept(message: &Elaborated<'_>)
    ensures { LimitIsKept message.now.domains message.now.graph }
{
    message.is_known();
}

/// At most 4,096 paths lead to any node of the message, since each goes on to null.
pub fn paths_to_nodes_are_few(message: &Elaborated<'_>)
    ensures { HasFewPaths message.now.graph }
{
    message.is_known();
}
