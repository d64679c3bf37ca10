//! The links of a message in order of text, with the targets that they name.

ghost use Rattle.std.specs.Prelude.{◌≡◌, ◌<◌, ◌+◌, ◌++◌, ℕ, length, IfOk, IfErr};
ghost use Rattle.rx_judge.specs.Meaning.{Tells};
ghost use Rattle.rx_links.specs.Positions.{positions};
ghost use Rattle.rx_links.specs.Cycle.{AreWithin};
ghost use Rattle.rx_links.specs.Links.{stop_at, target_of, then_way, node_ways, field_ways, links_of};

use rx_judge::{Fault, NoMemory, Table, refused};
use rx_syntax::{FieldTree, Rule, ThenTree};
use std::alloc::Global;

/// Where a link begins or ends; a field by its place in the message.
#[derive(Clone, Copy, Debug, PartialEq, Eq)]
pub enum Stop {
    Start,
    At(usize),
    Null,
}

/// A link: its source, its place among the `then` clauses of the source, if it has one, and its target.
#[derive(Clone, Copy, Debug, PartialEq, Eq)]
pub struct Way {
    pub source: Stop,
    pub clause: Option<usize>,
    pub target: Stop,
}

// The field at a place, or null behind the last one.
fn stop_at(count: usize, index: usize) -> Stop
    ensures { result ≡ stop_at count index }
{
    if index < count {
        Stop::At(index)
    } else {
        Stop::Null
    }
}

fn target_of(alloc: Global, table: &Table<usize>, then: &ThenTree) -> Result<Stop, Fault>
    ensures meaning { IfOk result (λ s. target_of table.now then.now.place then.now.target ≡ Ok s) }
    ensures refusal { IfErr result (λ e. Tells e (target_of table.now then.now.place then.now.target)) }
{
    match &then.target {
        None => Ok(Stop::Null),
        Some(word) => match table.find(alloc, b"", word.as_str().as_bytes())? {
            Some(index) => Ok(Stop::At(index)),
            None => Err(Fault::Refused(refused(alloc, Rule::UnknownName, then.place, word)?)),
        },
    }
}

fn then_way(
    alloc: Global,
    table: &Table<usize>,
    source: Stop,
    clause: usize,
    then: &ThenTree,
) -> Result<Way, Fault>
    ensures meaning { IfOk result (λ w. then_way table.now source clause then.now ≡ Ok w) }
    ensures refusal { IfErr result (λ e. Tells e (then_way table.now source clause then.now)) }
{
    let target = target_of(alloc, table, then)?;
    Ok(Way {
        source,
        clause: Some(clause),
        target,
    })
}

// The links of a node, which without clauses has one to the next node.
fn node_ways(
    alloc: Global,
    table: &Table<usize>,
    source: Stop,
    next: Stop,
    thens: &[ThenTree],
) -> Result<Vec<Way>, Fault>
    ensures meaning { IfOk result (λ ws. node_ways table.now source next thens.now ≡ Ok ws.items) }
    ensures refusal { IfErr result (λ e. Tells e (node_ways table.now source next thens.now)) }
{
    let mut ways = Vec::new(alloc);
    if thens.is_empty() {
        ways.push(Way {
            source,
            clause: None,
            target: next,
        })?;
        return Ok(ways);
    }
    for (clause, then) in thens.iter().enumerate() {
        let way = then_way(alloc, table, source, clause, then)?;
        ways.push(way)?;
    }
    Ok(ways)
}

fn field_ways(
    alloc: Global,
    table: &Table<usize>,
    count: usize,
    index: usize,
    field: &FieldTree,
) -> Result<Vec<Way>, Fault>
    requires { index < count }
    ensures meaning { IfOk result (λ ws. field_ways table.now count index field.now ≡ Ok ws.items) }
    ensures refusal { IfErr result (λ e. Tells e (field_ways table.now count index field.now)) }
{
    node_ways(
        alloc,
        table,
        Stop::At(index),
        stop_at(count, index + 1),
        &field.thens,
    )
}

fn append(ways: &mut Vec<Way>, more: &[Way]) -> Result<(), NoMemory>
    ensures { IfOk result (λ x. ways.new.items ≡ ways.old.items ++ more.now) }
{
    ways.extend_from_slice(more)?;
    Ok(())
}

/// The links of a message in order of text, where `table` has the places of the fields: those of the start, then those
/// of each field; UnknownName at a target that is no field.
pub fn links_of(
    alloc: Global,
    table: &Table<usize>,
    start: &[ThenTree],
    fields: &[FieldTree],
) -> Result<Vec<Way>, Fault>
    requires { table.now ≡ positions fields.now }
    ensures meaning { IfOk result (λ ws. links_of start.now fields.now ≡ Ok ws.items) }
    ensures refusal { IfErr result (λ e. Tells e (links_of start.now fields.now)) }
    ensures within { IfOk result (λ ws. AreWithin (length fields.now) ws.items) }
{
    let count = fields.len();
    let mut ways = node_ways(alloc, table, Stop::Start, stop_at(count, 0), start)?;
    for (index, field) in fields.iter().enumerate() {
        let more = field_ways(alloc, table, count, index, field)?;
        append(&mut ways, more.as_slice())?;
    }
    Ok(ways)
}
