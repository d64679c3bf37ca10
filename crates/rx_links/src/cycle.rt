//! The refusal of links that lead back to their source.

ghost use Rattle.std.specs.Prelude.{◌≡◌, ◌+◌, ◌^◌, IfOk, IfErr, length, map, slice_get};
ghost use Rattle.std.specs.Option.{option_copied};
ghost use Rattle.rx_cycle.specs.Graph.{AreBelow, first_returning};
ghost use Rattle.rx_judge.specs.Meaning.{Tells};
ghost use Rattle.rx_links.specs.Cycle.{IsStop, AreWithin, node_number, ends_of, clauses_of, clause_of, told_by_field, told_by_clause, told_at, told, no_cycle};

use crate::links::{Stop, Way};
use rx_cycle::{Ends, first_to_return};
use rx_judge::{Fault, NoMemory, refused, refused_at};
use rx_syntax::{FieldTree, Named, Refusal, Rule, ThenTree};
use std::alloc::Global;

fn first(alloc: Global, nodes: usize, links: &[Ends]) -> Result<Option<usize>, NoMemory>
    requires { AreBelow nodes links.now }
    ensures { IfOk result (λ first. first ≡ first_returning links.now) }
{
    match first_to_return(alloc, nodes, links) {
        Ok(first) => Ok(first),
        Err(_) => Err(NoMemory),
    }
}

/// The clauses of a node.
pub fn clauses_of<'a>(
    start: &'a [ThenTree],
    fields: &'a [FieldTree],
    source: Stop,
) -> &'a [ThenTree]
    ensures { result.now ≡ clauses_of start.now fields.now source }
{
    match source {
        Stop::Start => start,
        Stop::At(index) => match fields.get(index) {
            Some(field) => field.thens.as_slice(),
            None => &[],
        },
        Stop::Null => &[],
    }
}

fn told_by_field(
    alloc: Global,
    name: &Named,
    fields: &[FieldTree],
    target: Stop,
) -> Result<Refusal, NoMemory>
    ensures { IfOk result (λ r. r ≡ told_by_field name.now fields.now target) }
{
    if let Stop::At(index) = target {
        if let Some(field) = fields.get(index) {
            return refused_at(alloc, Rule::Cycle, &field.name);
        }
    }
    refused_at(alloc, Rule::Cycle, name)
}

fn told_by_clause(
    alloc: Global,
    name: &Named,
    fields: &[FieldTree],
    target: Stop,
    clause: &ThenTree,
) -> Result<Refusal, NoMemory>
    ensures { IfOk result (λ r. r ≡ told_by_clause name.now fields.now target clause.now.place clause.now.target) }
{
    match &clause.target {
        Some(word) => refused(alloc, Rule::Cycle, clause.place, word),
        None => told_by_field(alloc, name, fields, target),
    }
}

fn told_at(
    alloc: Global,
    name: &Named,
    fields: &[FieldTree],
    target: Stop,
    clause: Option<&ThenTree>,
) -> Result<Refusal, NoMemory>
    ensures { IfOk result (λ r. r ≡ told_at name.now fields.now target (option_copied clause.entry)) }
{
    match clause {
        Some(clause) => told_by_clause(alloc, name, fields, target, clause),
        None => told_by_field(alloc, name, fields, target),
    }
}

/// The clause of a link, if it has one.
pub fn clause_of<'a>(thens: &'a [ThenTree], clause: Option<usize>) -> Option<&'a ThenTree>
    ensures { option_copied result ≡ clause_of thens.now clause }
{
    match clause {
        Some(index) => thens.get(index),
        None => None,
    }
}

fn told(
    alloc: Global,
    name: &Named,
    start: &[ThenTree],
    fields: &[FieldTree],
    way: Option<&Way>,
) -> Result<Refusal, NoMemory>
    ensures { IfOk result (λ r. r ≡ told name.now start.now fields.now (option_copied way.entry)) }
{
    match way {
        Some(way) => {
            let clause = clause_of(clauses_of(start, fields, way.source), way.clause);
            told_at(alloc, name, fields, way.target, clause)
        }
        None => refused_at(alloc, Rule::Cycle, name),
    }
}

fn way_at<'a>(ways: &'a [Way], index: usize) -> Option<&'a Way>
    ensures { option_copied result ≡ slice_get ways.now index }
{
    ways.get(index)
}

fn node_number(stop: Stop) -> usize
    requires { IsStop (2 ^ 63) stop }
    ensures { result ≡ node_number stop }
{
    match stop {
        Stop::Start => 0,
        Stop::Null => 1,
        Stop::At(index) => index + 2,
    }
}

fn ends_of(alloc: Global, ways: &[Way]) -> Result<Vec<Ends>, NoMemory>
    requires { AreWithin (2 ^ 63) ways.now }
    ensures { IfOk result (λ ends. ends.items ≡ map ends_of ways.now) }
{
    let mut ends = Vec::new(alloc);
    for way in ways {
        ends.push(Ends {
            source: node_number(way.source),
            target: node_number(way.target),
        })?;
    }
    Ok(ends)
}

/// That no link leads back to its source; else Cycle at the target of the first one in order of text that does, or at
/// the message's name for a link whose target has no name.
pub fn no_cycle(
    alloc: Global,
    name: &Named,
    start: &[ThenTree],
    fields: &[FieldTree],
    ways: &[Way],
) -> Result<(), Fault>
    requires { AreWithin (length fields.now) ways.now }
    ensures meaning { IfOk result (λ x. no_cycle name.now start.now fields.now ways.now ≡ Ok x) }
    ensures refusal { IfErr result (λ e. Tells e (no_cycle name.now start.now fields.now ways.now)) }
{
    let ends = ends_of(alloc, ways)?;
    let first = first(alloc, fields.len() + 2, ends.as_slice())?;
    match first {
        None => Ok(()),
        Some(index) => {
            let way = way_at(ways, index);
            Err(Fault::Refused(told(alloc, name, start, fields, way)?))
        }
    }
}
