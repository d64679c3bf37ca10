//! Solves the systems of rows on standard input, or walks the queries there, and counts what they come to.
//!
//! The words are how often each is to be decided, and `walk` for walks. The input is numbers in text: for each query `q`
//! and how many variables there are, a count of rows, the rows (their coefficients and the constant), a count of
//! disjunctions, and for each a count of branches, each a list of rows and a 0. What `solve` or `prove` does not take is
//! skipped.
#![tactic(auto)]

use anyhow::Context;
use rx_linear::{Row, System};
use rx_proof::{Proof, Query};
use rx_prover::{Answer, prove};
use rx_shadow::{Solved, is_bounded, solve};
use sqlite_items::Items;
use std::alloc::Global;
use std::str::SplitWhitespace;
use std::{env, io};

/// What the queries came to.
#[derive(Debug, Default, Drop)]
struct Counts {
    points: u64,
    closed: u64,
    steps: u64,
    nodes: u64,
    not_simple: u64,
    undecided: u64,
    skipped: u64,
}

impl Counts {
    fn add_solved(&mut self, solved: &Solved) {
        match solved {
            Solved::Point(_) => self.points = self.points.saturating_add(1),
            Solved::Closed(steps) => {
                self.closed = self.closed.saturating_add(1);
                self.steps = self.steps.saturating_add(steps.len() as u64);
            }
            Solved::NotSimple(_) => self.not_simple = self.not_simple.saturating_add(1),
        }
    }

    fn add_walked(&mut self, answer: &Answer) {
        match answer {
            Answer::Point(_) => self.points = self.points.saturating_add(1),
            Answer::NoPoint(proof) => {
                self.closed = self.closed.saturating_add(1);
                self.add_proof(proof);
            }
            Answer::Undecided(_) => self.undecided = self.undecided.saturating_add(1),
        }
    }

    /// Adds the steps, the cases and the halvings of a proof.
    fn add_proof(&mut self, proof: &Proof) {
        match proof {
            Proof::Close(steps) => self.steps = self.steps.saturating_add(steps.len() as u64),
            Proof::Halve(_, _, low, high) => {
                self.nodes = self.nodes.saturating_add(1);
                self.add_proof(low.get());
                self.add_proof(high.get());
            }
            Proof::Case(_, proofs) => {
                self.nodes = self.nodes.saturating_add(1);
                for inner in proofs.as_slice() {
                    self.add_proof(inner);
                }
            }
        }
    }

    fn print(&self, rt: &impl Print) -> io::Result<()> {
        println!(rt; "points {}", self.points)?;
        println!(rt; "closed {}", self.closed)?;
        println!(rt; "steps {}", self.steps)?;
        println!(rt; "nodes {}", self.nodes)?;
        println!(rt; "not simple {}", self.not_simple)?;
        println!(rt; "undecided {}", self.undecided)?;
        println!(rt; "skipped {}", self.skipped)
    }
}

fn number(numbers: &mut SplitWhitespace<'_>) -> anyhow::Result<i128> {
    let word = numbers.next().context("a number is missing")?;
    word.parse::<i128>().ok().context("a word is no number")
}

fn count(numbers: &mut SplitWhitespace<'_>) -> anyhow::Result<usize> {
    let word = numbers.next().context("a count is missing")?;
    word.parse::<usize>().ok().context("a word is no count")
}

fn read_row(
    alloc: Global,
    variables: usize,
    numbers: &mut SplitWhitespace<'_>,
) -> anyhow::Result<Row> {
    let mut coefficients = Vec::new(alloc);
    for _ in 0..variables {
        coefficients.push(number(numbers)?)?;
    }
    let least = number(numbers)?;
    Ok(Row {
        coefficients: Items::from_vec(coefficients),
        least,
    })
}

/// A count of rows and the rows; None where they pass the limits of a system.
fn read_system(
    alloc: Global,
    variables: usize,
    numbers: &mut SplitWhitespace<'_>,
) -> anyhow::Result<Option<System>> {
    let mut rows = Vec::new(alloc);
    for _ in 0..count(numbers)? {
        rows.push(read_row(alloc, variables, numbers)?)?;
    }
    if !System::fits(variables, rows.as_slice()) {
        return Ok(None);
    }
    Ok(Some(System::new(variables, Items::from_vec(rows))))
}

/// A branch of a disjunction; None where it has disjunctions itself.
fn read_branch(
    alloc: Global,
    variables: usize,
    numbers: &mut SplitWhitespace<'_>,
) -> anyhow::Result<Option<Query>> {
    let system = read_system(alloc, variables, numbers)?;
    let disjunctions = count(numbers)?;
    match system {
        Some(system) if disjunctions == 0 => Ok(Some(Query {
            system,
            either: Items::new(alloc),
        })),
        _ => Ok(None),
    }
}

/// A count of branches and the branches.
fn read_disjunction(
    alloc: Global,
    variables: usize,
    numbers: &mut SplitWhitespace<'_>,
) -> anyhow::Result<Items<Query>> {
    let mut branches = Vec::new(alloc);
    for _ in 0..count(numbers)? {
        let branch = read_branch(alloc, variables, numbers)?;
        branches.push(branch.context("a branch is no list of rows")?)?;
    }
    Ok(Items::from_vec(branches))
}

/// The query that stands behind its `q`; None where it passes the limits of a system.
fn read_query(alloc: Global, text: &str) -> anyhow::Result<Option<Query>> {
    let mut numbers = text.split_whitespace();
    let variables = count(&mut numbers)?;
    let system = read_system(alloc, variables, &mut numbers)?;
    let mut either = Vec::new(alloc);
    for _ in 0..count(&mut numbers)? {
        either.push(read_disjunction(alloc, variables, &mut numbers)?)?;
    }
    Ok(system.map(|system| Query {
        system,
        either: Items::from_vec(either),
    }))
}

/// What the system comes to, solved so many times, and once at the least; None where a variable has no bounds.
fn solve_often(alloc: Global, times: u32, system: &System) -> anyhow::Result<Option<Solved>> {
    if !is_bounded(alloc, system).ok().context("no memory")? {
        return Ok(None);
    }
    for _ in 1..times {
        solve(alloc, system).ok().context("no memory")?;
    }
    solve(alloc, system).map(Some).ok().context("no memory")
}

/// How the walk of the query ends, made so many times, and once at the least; None where `prove` does not take it.
fn walk_often(alloc: Global, times: u32, query: &Query) -> anyhow::Result<Option<Answer>> {
    if !is_bounded(alloc, &query.system).ok().context("no memory")? {
        return Ok(None);
    }
    if !query.is_even() {
        return Ok(None);
    }
    for _ in 1..times {
        prove(alloc, query, 4096).ok().context("no memory")?;
    }
    prove(alloc, query, 4096)
        .map(Some)
        .ok()
        .context("no memory")
}

/// Decides the query so many times, and counts what it comes to.
fn decide(
    alloc: Global,
    times: u32,
    walks: bool,
    query: &Query,
    counts: &mut Counts,
) -> anyhow::Result<()> {
    if walks {
        if let Some(answer) = walk_often(alloc, times, query)? {
            counts.add_walked(&answer);
            return Ok(());
        }
    } else if query.either.is_empty() {
        if let Some(solved) = solve_often(alloc, times, &query.system)? {
            counts.add_solved(&solved);
            return Ok(());
        }
    }
    counts.skipped = counts.skipped.saturating_add(1);
    Ok(())
}

fn decide_all(alloc: Global, times: u32, walks: bool, text: &str) -> anyhow::Result<Counts> {
    let mut counts = Counts::default();
    for query in text.split('q').skip(1) {
        match read_query(alloc, query)? {
            Some(query) => decide(alloc, times, walks, &query, &mut counts)?,
            None => counts.skipped = counts.skipped.saturating_add(1),
        }
    }
    Ok(counts)
}

/// How often each query is to be decided: the first word, or 1.
fn times(rt: &HostRuntime) -> anyhow::Result<u32> {
    match env::args(rt)?.nth(1) {
        Some(word) => word
            .parse::<u32>()
            .ok()
            .context("the first word is no count"),
        None => Ok(1),
    }
}

/// Whether the queries are to be walked: the second word is there.
fn walks(rt: &HostRuntime) -> anyhow::Result<bool> {
    Ok(env::args(rt)?.nth(2).is_some())
}

fn main(rt: HostRuntime) -> anyhow::Result<()> {
    let times = times(&rt)?;
    let walks = walks(&rt)?;
    let text = io::read_to_string(rt.alloc(), rt.stdin())?;
    let counts = decide_all(rt.alloc(), times, walks, text.as_str())?;
    counts.print(&rt)?;
    Ok(())
}
