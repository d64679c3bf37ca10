// The working rows of the check, reserved before it begins.
ghost use Rattle.std.specs.Prelude.{◌≡◌, ◌+◌, IfOk, IfSome, map};
ghost use Rattle.rx_proof.specs.Room.{HasRoom, weight, depth, total, greatest_of};
ghost use Rattle.rx_proof.specs.Queries.{IsEven};

use crate::{Proof, Query};
use rx_linear::RowStack;
use sqlite_items::Items;
use std::alloc::Global;

/// Want of memory.
#[derive(Clone, Copy, Debug, PartialEq, Eq)]
pub struct NoMemory;

impl From<rx_linear::NoMemory> for NoMemory {
    fn from(_: rx_linear::NoMemory) -> Self {
        NoMemory
    }
}

/// The rows that one check needs at one time.
#[derive(Drop)]
pub struct Desk {
    pub stack: RowStack,
}

impl Desk {
    /// A desk with room for the query and the proof.
    pub fn make(alloc: Global, query: &Query, proof: &Proof) -> Result<Desk, NoMemory>
        ensures { IfOk result (λ desk. HasRoom desk.stack query.now proof.now) }
    {
        let variables = query.system.variables();
        match limit(query, proof) {
            None => Err(NoMemory),
            Some(limit) => Ok(Desk {
                stack: RowStack::make(alloc, variables, limit)?,
            }),
        }
    }
}

/// The greatest number of rows that stand at one time.
fn limit(query: &Query, proof: &Proof) -> Option<usize>
    ensures { IfSome result (λ n. n ≡ weight query.now + depth proof.now) }
{
    let rows = weight(query)?;
    rows.checked_add(depth(proof)?)
}

/// The rows of the query and of all queries in it, and their disjunctions.
#[cycle(weight)]
fn weight(query: &Query) -> Option<usize>
    ensures { IfSome result (λ n. n ≡ weight query.now) }
{
    let own = query.system.rows().len().checked_add(query.either.len())?;
    let mut sum = own;
    for branches in query.either.as_slice() {
        sum = sum.checked_add(branch_weight(branches.as_slice())?)?;
    }
    Some(sum)
}

#[cycle(weight)]
fn branch_weight(branches: &[Query]) -> Option<usize>
    ensures { IfSome result (λ n. n ≡ total (map weight branches.now)) }
{
    let mut sum = 0_usize;
    for branch in branches {
        sum = sum.checked_add(weight(branch)?)?;
    }
    Some(sum)
}

/// The greatest number of rows that halves and steps add on one path down the proof.
fn depth(proof: &Proof) -> Option<usize>
    ensures { IfSome result (λ n. n ≡ depth proof.now) }
{
    match proof {
        Proof::Close(steps) => Some(steps.len()),
        Proof::Halve(_, _, low, high) => {
            let low = depth(low.get())?;
            let high = depth(high.get())?;
            low.max(high).checked_add(1)
        }
        Proof::Case(_, proofs) => {
            let mut greatest = 0;
            for inner in proofs.as_slice() {
                greatest = depth(inner)?.max(greatest);
            }
            Some(greatest)
        }
    }
}
