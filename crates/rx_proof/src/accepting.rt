// The check of a proof against a query, down the proof: it searches nothing and takes no memory.
ghost use Rattle.std.specs.Prelude.{◌<◌, ◌^◌, nat_lt, unsigned_abs, max, ◌≡◌, ◌+◌, ◌≤◌, length, map, true, List, ℤ, pos, ◌+ℤ◌, slice_get, Some, ◌++◌, ◌&&◌};
ghost use Rattle.std.specs.List.{remove, list_all};
ghost use Rattle.rx_linear.specs.Units.{unit_row};
ghost use Rattle.rx_proof.specs.declared.query.Query.{out-Query};
ghost use Rattle.rx_proof.specs.Queries.{satisfied, IsEven, has_variables, each_has_variables};
ghost use Rattle.rx_proof.specs.Acceptance.{accepted, accepts_proof, can_halve, halves_accepted, with_row, entered, each_accepts};
ghost use Rattle.rx_proof.specs.Room.{HasRoom, weight, open_weight, depth, total, greatest_of};
ghost use Rattle.rx_proof.specs.Open.{disjunctions, size, node_of};

use crate::open::{Open, find};
use crate::{Desk, Proof, Query};
use rx_linear::RowStack;

/// Whether the proof is accepted for the query: then no point of whole numbers satisfies the query.
pub fn accepts(query: &Query, proof: &Proof, desk: &mut Desk) -> bool
    requires even { IsEven query.now }
    requires made { HasRoom desk.old.stack query.now proof.now }
    ensures value { result ≡ accepts_proof query.now proof.now }
    ensures sound { result ≡ true → (point : List ℤ) → satisfied query.now point ≡ true → ⊥ }
    ensures kept { HasRoom desk.new.stack query.now proof.now }
{
    let stack = &mut desk.stack;
    stack.truncate(0);
    stack.join_all(query.system.rows());
    accept(proof, stack, &Open::Own(query.either.as_slice()))
}

/// Whether the number is below 2^100 in magnitude.
fn is_small(number: i128) -> bool
    ensures { result ≡ nat_lt (unsigned_abs number) (2 ^ 100) }
{
    number.unsigned_abs() < 1 << 100
}

/// Whether the variable may be halved at the number.
fn can_halve(variables: usize, variable: usize, middle: &i128) -> bool
    ensures { result ≡ can_halve variables variable middle.now }
{
    let middle = *middle;
    variable < variables && is_small(middle) && is_small(middle + 1)
}

/// Whether the proof is accepted at the node of these rows and open disjunctions. The rows stay.
#[cycle(accept)]
fn accept(proof: &Proof, stack: &mut RowStack, chain: &Open<'_>) -> bool
    requires room { length stack.old.rows + size chain.now + open_weight (disjunctions chain.now) + depth proof.now ≤ stack.old.limit }
    requires small { stack.old.limit < 2 ^ 64 }
    requires even { each_has_variables (disjunctions chain.now) stack.old.variables ≡ true }
    ensures value { result ≡ accepted proof.now (node_of stack.old chain.now) }
    ensures kept { stack.new ≡ stack.old }
{
    match proof {
        Proof::Close(steps) => stack.closes(steps.as_slice()),
        Proof::Halve(variable, middle, low, high) => {
            accept_halves(*variable, middle, low.get(), high.get(), stack, chain)
        }
        Proof::Case(place, proofs) => match find(chain, *place) {
            None => false,
            Some(branches) => {
                accept_branches(*place, proofs.as_slice(), branches.as_slice(), stack, chain)
            }
        },
    }
}

/// Whether the proofs are accepted where the variable is at most the number, and where it is above.
#[cycle(accept)]
fn accept_halves(
    variable: usize,
    middle: &i128,
    low: &Proof,
    high: &Proof,
    stack: &mut RowStack,
    chain: &Open<'_>,
) -> bool
    requires room { length stack.old.rows + size chain.now + open_weight (disjunctions chain.now) + (1 + max (depth low.now) (depth high.now)) ≤ stack.old.limit }
    requires small { stack.old.limit < 2 ^ 64 }
    requires even { each_has_variables (disjunctions chain.now) stack.old.variables ≡ true }
    ensures value { result ≡ halves_accepted variable middle.now low.now high.now (node_of stack.old chain.now) }
    ensures kept { stack.new ≡ stack.old }
{
    if !can_halve(stack.variables(), variable, middle) {
        return false;
    }
    if !accept_half(variable, &-1, &-*middle, low, stack, chain) {
        return false;
    }
    accept_half(variable, &1, &(*middle + 1), high, stack, chain)
}

/// Whether the proof is accepted with the row of one variable joined.
#[cycle(accept)]
fn accept_half(
    variable: usize,
    coefficient: &i128,
    least: &i128,
    proof: &Proof,
    stack: &mut RowStack,
    chain: &Open<'_>,
) -> bool
    requires within { variable < stack.old.variables }
    requires coefficient_small { unsigned_abs coefficient.now < 2 ^ 20 }
    requires least_small { unsigned_abs least.now < 2 ^ 100 }
    requires room { length stack.old.rows + size chain.now + open_weight (disjunctions chain.now) + (1 + depth proof.now) ≤ stack.old.limit }
    requires small { stack.old.limit < 2 ^ 64 }
    requires even { each_has_variables (disjunctions chain.now) stack.old.variables ≡ true }
    ensures value { result ≡ accepted proof.now (with_row (node_of stack.old chain.now) (unit_row stack.old.variables variable coefficient.now least.now)) }
    ensures kept { stack.new ≡ stack.old }
{
    let count = stack.len();
    stack.join_unit(variable, coefficient, least);
    let accepted = accept(proof, stack, chain);
    stack.truncate(count);
    accepted
}

/// Whether there is one proof for each branch, and each is accepted at its branch's node.
#[cycle(accept)]
fn accept_branches(
    place: usize,
    proofs: &[Proof],
    branches: &[Query],
    stack: &mut RowStack,
    chain: &Open<'_>,
) -> bool
    requires room { length stack.old.rows + size chain.now + (open_weight (remove (disjunctions chain.now) place) + total (map weight branches.now)) + greatest_of (map depth proofs.now) ≤ stack.old.limit }
    requires small { stack.old.limit < 2 ^ 64 }
    requires even { each_has_variables (remove (disjunctions chain.now) place) stack.old.variables ≡ true }
    requires branches_even { list_all (λ branch. has_variables branch stack.old.variables) branches.now ≡ true }
    ensures value { result ≡ each_accepts (node_of stack.old chain.now) place (map accepted proofs.now) branches.now }
    ensures kept { stack.new ≡ stack.old }
{
    if proofs.len() != branches.len() {
        return false;
    }
    for i in 0..proofs.len() {
        if !accept_branch(place, &proofs[i], &branches[i], stack, chain) {
            return false;
        }
    }
    true
}

/// Whether the proof is accepted at the node of one branch of the disjunction at that place.
#[cycle(accept)]
fn accept_branch(
    place: usize,
    proof: &Proof,
    branch: &Query,
    stack: &mut RowStack,
    chain: &Open<'_>,
) -> bool
    requires room { length stack.old.rows + size chain.now + (open_weight (remove (disjunctions chain.now) place) + weight branch.now) + depth proof.now ≤ stack.old.limit }
    requires small { stack.old.limit < 2 ^ 64 }
    requires even { each_has_variables (remove (disjunctions chain.now) place) stack.old.variables ≡ true }
    requires branch_even { has_variables branch.now stack.old.variables ≡ true }
    ensures value { result ≡ accepted proof.now (entered (node_of stack.old chain.now) place branch.now) }
    ensures kept { stack.new ≡ stack.old }
{
    let count = stack.len();
    stack.join_all(branch.system.rows());
    let accepted = accept(
        proof,
        stack,
        &Open::Entered(&*chain, place, branch.either.as_slice()),
    );
    stack.truncate(count);
    accepted
}
