// Proofs that were worked by hand, and small changes that make them wrong.
use crate::{Desk, NoMemory, Proof, Query, accepts};
use rx_linear::{Row, Step, System};
use sqlite_items::{Boxed, Items};
use std::alloc::{AllocError, Global};
use std::process::Abort;
use std::test::Fail;

type Numbers<'a> = (&'a [i128], i128);

fn query(
    rt: &impl Abort,
    alloc: Global,
    variables: usize,
    rows: &[Numbers],
) -> Result<Query, AllocError> {
    let mut all = Vec::new(alloc);
    for (coefficients, least) in rows {
        all.push(Row {
            coefficients: Items::from_slice(alloc, *coefficients)?,
            least: *least,
        })?;
    }
    assert!(rt; System::fits(variables, all.as_slice()));
    Ok(Query {
        system: System::new(variables, Items::from_vec(all)),
        either: Items::new(alloc),
    })
}

fn answer(rt: &impl Abort, alloc: Global, query: &Query, proof: &Proof) -> Result<bool, NoMemory> {
    assert!(rt; query.is_even());
    let mut desk = Desk::make(alloc, query, proof)?;
    Ok(accepts(query, proof, &mut desk))
}

fn close(alloc: Global, steps: &[Step]) -> Result<Proof, AllocError> {
    Ok(Proof::Close(Items::from_slice(alloc, steps)?))
}

fn combine(left: usize, left_times: i128, right: usize, right_times: i128) -> Step {
    Step::Combine {
        left,
        left_times,
        right,
        right_times,
    }
}

// x >= 2 and -x >= -1: their sum is false, and nothing else here is.
#[test]
fn closes_by_the_sum_of_two_bounds(rt: HostRuntime) -> Result<(), Fail> {
    let query = query(&rt, rt.alloc(), 1, &[(&[1], 2), (&[-1], -1)])?;
    for (step, wanted) in [
        (combine(0, 1, 1, 1), true),
        (combine(0, 1_048_575, 1, 1_048_575), true),
        (combine(0, 0, 1, 1), false),
        (combine(0, 1, 1, 1_048_576), false),
        (combine(0, 1_048_576, 1, 1_048_576), false),
        (combine(0, -1, 1, -1), false),
        (combine(0, 1, 2, 1), false),
        (Step::Tighten { row: 0 }, false),
        (Step::Tighten { row: 2 }, false),
    ] {
        let proof = close(rt.alloc(), &[step])?;
        assert_eq!(rt;
            answer(&rt, rt.alloc(), &query, &proof)?,
            wanted,
            "{step:?}"
        );
    }
    let none = close(rt.alloc(), &[])?;
    assert!(rt; !answer(&rt, rt.alloc(), &query, &none)?);
    Ok(())
}

// 2x >= 1 and -2x >= -1 are x >= 1 and -x >= 0 once they are joined.
#[test]
fn tightens_the_rows_of_the_query(rt: HostRuntime) -> Result<(), Fail> {
    let query = query(&rt, rt.alloc(), 1, &[(&[2], 1), (&[-2], -1)])?;
    let proof = close(rt.alloc(), &[combine(0, 1, 1, 1)])?;
    assert!(rt; answer(&rt, rt.alloc(), &query, &proof)?);
    Ok(())
}

// 0 <= x <= 9, and either x <= -1 or x >= 10: two sums close the two branches, and a proof of one branch does not.
fn outside(rt: &impl Abort, alloc: Global) -> Result<Query, AllocError> {
    let mut branches = Vec::new(alloc);
    branches.push(query(rt, alloc, 1, &[(&[-1], 1)])?)?;
    branches.push(query(rt, alloc, 1, &[(&[1], 10)])?)?;
    let mut either = Items::new(alloc);
    either.push(Items::from_vec(branches))?;
    let Query { system, either: _ } = query(rt, alloc, 1, &[(&[1], 0), (&[-1], -9)])?;
    Ok(Query { system, either })
}

#[test]
fn closes_each_branch_of_a_case(rt: HostRuntime) -> Result<(), Fail> {
    let query = outside(&rt, rt.alloc())?;
    let mut proofs = Items::new(rt.alloc());
    proofs.push(close(rt.alloc(), &[combine(0, 1, 2, 1)])?)?;
    proofs.push(close(rt.alloc(), &[combine(1, 1, 2, 1)])?)?;
    let both = Proof::Case(0, proofs);
    assert!(rt; answer(&rt, rt.alloc(), &query, &both)?);
    Ok(())
}

#[test]
fn refuses_a_case_of_one_branch(rt: HostRuntime) -> Result<(), Fail> {
    let query = outside(&rt, rt.alloc())?;
    let mut proofs = Items::new(rt.alloc());
    proofs.push(close(rt.alloc(), &[combine(0, 1, 2, 1)])?)?;
    let one = Proof::Case(0, proofs);
    assert!(rt; !answer(&rt, rt.alloc(), &query, &one)?);
    let none = close(rt.alloc(), &[combine(0, 1, 1, 1)])?;
    assert!(rt; !answer(&rt, rt.alloc(), &query, &none)?);
    Ok(())
}

fn halves(alloc: Global, variable: usize, middle: i128) -> Result<Proof, AllocError> {
    let low = close(alloc, &[combine(0, 1, 2, 1), combine(5, 1, 4, 2)])?;
    let high = close(alloc, &[combine(1, 1, 3, 1), combine(5, 1, 4, 2)])?;
    Ok(Proof::Halve(
        variable,
        middle,
        Boxed::new(alloc, low)?,
        Boxed::new(alloc, high)?,
    ))
}

// x + y = 1 and x = y: 2x is 1, so x is neither at most 0 nor at least 1.
#[test]
fn halves_at_a_number(rt: HostRuntime) -> Result<(), Fail> {
    let query = query(
        &rt,
        rt.alloc(),
        2,
        &[(&[1, 1], 1), (&[-1, -1], -1), (&[1, -1], 0), (&[-1, 1], 0)],
    )?;
    for (variable, middle, wanted) in [
        (0, 0, true),
        (0, 1, false),
        (0, -1, false),
        (2, 0, false),
        (0, (1 << 100) - 1, false),
    ] {
        let proof = halves(rt.alloc(), variable, middle)?;
        assert_eq!(rt;
            answer(&rt, rt.alloc(), &query, &proof)?,
            wanted,
            "{variable} {middle}"
        );
    }
    Ok(())
}
