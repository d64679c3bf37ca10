// The worked queries: what a person who walks them by hand expects.
use crate::{Answer, NoMemory, OpenTree, prove};
use rx_linear::{Row, System};
use rx_proof::{Desk, Proof, Query, accepts};
use rx_shadow::is_bounded;
use sqlite_items::Items;
use std::alloc::Global;
use std::process::Abort;
use std::test::Fail;

/// The system with these rows of coefficients, each with its constant after them.
fn system(
    rt: &impl Abort,
    alloc: Global,
    variables: usize,
    cells: &[i128],
) -> Result<System, NoMemory> {
    assert!(rt; variables <= 192);
    let mut rows = Vec::new(alloc);
    for row in cells.chunks(variables + 1) {
        if let [coefficients @ .., least] = row {
            let coefficients = Items::from_slice(alloc, coefficients)?;
            rows.push(Row {
                coefficients,
                least: *least,
            })?;
        }
    }
    assert!(rt; System::fits(variables, rows.as_slice()));
    Ok(System::new(variables, Items::from_vec(rows)))
}

/// A query without disjunctions.
fn plain(
    rt: &impl Abort,
    alloc: Global,
    variables: usize,
    cells: &[i128],
) -> Result<Query, NoMemory> {
    Ok(Query {
        system: system(rt, alloc, variables, cells)?,
        either: Items::new(alloc),
    })
}

/// 0 <= x <= 9 and one disjunction, each branch a row of x.
fn digit(rt: &impl Abort, alloc: Global, branches: &[i128]) -> Result<Query, NoMemory> {
    let mut queries = Vec::new(alloc);
    for cells in branches.chunks(2) {
        queries.push(plain(rt, alloc, 1, cells)?)?;
    }
    let mut either = Vec::new(alloc);
    either.push(Items::from_vec(queries))?;
    Ok(Query {
        system: system(rt, alloc, 1, &[1, 0, -1, -9])?,
        either: Items::from_vec(either),
    })
}

/// How the walk of the query ends.
fn answer(rt: &impl Abort, alloc: Global, query: &Query, splits: u32) -> Result<Answer, Fail> {
    let bounded = is_bounded(alloc, &query.system)?;
    assert!(rt; bounded);
    let even = query.is_even();
    assert!(rt; even);
    assert!(rt; 1 <= splits && splits <= 4096);
    Ok(prove(alloc, query, splits)?)
}

/// How many cases and halvings the proof has.
fn proof_nodes(proof: &Proof) -> usize {
    match proof {
        Proof::Close(_) => 0,
        Proof::Halve(_, _, low, high) => proof_nodes(low.get())
            .saturating_add(proof_nodes(high.get()))
            .saturating_add(1),
        Proof::Case(_, proofs) => {
            let mut count: usize = 1;
            for inner in proofs.as_slice() {
                count = count.saturating_add(proof_nodes(inner));
            }
            count
        }
    }
}

/// How many cases and halvings the tree has.
fn tree_nodes(tree: &OpenTree) -> usize {
    match tree {
        OpenTree::Close(_) | OpenTree::Open => 0,
        OpenTree::Halve(_, _, low, high) => tree_nodes(low.get())
            .saturating_add(tree_nodes(high.get()))
            .saturating_add(1),
        OpenTree::Case(_, trees) => {
            let mut count: usize = 1;
            for inner in trees.as_slice() {
                count = count.saturating_add(tree_nodes(inner));
            }
            count
        }
    }
}

// 0 <= a <= 255, 0 <= b <= 255 and 3a + 5b = 7.
const SEVEN: [i128; 18] = [
    1, 0, 0, -1, 0, -255, 0, 1, 0, 0, -1, -255, 3, 5, 7, -3, -5, -7,
];

#[test]
fn halves_two_bytes(rt: HostRuntime) -> Result<(), Fail> {
    let query = plain(&rt, rt.alloc(), 2, &SEVEN)?;
    match answer(&rt, rt.alloc(), &query, 255)? {
        Answer::NoPoint(proof) => assert_eq!(rt; proof_nodes(&proof), 255),
        _ => assert!(rt; false, "255 splits are enough"),
    }
    match answer(&rt, rt.alloc(), &query, 254)? {
        Answer::Undecided(tree) => assert_eq!(rt; tree_nodes(&tree), 254),
        _ => assert!(rt; false, "254 splits are not enough"),
    }
    Ok(())
}

// 0 <= x <= 9 and either x <= -1 or x >= 10; then x >= 9 for x >= 10; then no branch.
#[test]
fn walks_one_case(rt: HostRuntime) -> Result<(), Fail> {
    let query = digit(&rt, rt.alloc(), &[-1, 1, 1, 10])?;
    match answer(&rt, rt.alloc(), &query, 1)? {
        Answer::NoPoint(Proof::Case(0, proofs)) => assert_eq!(rt; proofs.len(), 2),
        _ => assert!(rt; false, "both branches are closed"),
    }
    let query = digit(&rt, rt.alloc(), &[-1, 1, 1, 9])?;
    match answer(&rt, rt.alloc(), &query, 1)? {
        Answer::Point(point) => assert_eq!(rt; point.as_slice(), [9].as_slice()),
        _ => assert!(rt; false, "9 is a point"),
    }
    let query = digit(&rt, rt.alloc(), &[])?;
    match answer(&rt, rt.alloc(), &query, 1)? {
        Answer::NoPoint(Proof::Case(0, proofs)) => assert_eq!(rt; proofs.len(), 0),
        _ => assert!(rt; false, "no branch is left"),
    }
    Ok(())
}

/// Whether the check of the proof accepts it.
fn is_accepted(
    rt: &impl Abort,
    alloc: Global,
    query: &Query,
    proof: &Proof,
) -> Result<bool, rx_proof::NoMemory> {
    let even = query.is_even();
    assert!(rt; even);
    let mut desk = Desk::make(alloc, query, proof)?;
    Ok(accepts(query, proof, &mut desk))
}

// x = 0, y = 2^99 and x + 2^19 y >= 0: the elimination of y passes the limits, and no variable has two values.
#[test]
fn halves_as_deep_as_the_budget(rt: HostRuntime) -> Result<(), Fail> {
    let great: i128 = 1 << 99;
    let cells = [1, 0, 0, -1, 0, 0, 0, 1, great, 0, -1, -great, 1, 524_288, 0];
    let query = plain(&rt, rt.alloc(), 2, &cells)?;
    match answer(&rt, rt.alloc(), &query, 4096)? {
        Answer::Undecided(tree) => assert_eq!(rt; tree_nodes(&tree), 4096),
        _ => assert!(rt; false, "each half is the same node again"),
    }
    Ok(())
}

/// 0 <= x <= 9 and so many disjunctions of one branch without rows, then one of no branches.
fn chain(rt: &impl Abort, alloc: Global, count: usize) -> Result<Query, NoMemory> {
    let mut either = Vec::new(alloc);
    for _ in 0..count {
        let mut branches = Vec::new(alloc);
        branches.push(plain(rt, alloc, 1, &[])?)?;
        either.push(Items::from_vec(branches))?;
    }
    either.push(Items::new(alloc))?;
    Ok(Query {
        system: system(rt, alloc, 1, &[1, 0, -1, -9])?,
        either: Items::from_vec(either),
    })
}

#[test]
fn walks_cases_as_deep_as_the_budget(rt: HostRuntime) -> Result<(), Fail> {
    let query = chain(&rt, rt.alloc(), 4095)?;
    match answer(&rt, rt.alloc(), &query, 4096)? {
        Answer::NoPoint(proof) => {
            assert_eq!(rt; proof_nodes(&proof), 4096);
            assert!(rt; is_accepted(&rt, rt.alloc(), &query, &proof)?);
        }
        _ => assert!(rt; false, "the last disjunction has no branch"),
    }
    match answer(&rt, rt.alloc(), &query, 4095)? {
        Answer::Undecided(tree) => assert_eq!(rt; tree_nodes(&tree), 4095),
        _ => assert!(rt; false, "one more split is needed"),
    }
    Ok(())
}

// The next state of a fixed row of numbers.
fn next(state: u32) -> u32 {
    state.wrapping_mul(1664525).wrapping_add(1013904223)
}

// A number from -3 to 3.
fn small(state: u32) -> i128 {
    ((state >> 16) % 7) as i128 - 3
}

fn row_holds(row: [i128; 3], x: i128, y: i128) -> bool {
    let [first, second, least] = row;
    first.wrapping_mul(x).wrapping_add(second.wrapping_mul(y)) >= least
}

// Whether the equation holds, and of the next four rows one of the first two and one of the last two.
fn is_satisfied(rows: [[i128; 3]; 5], x: i128, y: i128) -> bool {
    let [[first, second, sum], one, other, third, fourth] = rows;
    first.wrapping_mul(x).wrapping_add(second.wrapping_mul(y)) == sum
        && (row_holds(one, x, y) || row_holds(other, x, y))
        && (row_holds(third, x, y) || row_holds(fourth, x, y))
}

// Whether there is a point with 0 <= x, y <= 5, by looking at all of them.
fn has_point(rows: [[i128; 3]; 5]) -> bool {
    for x in 0i32..6 {
        for y in 0i32..6 {
            if is_satisfied(rows, x as i128, y as i128) {
                return true;
            }
        }
    }
    false
}

/// A disjunction of two rows.
fn one_of(
    rt: &impl Abort,
    alloc: Global,
    first: [i128; 3],
    second: [i128; 3],
) -> Result<Items<Query>, NoMemory> {
    let mut branches = Vec::new(alloc);
    branches.push(plain(rt, alloc, 2, &first)?)?;
    branches.push(plain(rt, alloc, 2, &second)?)?;
    Ok(Items::from_vec(branches))
}

/// The equation over 0 <= x, y <= 5, and two disjunctions of two rows.
fn random_query(rt: &impl Abort, alloc: Global, rows: [[i128; 3]; 5]) -> Result<Query, NoMemory> {
    let [[a, b, c], one, other, third, fourth] = rows;
    let cells = [
        1,
        0,
        0,
        -1,
        0,
        -5,
        0,
        1,
        0,
        0,
        -1,
        -5,
        a,
        b,
        c,
        a.wrapping_neg(),
        b.wrapping_neg(),
        c.wrapping_neg(),
    ];
    let mut either = Vec::new(alloc);
    either.push(one_of(rt, alloc, one, other)?)?;
    either.push(one_of(rt, alloc, third, fourth)?)?;
    Ok(Query {
        system: system(rt, alloc, 2, &cells)?,
        either: Items::from_vec(either),
    })
}

// 200 random queries: a point is answered exactly where the search finds one.
#[test]
fn agrees_with_a_search_of_the_box(rt: HostRuntime) -> Result<(), Fail> {
    let mut state = 1u32;
    let mut closed = 0u32;
    for _ in 0..200 {
        let mut rows = [[0i128; 3]; 5];
        for i in 0..5 {
            for j in 0..3 {
                state = next(state);
                rows[i][j] = small(state);
            }
        }
        let query = random_query(&rt, rt.alloc(), rows)?;
        match answer(&rt, rt.alloc(), &query, 4096)? {
            Answer::NoPoint(_) => {
                assert!(rt; !has_point(rows));
                closed = closed.saturating_add(1);
            }
            Answer::Point(_) => assert!(rt; has_point(rows)),
            Answer::Undecided(_) => assert!(rt; false, "36 points need few splits"),
        }
    }
    assert!(rt; closed > 20 && closed < 180, "{closed}");
    Ok(())
}
