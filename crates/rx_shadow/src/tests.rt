// The worked systems: what a person who solves them by hand expects.
use crate::{NoMemory, Solved, is_bounded, solve};
use rx_linear::{Row, System};
use sqlite_items::Items;
use std::alloc::Global;
use std::process::Abort;
use std::test::Fail;

/// The system with these rows of coefficients, each with its constant after them.
fn system(
    rt: &impl Abort,
    alloc: Global,
    variables: usize,
    cells: &[i128],
) -> Result<System, NoMemory> {
    assert!(rt; variables <= 192);
    let mut rows = Vec::new(alloc);
    for row in cells.chunks(variables + 1) {
        if let [coefficients @ .., least] = row {
            let coefficients = Items::from_slice(alloc, coefficients)?;
            rows.push(Row {
                coefficients,
                least: *least,
            })?;
        }
    }
    assert!(rt; System::fits(variables, rows.as_slice()));
    Ok(System::new(variables, Items::from_vec(rows)))
}

/// What the rows come to.
fn answer(
    rt: &impl Abort,
    alloc: Global,
    variables: usize,
    cells: &[i128],
) -> Result<Solved, NoMemory> {
    let system = system(rt, alloc, variables, cells)?;
    let bounded = is_bounded(alloc, &system)?;
    assert!(rt; bounded);
    solve(alloc, &system)
}

fn closes(
    rt: &impl Abort,
    alloc: Global,
    variables: usize,
    cells: &[i128],
) -> Result<bool, NoMemory> {
    match answer(rt, alloc, variables, cells)? {
        Solved::Closed(_) => Ok(true),
        _ => Ok(false),
    }
}

fn is_point(
    rt: &impl Abort,
    alloc: Global,
    variables: usize,
    cells: &[i128],
    numbers: &[i128],
) -> Result<bool, NoMemory> {
    match answer(rt, alloc, variables, cells)? {
        Solved::Point(point) => Ok(point.as_slice() == numbers),
        _ => Ok(false),
    }
}

// x >= 2 and x <= 1; 2x >= 1 and 2x <= 1, which a fraction satisfies.
#[test]
fn closes_one_variable(rt: HostRuntime) -> Result<(), Fail> {
    assert!(rt; closes(&rt, rt.alloc(), 1, &[1, 2, -1, -1])?);
    assert!(rt; closes(&rt, rt.alloc(), 1, &[2, 1, -2, -1])?);
    Ok(())
}

// 0 <= a <= 255, 0 <= b <= 255 and 3a + 5b = 7; then with a <= 0; then 3a + 5b = 8 with a = 1.
#[test]
fn solves_two_variables(rt: HostRuntime) -> Result<(), Fail> {
    let seven = [
        1, 0, 0, -1, 0, -255, 0, 1, 0, 0, -1, -255, 3, 5, 7, -3, -5, -7,
    ];
    let solved = answer(&rt, rt.alloc(), 2, &seven)?;
    assert!(rt; matches!(&solved, Solved::NotSimple(0)));
    let none = [
        1, 0, 0, -1, 0, -255, 0, 1, 0, 0, -1, -255, 3, 5, 7, -3, -5, -7, -1, 0, 0,
    ];
    assert!(rt; closes(&rt, rt.alloc(), 2, &none)?);
    let eight = [
        1, 0, 0, -1, 0, -255, 0, 1, 0, 0, -1, -255, 3, 5, 8, -3, -5, -8, 1, 0, 1, -1, 0, -1,
    ];
    assert!(rt; is_point(&rt, rt.alloc(), 2, &eight, &[1, 1])?);
    Ok(())
}

// No variables and no rows: the point of no numbers.
#[test]
fn solves_nothing(rt: HostRuntime) -> Result<(), Fail> {
    assert!(rt; is_point(&rt, rt.alloc(), 0, &[], &[])?);
    Ok(())
}

// 0 <= x, y <= 2^62, x - y = 2^61 and x + y = 2^62; then x + y = 2^62 + 1, which has no integer point.
#[test]
fn solves_large_numbers(rt: HostRuntime) -> Result<(), Fail> {
    let most: i128 = 1 << 62;
    let half: i128 = 1 << 61;
    let even = [
        1, 0, 0, -1, 0, -most, 0, 1, 0, 0, -1, -most, 1, -1, half, -1, 1, -half, 1, 1, most, -1,
        -1, -most,
    ];
    assert!(rt;
        is_point(
            &rt,
            rt.alloc(),
            2,
            &even,
            &[3458764513820540928, 1152921504606846976]
        )?
    );
    let odd = [
        1,
        0,
        0,
        -1,
        0,
        -most,
        0,
        1,
        0,
        0,
        -1,
        -most,
        1,
        -1,
        half,
        -1,
        1,
        -half,
        1,
        1,
        most + 1,
        -1,
        -1,
        -most - 1,
    ];
    assert!(rt; closes(&rt, rt.alloc(), 2, &odd)?);
    Ok(())
}

// The next state of a fixed row of numbers.
fn next(state: u32) -> u32 {
    state.wrapping_mul(1664525).wrapping_add(1013904223)
}

// A number from -3 to 3.
fn small(state: u32) -> i32 {
    ((state >> 16) % 7) as i32 - 3
}

fn holds(first: i32, second: i32, least: i32, x: i32, y: i32) -> bool {
    first.wrapping_mul(x).wrapping_add(second.wrapping_mul(y)) >= least
}

// Whether both rows hold at some point with 0 <= x, y <= 3, by looking at all of them.
fn has_point(rows: [i32; 6]) -> bool {
    let [a, b, c, d, e, f] = rows;
    for x in 0..4 {
        for y in 0..4 {
            if holds(a, b, c, x, y) {
                if holds(d, e, f, x, y) {
                    return true;
                }
            }
        }
    }
    false
}

// 300 systems of two random rows over 0 <= x, y <= 3: a point is answered only where the search finds one, and
// closing steps only where it finds none.
#[test]
fn agrees_with_a_search_of_the_box(rt: HostRuntime) -> Result<(), Fail> {
    let mut state = 1u32;
    for _ in 0..300 {
        let mut rows = [0i32; 6];
        for k in 0..6 {
            state = next(state);
            rows[k] = small(state);
        }
        let [a, b, c, d, e, f] = rows;
        let cells = [
            1, 0, 0, -1, 0, -3, 0, 1, 0, 0, -1, -3, a as i128, b as i128, c as i128, d as i128,
            e as i128, f as i128,
        ];
        match answer(&rt, rt.alloc(), 2, &cells)? {
            Solved::Point(_) => assert!(rt; has_point(rows)),
            Solved::Closed(_) => assert!(rt; !has_point(rows)),
            Solved::NotSimple(_) => {}
        }
    }
    Ok(())
}
