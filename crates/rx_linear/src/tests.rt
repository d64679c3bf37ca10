// What no clause says: that the calls succeed where memory is ample, and rows that were worked by hand.
ghost use Rattle.std.specs.Prelude.{◌≡◌, IfOk, length};

use crate::system::fits;
use crate::{NoMemory, Row, RowStack, System, combine, holds_at, tighten};
use sqlite_items::Items;
use std::alloc::Global;
use std::process::Abort;
use std::test::Fail;

fn row(alloc: Global, coefficient: i128, least: i128) -> Result<Row, NoMemory> {
    Ok(Row {
        coefficients: Items::from_slice(alloc, &[coefficient])?,
        least,
    })
}

fn sum(rt: &impl Abort, alloc: Global, left: &Row, right: &Row) -> Result<Row, NoMemory> {
    assert!(rt; fits(1, left));
    assert!(rt; fits(1, right));
    combine(alloc, left, 1, right, 1)
}

fn tight(rt: &impl Abort, alloc: Global, row: &Row) -> Result<Row, NoMemory> {
    assert!(rt; fits(1, row));
    tighten(alloc, row)
}

fn is_true(rt: &impl Abort, row: &Row, number: i128) -> bool {
    assert!(rt; fits(1, row));
    assert!(rt; number.unsigned_abs() < 1 << 100);
    holds_at(row, &[number])
}

// x >= 2 and -x >= -1 give 0 >= 1.
#[test]
fn combines(rt: HostRuntime) -> Result<(), Fail> {
    let low = row(rt.alloc(), 1, 2)?;
    let high = row(rt.alloc(), -1, -1)?;
    let sum = sum(&rt, rt.alloc(), &low, &high)?;
    assert_eq!(rt; sum.coefficients.as_slice(), [0].as_slice());
    assert_eq!(rt; sum.least, 1);
    Ok(())
}

// 2x >= 1 is x >= 1, and -2x >= -1 is -x >= 0.
#[test]
fn tightens(rt: HostRuntime) -> Result<(), Fail> {
    for (coefficient, least, tight_coefficient, tight_least) in [
        (2, 1, 1, 1),
        (-2, -1, -1, 0),
        (0, 5, 0, 5),
    ] {
        let given = row(rt.alloc(), coefficient, least)?;
        let tight = tight(&rt, rt.alloc(), &given)?;
        assert_eq!(rt;
            tight.coefficients.as_slice(),
            [tight_coefficient].as_slice()
        );
        assert_eq!(rt; tight.least, tight_least);
    }
    Ok(())
}

// -x >= -1 holds at 1 and not at 2.
#[test]
fn tells_where_a_row_holds(rt: HostRuntime) -> Result<(), Fail> {
    let high = row(rt.alloc(), -1, -1)?;
    assert!(rt; is_true(&rt, &high, 1));
    assert!(rt; !is_true(&rt, &high, 2));
    Ok(())
}

fn count_joined(rt: &impl Abort, alloc: Global, rows: Vec<Row>) -> Result<usize, NoMemory> {
    assert!(rt; System::fits(1, rows.as_slice()));
    let system = System::new(1, Items::from_vec(rows));
    let mut stack = RowStack::make(alloc, 1, 9)?;
    assert!(rt; system.rows().len() <= 9);
    stack.join_all(system.rows());
    Ok(stack.len())
}

// The joined rows of 2x >= 1, 4x >= 3, 0 >= 0 and x >= 2 are x >= 1 and x >= 2.
#[test]
fn joins_each_row_once(rt: HostRuntime) -> Result<(), Fail> {
    let mut rows = Vec::new(rt.alloc());
    for (coefficient, least) in [(2, 1), (4, 3), (0, 0), (1, 2)] {
        rows.push(row(rt.alloc(), coefficient, least)?)?;
    }
    let count = count_joined(&rt, rt.alloc(), rows)?;
    assert_eq!(rt; count, 2);
    Ok(())
}
