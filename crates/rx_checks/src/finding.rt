//! The length and the numbers of a point.

ghost use Rattle.std.specs.Prelude.{◌≡◌, ◌<◌, ◌^◌, pos, map, take, drop, length, IfOk, slice_index_or};
ghost use Rattle.std.specs.List.{AllByRecursion};
ghost use Rattle.rx_graph.specs.declared.message.Node.TheVariants.{Start};
ghost use Rattle.rx_graph.specs.Cycles.{IsPath};
ghost use Rattle.rx_layout.specs.Goals.{source, IsGoal};
ghost use Rattle.rx_layout.specs.Laws.{IsPoint};
ghost use Rattle.rx_layout.specs.QueryOf.{query_for};
ghost use Rattle.rx_checks.specs.Told.{IsEvidence, TellsNumbers, IsNatural};

use crate::counting::scalars_along;
use crate::fault::NoMemory;
use crate::verdict::Evidence;
use rx_graph::{Elaborated, Path};
use rx_layout::{Goal, points_meet_goals};
use std::alloc::Global;

/// A number that is not below 0 and fits.
fn number_in(number: &i128) -> u64
    requires { IsNatural (2 ^ 64) number.now }
    ensures { pos result ≡ number.now }
{
    *number as u64
}

/// A length of at most 16,777,215 bytes.
fn length_in(number: &i128) -> u32
    requires { IsNatural (2 ^ 24) number.now }
    ensures { pos result ≡ number.now }
{
    *number as u32
}

/// Numbers that are not below 0 and fit.
fn numbers_in(alloc: Global, numbers: &[i128]) -> Result<Vec<u64>, NoMemory>
    requires { AllByRecursion (IsNatural (2 ^ 64)) numbers.now }
    ensures { IfOk result (λ all. map (λ n. pos n) all.items ≡ numbers.now) }
{
    let mut all = Vec::new(alloc);
    for number in numbers {
        all.push(number_in(number))?;
    }
    Ok(all)
}

/// The path with a length and numbers, as evidence.
fn numbered(
    alloc: Global,
    path: &Path,
    total: &i128,
    numbers: &[i128],
) -> Result<Evidence, NoMemory>
    requires total { IsNatural (2 ^ 24) total.now }
    requires numbers { AllByRecursion (IsNatural (2 ^ 64)) numbers.now }
    ensures { IfOk result (TellsNumbers path.now total.now numbers.now) }
{
    let length = length_in(total);
    let numbers = numbers_in(alloc, numbers)?;
    let path = path.copy(alloc)?;
    Ok(Evidence::Found {
        path,
        length,
        numbers,
    })
}

/// The path with the first number of a point as its length, and so many numbers behind it.
fn numbered_at(
    alloc: Global,
    path: &Path,
    point: &[i128],
    count: usize,
) -> Result<Evidence, NoMemory>
    requires long { count < length point.now }
    requires total { IsNatural (2 ^ 24) (slice_index_or point.now 0 (pos 0)) }
    requires numbers { AllByRecursion (IsNatural (2 ^ 64)) (take count (drop 1 point.now)) }
    ensures { IfOk result (TellsNumbers path.now (slice_index_or point.now 0 (pos 0)) (take count (drop 1 point.now))) }
{
    let numbers = &point[1..];
    numbered(alloc, path, &point[0], &numbers[..count])
}

/// The length and the numbers of the path's scalars at a point of its query.
pub(crate) fn evidence_at(
    alloc: Global,
    message: &Elaborated<'_>,
    goal: &Goal,
    path: &Path,
    point: &[i128],
) -> Result<Evidence, NoMemory>
    requires goal { IsGoal message.now.domains message.now.graph goal.now }
    requires path { IsPath message.now.graph Start path.now (source goal.now) }
    requires point { IsPoint (query_for message.now.domains message.now.graph goal.now path.now) point.now }
    ensures { IfOk result (IsEvidence message.now.domains message.now.graph goal.now path.now) }
{
    message.is_known();
    points_meet_goals(message);
    let count = scalars_along(path.links(), message);
    numbered_at(alloc, path, point, count)
}
