// The open disjunctions of a node, kept on the call stack.
ghost use Rattle.std.specs.Prelude.{◌≡◌, ◌+◌, ◌-◌, ◌<◌, ◌≤◌, ◌^◌, length, slice_get, Some, MatchResult, MatchOption};
ghost use Rattle.rx_proof.specs.Open.{disjunctions, size};

use crate::Query;
use sqlite_items::{Items, at};

/// A query's own disjunctions, or another list without one of them and with more at its end.
#[derive(Clone, Copy)]
pub enum Open<'a> {
    Own(&'a [Items<Query>]),
    Entered(&'a Open<'a>, usize, &'a [Items<Query>]),
}

/// The disjunction at that place where the list has it behind the first `left`, else how many there are.
fn beyond<'a>(
    more: &'a [Items<Query>],
    left: usize,
    place: usize,
) -> Result<&'a Items<Query>, usize>
    requires { left ≤ place }
    ensures { MatchResult result (λ found. slice_get more.now (place - left) ≡ Some found.now) (λ count. (count ≡ left + length more.now) × (count ≤ place)) }
{
    match at(more, place - left) {
        Some(found) => Ok(found),
        None => Err(left + more.len()),
    }
}

/// The disjunction at that place, counted from 0, or how many there are where there are not so many.
fn look<'a>(chain: &Open<'a>, place: usize) -> Result<&'a Items<Query>, usize>
    requires { size chain.now < 2 ^ 64 }
    ensures { MatchResult result (λ found. slice_get (disjunctions chain.now) place ≡ Some found.now) (λ count. (count ≡ length (disjunctions chain.now)) × (count ≤ place)) }
{
    match chain {
        Open::Own(list) => beyond(list, 0, place),
        Open::Entered(inner, taken, more) => {
            let before = if place < *taken {
                place
            } else {
                place.saturating_add(1)
            };
            match look(inner, before) {
                Ok(found) => Ok(found),
                Err(count) => {
                    let left = if *taken < count { count - 1 } else { count };
                    beyond(more, left, place)
                }
            }
        }
    }
}

/// The disjunction at that place, counted from 0.
pub fn find<'a>(chain: &Open<'a>, place: usize) -> Option<&'a Items<Query>>
    requires { size chain.now < 2 ^ 64 }
    ensures { MatchOption result (slice_get (disjunctions chain.now) place ≡ None) (λ found. slice_get (disjunctions chain.now) place ≡ Some found.now) }
{
    look(chain, place).ok()
}
