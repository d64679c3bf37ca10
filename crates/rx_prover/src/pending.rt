// The open disjunctions of a node, on one list for the whole walk.
ghost use Rattle.std.specs.Prelude.{◌≡◌, length, map, take, drop, OnOk};

use crate::NoMemory;
use rx_proof::Query;
use sqlite_items::Items;

/// Puts the disjunctions at the end.
pub(crate) fn put<'a>(
    pending: &mut Vec<&'a Items<Query>>,
    more: &'a [Items<Query>],
) -> Result<(), NoMemory>
    ensures before { OnOk result (take (length pending.old.items) pending.new.items ≡ pending.old.items) }
    ensures added { OnOk result (map (λ d. d.now) (drop (length pending.old.items) pending.new.items) ≡ more.now) }
{
    for branches in more {
        pending.push(branches)?;
    }
    Ok(())
}
