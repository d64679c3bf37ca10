// Where the fields of a path stand among its entries, looked up by their ids.

ghost use Rattle.std.specs.Prelude.{◌≡◌, ℕ, ◌<◌, ◌≤◌, length, Some, slice_get, slice_index, IfSome, IfNone};
ghost use Rattle.rx_types.specs.declared.env.Entry.{Entry as AnEntry};
ghost use Rattle.rx_context.specs.Slots.{AreSlots, HaveLowFields};

use rx_types::{Entry, FieldId};

/// For each field its place among the entries, counted from 1, or 0 where it is not among them.
pub fn slots_of(entries: &[Entry]) -> [u8; 128]
    requires few { length entries.now ≤ 128 }
    requires low { HaveLowFields entries.now }
    ensures { AreSlots entries.now result (length entries.now) }
{
    let mut slots = [0u8; 128];
    for index in 0..entries.len() {
        let field = entries[index].field as usize;
        slots[field] = index as u8 + 1;
    }
    slots
}

/// The entry of a field, if it has one.
pub fn find(entries: &[Entry], slots: &[u8], field: FieldId) -> Option<Entry>
    requires { AreSlots entries.now slots.now (length entries.now) }
    ensures some { IfSome result (λ e. (k : ℕ) × (slice_get entries.now k ≡ Some e) × (e.field ≡ field)) }
    ensures none { IfNone result ((k : ℕ) (e : AnEntry) → slice_get entries.now k ≡ Some e → e.field ≡ field → ⊥) }
{
    let slot = slot_of(slots, field);
    if slot == 0 {
        return None;
    }
    Some(entries[slot - 1])
}

fn slot_of(slots: &[u8], field: FieldId) -> usize
    ensures { result ≡ slice_index slots.now field }
{
    match slots.get(field as usize) {
        Some(slot) => *slot as usize,
        None => 0,
    }
}
