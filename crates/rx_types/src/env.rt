// What the fields of a path have.

ghost use Rattle.std.specs.Prelude.{◌≡◌, ◌<◌, IsTrue, ◌↔◌, [], ◌∷◌, ◌++◌, length};
ghost use Rattle.rx_types.specs.Environment.{place_of, placed, places, IsAmong, AreDistinct};

use crate::expr::FieldId;
use arrayvec::ArrayVec;
use std::marker::Model;

/// One field: its place in bits, and its number where it is a scalar.
#[derive(Clone, Copy, Debug, Default, PartialEq, Eq)]
pub struct Entry {
    pub field: FieldId,
    pub first: u32,
    pub size: u32,
    pub number: u64,
}

/// The length of a message in bytes, and at most one entry for each field, in the order of the path.
#[derive(Drop)]
pub struct Env {
    pub total: u32,
    pub entries: ArrayVec<Entry, 144>,
}

impl Model for Env {
    ghost use Rattle.rx_types.specs.Environment.{Environment, places, AreDistinct};

    ghost Value = { Environment };

    ghost view = { λ env. record { total = env.total; fields = places env.entries.items } };

    ghost invariant = { λ env. AreDistinct (places env.entries.items) };
}

impl Env {
    /// A message of `total` bytes, without fields.
    pub fn new(total: u32) -> Env
        ensures { result ≡ record { total = total; fields = [] } }
    {
        Env {
            total,
            entries: ArrayVec::new(),
        }
    }

    /// The length in bytes.
    pub fn total(&self) -> u32
        ensures { result ≡ self.now.total }
    {
        self.total
    }

    /// The entries, in order.
    pub fn entries(&self) -> &[Entry]
        ensures entries { places result.now ≡ self.now.fields }
        ensures distinct { AreDistinct self.now.fields }
    {
        self.entries.as_slice()
    }

    /// The field's entry, or one of zeros.
    pub fn entry(&self, field: FieldId) -> Entry
        ensures { placed result ≡ place_of field self.now.fields }
    {
        entry_of(self.entries.as_slice(), field)
    }

    /// Whether the field has an entry.
    pub fn has(&self, field: FieldId) -> bool
        ensures { IsTrue result ↔ IsAmong field self.now.fields }
    {
        is_among(self.entries.as_slice(), field)
    }

    /// One more field, behind the others.
    pub fn push(&mut self, entry: Entry)
        requires room { length self.old.fields < 144 }
        requires new { AreDistinct (self.old.fields ++ placed entry ∷ []) }
        ensures { self.new ≡ record self.old { fields = self.old.fields ++ placed entry ∷ [] } }
    {
        self.entries.push(entry);
    }
}

/// The field's entry among these, or one of zeros.
pub fn entry_of(entries: &[Entry], field: FieldId) -> Entry
    ensures { placed result ≡ place_of field (places entries.now) }
{
    for entry in entries {
        if entry.field == field {
            return *entry;
        }
    }
    Entry {
        field,
        first: 0,
        size: 0,
        number: 0,
    }
}

/// Whether the field has an entry among these.
pub fn is_among(entries: &[Entry], field: FieldId) -> bool
    ensures { IsTrue result ↔ IsAmong field (places entries.now) }
{
    for entry in entries {
        if entry.field == field {
            return true;
        }
    }
    false
}
