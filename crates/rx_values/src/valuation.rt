//! What fields hold, and valuations: fields with what they hold, by ascending ids.

ghost use Rattle.std.specs.Prelude.{◌≡◌, ◌≤◌, length, None, [], IfOk, is_some, option_map};
ghost use Rattle.std.specs.List.{prefix_len};
ghost use Rattle.rx_graph.specs.Fits.{content_of, IsAscending};
ghost use Rattle.rx_values.specs.Valuation.{assigned, content, inserted, is_before};

use crate::fault::NoMemory;
use rx_types::FieldId;
use std::alloc::Global;
use std::marker::Model;

/// What a field holds.
#[derive(Debug, Drop)]
pub enum Value {
    Number(u64),
    Bytes(Vec<u8>),
}

/// What some fields of a message hold, by ascending ids.
#[derive(Debug, Drop)]
pub struct Valuation {
    entries: Vec<(FieldId, Value)>,
}

impl Model for Valuation {
    ghost use Rattle.std.specs.Prelude.{List};
    ghost use Rattle.rx_graph.specs.Fits.{Assigned, IsAscending};
    ghost use Rattle.rx_values.specs.Valuation.{assigned};

    ghost Value = { List Assigned };

    ghost view = { λ v. assigned v.entries.items };

    ghost invariant = { λ v. IsAscending (assigned v.entries.items) };
}

// How many entries at the front have ids below this one.
fn count_before(entries: &[(FieldId, Value)], field: FieldId) -> usize
    ensures count { result ≡ prefix_len (is_before field) entries.now }
    ensures within { result ≤ length entries.now }
{
    entries.iter().take_while(|entry| entry.0 < field).count()
}

impl Valuation {
    /// The valuation that names no field.
    pub fn new(alloc: Global) -> Valuation
        ensures { result ≡ [] }
    {
        Valuation {
            entries: Vec::new(alloc),
        }
    }

    /// The valuation that names one field more.
    pub fn put(self, field: FieldId, value: Value) -> Result<Valuation, NoMemory>
        requires { content_of field self ≡ None }
        ensures { IfOk result (λ v. v ≡ inserted field (content value) self) }
    {
        let Valuation { mut entries } = self;
        let at = count_before(entries.as_slice(), field);
        entries.insert(at, (field, value))?;
        Ok(Valuation { entries })
    }

    /// What a field holds, if the valuation names it.
    pub fn get(&self, field: FieldId) -> Option<&Value>
        ensures { option_map (λ v. content v.now) result ≡ content_of field self.now }
    {
        for entry in self.entries.as_slice() {
            if entry.0 == field {
                return Some(&entry.1);
            }
        }
        None
    }

    /// Whether the valuation names a field.
    pub fn names(&self, field: FieldId) -> bool
        ensures { result ≡ is_some (content_of field self.now) }
    {
        self.get(field).is_some()
    }

    /// The fields with what they hold, by ascending ids.
    pub fn entries(&self) -> &[(FieldId, Value)]
        ensures values { assigned result.now ≡ self.now }
        ensures ascending { IsAscending self.now }
    {
        self.entries.as_slice()
    }
}
