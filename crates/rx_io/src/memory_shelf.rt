// A shelf in memory, which tells all its texts.
ghost use Rattle.std.specs.Prelude.{◌≡◌, ◌≤◌, ◌↔◌, [], IfOk, OnOk, OnErr, IsErrOf, IfSome, IfNone, find, map, string_bytes};
ghost use Rattle.std.specs.Option.{option_copied};
ghost use Rattle.std.specs.List.{position_or_len};
ghost use Rattle.rx_io.specs.Entries.{entry_of, is_named};
ghost use Rattle.rx_io.specs.Faults.{HasRisen};
ghost use Rattle.rx_io.specs.Memory.{IsFresh, IsDue, Passes, Fails};
ghost use Rattle.rx_io.specs.Shelf.{text_of, Finds, IsWithin, Puts};

use crate::calls::Calls;
use crate::{Fetched, NoMemory, Shelf, ShelfFault, TEXT_LIMIT};
use std::alloc::Global;
use std::marker::Model;

/// A text under its name.
#[derive(Drop)]
pub struct Entry {
    name: String,
    text: Vec<u8>,
}

/// A shelf that keeps its texts in memory.
#[derive(Drop)]
pub struct MemoryShelf {
    entries: Vec<Entry>,
    calls: Calls,
}

impl Model for MemoryShelf {
    ghost use Rattle.std.specs.Prelude.{map};
    ghost use Rattle.rx_io.specs.Memory.{ShelfState};

    ghost Value = { ShelfState };

    ghost use Rattle.rx_io.specs.Entries.{entry_of};

    ghost view = { λ shelf. record { texts = map entry_of shelf.entries.items; calls = shelf.calls } };
}

// The first entry of a name.
fn entry_at<'a>(entries: &'a [Entry], name: &str) -> Option<&'a Entry>
    ensures { option_copied result ≡ find (is_named name.now) entries.now }
{
    entries.iter().find(|entry| entry.name.as_str() == name)
}

// The text under a name.
fn text_under<'a>(entries: &'a [Entry], name: &str) -> Option<&'a Vec<u8>>
    ensures some { IfSome result (λ text. text_of name.now (map entry_of entries.now) ≡ Some text.now.items) }
    ensures none { IfNone result (text_of name.now (map entry_of entries.now) ≡ None) }
{
    match entry_at(entries, name) {
        Some(entry) => return Some(&entry.text),
        None => return None,
    }
}

// The place of the first entry of a name, or the number of entries.
fn place_of(entries: &[Entry], name: &str) -> usize
    ensures { result ≡ position_or_len (is_named name.now) entries.now }
{
    entries
        .iter()
        .take_while(|entry| entry.name.as_str() != name)
        .count()
}

// Puts an entry in place of the first one of its name, or else behind all others.
fn put(entries: &mut Vec<Entry>, entry: Entry) -> Result<(), NoMemory>
    ensures puts { OnOk result (Puts (string_bytes entry.name) entry.text.items (map entry_of entries.old.items) (map entry_of entries.new.items)) }
    ensures kept { OnErr result (entries.new.items ≡ entries.old.items) }
{
    let place = place_of(entries, entry.name.as_str());
    if place < entries.len() {
        entries[place] = entry;
        return Ok(());
    }
    match entries.push(entry) {
        Ok(()) => return Ok(()),
        Err(_) => return Err(NoMemory),
    }
}

impl MemoryShelf {
    /// A shelf without texts. The fetches whose numbers, counted from 1, are in `fails` fail.
    pub fn make(alloc: Global, fails: &[u64]) -> Result<MemoryShelf, NoMemory>
        ensures texts { IfOk result (λ shelf. shelf.texts ≡ []) }
        ensures calls { IfOk result (λ shelf. IsFresh fails.now shelf.calls) }
    {
        Ok(MemoryShelf {
            entries: Vec::new(alloc),
            calls: Calls::make(alloc, fails)?,
        })
    }

    /// Puts the text under the name, in place of an earlier one.
    pub fn add(&mut self, alloc: Global, name: &str, text: &[u8]) -> Result<(), NoMemory>
        ensures puts { OnOk result (Puts name.now text.now self.old.texts self.new.texts) }
        ensures kept { OnErr result (self.new.texts ≡ self.old.texts) }
        ensures same_calls { self.new.calls ≡ self.old.calls }
    {
        let entry = Entry {
            name: String::from_str(alloc, name)?,
            text: text.to_vec(alloc)?,
        };
        put(&mut self.entries, entry)
    }
}

impl Shelf for MemoryShelf {
    ghost use Rattle.std.specs.Prelude.{Some};

    ghost texts = { λ shelf. Some shelf.texts };

    ghost faults = { λ shelf. shelf.calls.faults };

    fn fetch(
        &mut self,
        alloc: Global,
        name: &str,
        into: &mut Vec<u8>,
    ) -> Result<Fetched, ShelfFault>
        // which fetch fails; want of memory counts no fault
        ensures fails { IsErrOf result ShelfFault.Failed ↔ IsDue self.old.calls }
        ensures failing { IsErrOf result ShelfFault.Failed → Fails self.old.calls self.new.calls }
        ensures no_memory { IsErrOf result ShelfFault.NoMemory → Passes self.old.calls self.new.calls }

        // what another fetch finds
        ensures passing { OnOk result (Passes self.old.calls self.new.calls) }
        ensures found { IfOk result (λ fetched. Finds (text_of name.now self.old.texts) fetched into.new.items) }
        ensures same_texts { self.new.texts ≡ self.old.texts }

        // as of every shelf
        ensures within { IfOk result (λ fetched. IsWithin fetched into.new.items) }
        ensures failed { OnErr result (into.new.items ≡ []) }
        ensures never_falls { self.old.calls.faults ≤ self.new.calls.faults }
        ensures cause { IsErrOf result ShelfFault.Failed → HasRisen self.old.calls.faults self.new.calls.faults }
    {
        let _ = alloc;
        into.clear();
        if self.calls.begin(false).is_err() {
            return Err(ShelfFault::Failed);
        }
        let Some(text) = text_under(&self.entries, name) else {
            return Ok(Fetched::Absent);
        };
        if text.len() > TEXT_LIMIT {
            return Ok(Fetched::TooLong);
        }
        match into.extend_from_slice(text) {
            Ok(()) => return Ok(Fetched::Text),
            Err(_) => return Err(ShelfFault::NoMemory),
        }
    }
}
