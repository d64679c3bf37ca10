//! Tables of names, which are looked up without their case.

ghost use Rattle.std.specs.Prelude.{◌≡◌, [], not, IfOk};
ghost use Rattle.rx_judge.specs.Table.{lowered, IsKeyOf, has, added, found};

use crate::fault::NoMemory;
use indexmap::IndexMap;
use std::alloc::Global;
use std::marker::Model;

/// A package and a name in it, both in lower case.
#[derive(Debug, Drop, PartialEq, Eq, Hash)]
pub struct Key {
    pub package: Vec<u8>,
    pub name: Vec<u8>,
}

/// Names with what they stand for, in the order in which they came, each name once.
#[derive(Drop)]
pub struct Table<T> {
    map: IndexMap<Key, T>,
}

impl<T> Model for Table<T> {
    ghost use Rattle.std.specs.Prelude.{List, ℕ};
    ghost use Rattle.rx_judge.specs.Table.{Entry, entries_of};

    ghost Value = { List (Entry T) };

    ghost view = { λ table. entries_of table.map.entries };
}

fn lower_case(alloc: Global, text: &[u8]) -> Result<Vec<u8>, NoMemory>
    ensures { IfOk result (λ bytes. bytes.items ≡ lowered text.now) }
{
    let mut bytes = Vec::from_slice(alloc, text)?;
    bytes.as_mut_slice().make_ascii_lowercase();
    Ok(bytes)
}

/// The key of a name in a package, whose name is empty for what stands in none.
pub fn key_of(alloc: Global, prefix: &[u8], name: &[u8]) -> Result<Key, NoMemory>
    ensures { IfOk result (λ key. IsKeyOf key prefix.now name.now) }
{
    let package = lower_case(alloc, prefix)?;
    let name = lower_case(alloc, name)?;
    Ok(Key { package, name })
}

impl<T: Copy> Table<T> {
    /// No names.
    pub fn new(alloc: Global) -> Table<T>
        ensures { result ≡ [] }
    {
        Table {
            map: IndexMap::new(alloc),
        }
    }

    /// Adds a name, unless it is there, and tells whether it was not.
    pub fn add(
        &mut self,
        alloc: Global,
        prefix: &[u8],
        name: &[u8],
        thing: T,
    ) -> Result<bool, NoMemory>
        ensures added { IfOk result (λ b. self.new ≡ added self.old prefix.now name.now thing) }
        ensures is_new { IfOk result (λ b. b ≡ not (has self.old prefix.now name.now)) }
    {
        let key = key_of(alloc, prefix, name)?;
        if self.map.contains_key(&key) {
            return Ok(false);
        }
        self.map.insert(key, thing)?;
        Ok(true)
    }

    /// Whether a name is there.
    pub fn has(&self, alloc: Global, prefix: &[u8], name: &[u8]) -> Result<bool, NoMemory>
        ensures { IfOk result (λ b. b ≡ has self.now prefix.now name.now) }
    {
        let key = key_of(alloc, prefix, name)?;
        Ok(self.map.contains_key(&key))
    }

    /// What a name stands for, if it is there.
    pub fn find(&self, alloc: Global, prefix: &[u8], name: &[u8]) -> Result<Option<T>, NoMemory>
        ensures { IfOk result (λ thing. thing ≡ found self.now prefix.now name.now) }
    {
        let key = key_of(alloc, prefix, name)?;
        Ok(self.map.get(&key).copied())
    }
}
