//! A region of slots, and what each call does to it.

ghost use Rattle.std.specs.Prelude.{◌≡◌, ◌≢◌, ℕ, ◌*◌, ◌<◌, ◌≤◌, List, [], ◌∷◌, ◌++◌, length, replicate, vec_capacity, IfOk};
ghost use Rattle.std.specs.Borrow.{sem};
ghost use Rattle.rx_pool.specs.Pool.{IsOut, AreApart, IsPool, IsFresh, SameBytes, slot_of, with_slot};
ghost use Rattle.rx_pool.specs.Lent.{LendsSlot};

use crate::rooms::{copy_over, fill};
use crate::{NoMemory, Slot};
use std::alloc::Global;
use std::marker::Model;

/// The bytes of all slots, and which slots are free.
#[derive(Drop)]
pub struct Region {
    size: usize,
    // Reserved whole, and filled when the slot is first taken.
    rooms: Vec<Vec<u8>>,
    free: Vec<usize>,
}

impl Model for Region {
    ghost use Rattle.std.specs.Prelude.{vec_capacity};
    ghost use Rattle.rx_pool.specs.Pool.{Pool};
    ghost use Rattle.rx_pool.specs.Rooms.{written, capacities, pool_of, IsKept, IsReserved};

    ghost Value = { Pool };

    ghost view = { λ region. pool_of region.size (written region.rooms.items) region.free.items };

    ghost invariant = { λ region. IsKept region.size (written region.rooms.items) region.free.items
        × IsReserved region.size (capacities region.rooms.items) (vec_capacity region.free) };
}

impl Region {
    /// A region of `slots` slots of `slot_bytes` bytes each, all of them free.
    pub fn make(alloc: Global, slots: usize, slot_bytes: usize) -> Result<Region, NoMemory>
        requires some { 1 ≤ slot_bytes }
        requires small { slots * slot_bytes ≤ 67108864 }
        ensures fresh { IfOk result (IsFresh slots slot_bytes) }
        ensures pool { IfOk result IsPool }
    {
        let mut rooms = Vec::with_capacity(alloc, slots)?;
        let mut free = Vec::with_capacity(alloc, slots)?;
        for number in 0..slots {
            rooms.push(Vec::with_capacity(alloc, slot_bytes)?)?;
            free.push(number)?;
        }
        Ok(Region {
            size: slot_bytes,
            rooms,
            free,
        })
    }

    /// How many slots are free.
    pub fn free(&self) -> usize
        ensures free { result ≡ length self.now.free }
        ensures pool { IsPool self.now }
    {
        self.free.len()
    }

    /// Takes a free slot out. Its bytes are as they were when it was last out, or zeros.
    pub fn take(&mut self) -> Slot
        requires { 0 < length self.old.free }
        ensures leaves { self.old.free ≡ self.new.free ++ result ∷ [] }
        ensures out { IsOut self.new result }
        ensures others { (n : ℕ) → IsOut self.old n → IsOut self.new n }
        ensures apart { (held : List ℕ) → AreApart self.old held → AreApart self.new (result ∷ held) }
        ensures kept { SameBytes self.old self.new }
        ensures pool { IsPool self.new }
    {
        match self.free.pop() {
            Some(number) => {
                fill(&mut self.rooms[number], self.size);
                return Slot::of(number);
            }
            None => unreachable!(),
        }
    }

    /// Gives a slot back.
    pub fn give(&mut self, slot: Slot)
        requires { IsOut self.old slot }
        ensures returns { self.new.free ≡ self.old.free ++ slot ∷ [] }
        ensures others { (n : ℕ) → IsOut self.old n → n ≢ slot → IsOut self.new n }
        ensures apart { (held : List ℕ) → AreApart self.old (slot ∷ held) → AreApart self.new held }
        ensures kept { SameBytes self.old self.new }
        ensures pool { IsPool self.new }
    {
        match self.free.push(slot.number()) {
            Ok(()) => {}
            // There is room for the numbers of all slots.
            Err(_) => unreachable!(),
        }
    }

    /// The bytes of a slot.
    pub fn bytes(&self, slot: &Slot) -> &[u8]
        requires { IsOut self.now slot.now }
        ensures bytes { result.now ≡ slot_of self.now slot.now }
        ensures length { length result.now ≡ self.now.size }
        ensures pool { IsPool self.now }
    {
        self.rooms[slot.number()].as_slice()
    }

    /// The bytes of a slot, to write to. What is written changes this slot and no other.
    pub fn bytes_mut(&mut self, slot: &Slot) -> &mut [u8]
        requires { IsOut self.old slot.now }
        ensures* writes_back { sem 𝓛 (LendsSlot self.entry slot.now result) }
        ensures bytes { result.now ≡ slot_of self.old slot.now }
        ensures length { length result.now ≡ self.old.size }
        ensures pool { IsPool self.old }
    {
        self.rooms[slot.number()].as_mut_slice()
    }

    /// Gives the slot `to` the bytes of the slot `from`.
    pub fn copy(&mut self, from: &Slot, to: &Slot)
        requires from { IsOut self.old from.now }
        requires to { IsOut self.old to.now }
        ensures copied { self.new ≡ with_slot self.old to.now (slot_of self.old from.now) }
        ensures pool { IsPool self.new }
    {
        copy_over(&mut self.rooms, from.number(), to.number());
    }
}
