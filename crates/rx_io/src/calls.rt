// Which calls of an object in memory fail.
ghost use Rattle.std.specs.Prelude.{◌≡◌, ℕ, ◌<◌, ◌≤◌, ◌↔◌, ◌⊎◌, IfOk, OnOk, OnErr, IsErr, IsTrue};
ghost use Rattle.rx_io.specs.Memory.{IsFresh, IsDue, Passes, Fails, one_more};
ghost use Rattle.rx_io.specs.Faults.{Counts, HasRisen};

use crate::{Failed, NoMemory};
use std::alloc::Global;
use std::marker::Model;

/// The calls of an object: the numbers of those that fail, counted from 1, how many were made, and
/// how many failed.
#[derive(Drop)]
pub struct Calls {
    fails: Vec<u64>,
    made: u64,
    faults: u64,
}

impl Model for Calls {
    ghost use Rattle.rx_io.specs.Memory.{CallLog};

    ghost Value = { CallLog };

    ghost view = { λ calls. record { fails = calls.fails.items; made = calls.made; faults = calls.faults } };
}

impl Calls {
    pub fn make(alloc: Global, fails: &[u64]) -> Result<Calls, NoMemory>
        ensures { IfOk result (λ calls. IsFresh fails.now calls) }
    {
        Ok(Calls {
            fails: fails.to_vec(alloc)?,
            made: 0,
            faults: 0,
        })
    }

    // Counts a call, and tells whether it is one that fails.
    fn count(&mut self) -> bool
        ensures due { IsTrue result ↔ IsDue self.old }
        ensures passes { Passes self.old self.new }
    {
        match self.made.checked_add(1) {
            Some(number) => {
                self.made = number;
                self.fails.contains(&number)
            }
            None => false,
        }
    }

    // Counts a fault.
    fn fail(&mut self) -> Failed
        ensures same_fails { self.new.fails ≡ self.old.fails }
        ensures same_made { self.new.made ≡ self.old.made }
        ensures faults { self.new.faults ≡ one_more self.old.faults }
        ensures never_falls { self.old.faults ≤ self.new.faults }
        ensures rises { HasRisen self.old.faults self.new.faults }
    {
        self.faults = self.faults.saturating_add(1);
        Failed
    }

    /// Counts a call, which fails where its number is listed or `barred` is true.
    pub fn begin(&mut self, barred: bool) -> Result<(), Failed>
        ensures fails { IsErr result ↔ (IsDue self.old ⊎ IsTrue barred) }
        ensures passes { OnOk result (Passes self.old self.new) }
        ensures failed { OnErr result (Fails self.old self.new) }
        ensures cause { Counts self.old.faults self.new.faults result }
    {
        let due = self.count();
        if due {
            return Err(self.fail());
        }
        if barred {
            return Err(self.fail());
        }
        Ok(())
    }
}
