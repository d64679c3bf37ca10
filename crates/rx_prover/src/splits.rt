//! How many splits a walk may make.

ghost use Rattle.std.specs.Prelude.{◌≡◌, ◌≤◌};

use std::marker::Model;

/// How many splits a walk may make, from 1 to 4,096.
#[derive(Clone, Copy, Debug, PartialEq, Eq)]
pub struct Splits {
    count: u32,
}

impl Model for Splits {
    ghost use Rattle.std.specs.Prelude.{ℕ, ◌≤◌};

    ghost Value = { ℕ };

    ghost view = { λ s. s.count };

    ghost invariant = { λ s. (1 ≤ s.count) × (s.count ≤ 4096) };

    ghost inverse = { λ n. record { count = n } };
}

impl Splits {
    /// So many splits.
    pub fn of(count: u32) -> Splits
        requires { (1 ≤ count) × (count ≤ 4096) }
        ensures { result ≡ count }
    {
        Splits { count }
    }

    /// How many they are.
    pub fn count(self) -> u32
        ensures is { result ≡ self }
        ensures within { (1 ≤ self) × (self ≤ 4096) }
    {
        self.count
    }
}
