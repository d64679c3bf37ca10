// A source of bytes in memory, which tells all that is left.
ghost use Rattle.std.specs.Prelude.{◌≡◌, ℕ, ◌+◌, ◌<◌, ◌≤◌, ◌↔◌, [], ◌++◌, length, take, drop, min, IfOk, OnOk, OnErr, IsErr};
ghost use Rattle.rx_io.specs.Faults.{Counts};
ghost use Rattle.rx_io.specs.Memory.{IsFresh, IsDue, Passes, Fails};

use crate::calls::Calls;
use crate::{Failed, NoMemory, Source};
use std::alloc::Global;
use std::marker::Model;

/// A source of bytes in memory.
#[derive(Drop)]
pub struct MemorySource {
    bytes: Vec<u8>,
    at: usize,
    piece: usize,
    calls: Calls,
}

impl Model for MemorySource {
    ghost use Rattle.std.specs.Prelude.{ℕ, ◌<◌, ◌≤◌, length, drop};
    ghost use Rattle.rx_io.specs.Memory.{SourceState};

    ghost Value = { SourceState };

    ghost view = { λ source. record { left = drop source.at source.bytes.items; piece = source.piece; calls = source.calls } };

    ghost invariant = { λ source. (source.at ≤ length source.bytes.items) × (0 < source.piece) };
}

impl MemorySource {
    /// A source of these bytes, which gives at most `piece` of them at a time. The reads whose numbers,
    /// counted from 1, are in `fails` fail.
    pub fn make(
        alloc: Global,
        bytes: &[u8],
        piece: usize,
        fails: &[u64],
    ) -> Result<MemorySource, NoMemory>
        requires { 0 < piece }
        ensures left { IfOk result (λ source. source.left ≡ bytes.now) }
        ensures piece { IfOk result (λ source. source.piece ≡ piece) }
        ensures calls { IfOk result (λ source. IsFresh fails.now source.calls) }
    {
        Ok(MemorySource {
            bytes: bytes.to_vec(alloc)?,
            at: 0,
            piece,
            calls: Calls::make(alloc, fails)?,
        })
    }
}

impl Source for MemorySource {
    ghost use Rattle.std.specs.Prelude.{Some};

    ghost left = { λ source. Some source.left };

    ghost faults = { λ source. source.calls.faults };

    ghost reads = { λ source. source.calls.made };

    /// Moves the least of the piece, the room and what is left, unless this read is one that fails.
    fn read(&mut self, into: &mut [u8]) -> Result<usize, Failed>
        // which read fails, and that it moves nothing
        ensures fails { IsErr result ↔ IsDue self.old.calls }
        ensures failing { OnErr result (Fails self.old.calls self.new.calls) }
        ensures unmoved { OnErr result (self.new.left ≡ self.old.left) }
        ensures untouched { OnErr result (into.new ≡ into.old) }

        // what another read moves
        ensures passing { OnOk result (Passes self.old.calls self.new.calls) }
        ensures moved { IfOk result (λ n. n ≡ min self.old.piece (min (length into.old) (length self.old.left))) }
        ensures filled { IfOk result (λ n. into.new ≡ take n self.old.left ++ drop n into.old) }
        ensures left { IfOk result (λ n. self.new.left ≡ drop n self.old.left) }

        ensures same_piece { self.new.piece ≡ self.old.piece }

        // as of every source
        ensures end { IfOk result (λ n. n ≡ 0 → 0 < length into.old → self.new.left ≡ []) }
        ensures cause { Counts self.old.calls.faults self.new.calls.faults result }
        ensures counted { self.new.calls.made ≤ self.old.calls.made + 1 }
    {
        self.calls.begin(false)?;
        let left = self.bytes.len() - self.at;
        let count = self.piece.min(into.len()).min(left);
        into[..count].copy_from_slice(&self.bytes[self.at..self.at + count]);
        self.at += count;
        Ok(count)
    }
}
