// A sink that keeps the bytes in memory, and tells them all.
ghost use Rattle.std.specs.Prelude.{◌≡◌, ℕ, ◌-◌, ◌<◌, ◌≤◌, ◌↔◌, ◌⊎◌, [], ◌++◌, length, take, min, IfOk, OnOk, OnErr, IsErr};
ghost use Rattle.rx_io.specs.Faults.{Counts};
ghost use Rattle.rx_io.specs.Memory.{IsFresh, IsDue, Passes, Fails};

use crate::calls::Calls;
use crate::{Failed, NoMemory, Sink};
use std::alloc::Global;
use std::marker::Model;

/// A sink that keeps the bytes in memory.
#[derive(Drop)]
pub struct MemorySink {
    bytes: Vec<u8>,
    room: usize,
    piece: usize,
    calls: Calls,
}

impl Model for MemorySink {
    ghost use Rattle.std.specs.Prelude.{ℕ, ◌<◌, ◌≤◌, length, vec_capacity};
    ghost use Rattle.rx_io.specs.Memory.{SinkState};

    ghost Value = { SinkState };

    ghost view = { λ sink. record { written = sink.bytes.items; room = sink.room; piece = sink.piece; calls = sink.calls } };

    ghost invariant = { λ sink. (length sink.bytes.items ≤ sink.room) × (sink.room ≤ vec_capacity sink.bytes) × (0 < sink.piece) };
}

impl MemorySink {
    /// A sink for `room` bytes, which takes at most `piece` of them at a time. The writes whose numbers,
    /// counted from 1, are in `fails` fail, and so does one of some bytes where the room is used up.
    pub fn make(
        alloc: Global,
        room: usize,
        piece: usize,
        fails: &[u64],
    ) -> Result<MemorySink, NoMemory>
        requires { 0 < piece }
        ensures written { IfOk result (λ sink. sink.written ≡ []) }
        ensures room { IfOk result (λ sink. sink.room ≡ room) }
        ensures piece { IfOk result (λ sink. sink.piece ≡ piece) }
        ensures calls { IfOk result (λ sink. IsFresh fails.now sink.calls) }
    {
        Ok(MemorySink {
            bytes: Vec::with_capacity(alloc, room)?,
            room,
            piece,
            calls: Calls::make(alloc, fails)?,
        })
    }

    /// What was written.
    pub fn written(&self) -> &[u8]
        ensures { result.now ≡ self.now.written }
    {
        &self.bytes
    }
}

impl Sink for MemorySink {
    ghost use Rattle.std.specs.Prelude.{Some};

    ghost written = { λ sink. Some sink.written };

    ghost faults = { λ sink. sink.calls.faults };

    /// Takes the least of the piece, the slice and the free room, unless this write is one that fails
    /// or the room is used up. It takes no memory.
    fn write(&mut self, from: &[u8]) -> Result<usize, Failed>
        // which write fails, and that it moves nothing
        ensures fails { IsErr result ↔ (IsDue self.old.calls ⊎ ((length self.old.written ≡ self.old.room) × (0 < length from.now))) }
        ensures failing { OnErr result (Fails self.old.calls self.new.calls) }
        ensures unmoved { OnErr result (self.new.written ≡ self.old.written) }

        // what another write moves
        ensures passing { OnOk result (Passes self.old.calls self.new.calls) }
        ensures moved { IfOk result (λ n. n ≡ min self.old.piece (min (length from.now) (self.old.room - length self.old.written))) }
        ensures appended { IfOk result (λ n. self.new.written ≡ self.old.written ++ take n from.now) }

        ensures same_room { self.new.room ≡ self.old.room }
        ensures same_piece { self.new.piece ≡ self.old.piece }

        // as of every sink
        ensures progress { IfOk result (λ n. 0 < length from.now → 0 < n) }
        ensures cause { Counts self.old.calls.faults self.new.calls.faults result }
    {
        let free = self.room - self.bytes.len();
        let some = !from.is_empty();
        let barred = free == 0 && some;
        self.calls.begin(barred)?;
        let count = self.piece.min(from.len()).min(free);
        match self.bytes.extend_from_slice(&from[..count]) {
            Ok(()) => Ok(count),
            // There is room for all of it.
            Err(_) => unreachable!(),
        }
    }
}
