//! A source read to its end.

ghost use Rattle.std.specs.Prelude.{◌≡◌, ℕ, ◌+◌, ◌<◌, ◌≤◌, List, length, IfOk, IfSome, OnOk, IsErrOf};
ghost use Rattle.std.specs.Io.KnownBytes.{Consumes, IsAtEnd};
ghost use Rattle.rx_io.specs.Faults.{HasRisen};

use crate::Source;
use std::alloc::{AllocError, Global};

/// Why not all was read.
#[derive(Clone, Copy, Debug, PartialEq, Eq)]
pub enum ReadFault {
    Failed,
    TooLong,
    NoMemory,
}

impl From<AllocError> for ReadFault {
    ghost use Rattle.std.specs.Prelude.{◌≡◌};
    ghost use Rattle.rx_io.specs.declared.reading.ReadFault.TheVariants.{NoMemory};

    ghost from_gives = { λ _ e. e ≡ NoMemory };

    fn from(_: AllocError) -> Self {
        ReadFault::NoMemory
    }
}

// How many bytes a read asks for.
const PIECE: usize = 65536;

/// Reads all that is left, which may be at most `limit` bytes; TooLong comes where more are left.
/// After a fault some prefix of what was left was taken.
pub fn read_all<I: Source>(
    alloc: Global,
    source: &mut I,
    limit: usize,
) -> Result<Vec<u8>, ReadFault>
    ensures all { IfOk result (λ bytes. IfSome (I.left source.old) (λ left. bytes.items ≡ left)) }
    ensures end { OnOk result (IsAtEnd (I.left source.new)) }
    ensures within { IfOk result (λ bytes. length bytes.items ≤ limit) }
    ensures too_long { IsErrOf result ReadFault.TooLong → IfSome (I.left source.old) (λ left. limit < length left) }

    // What was taken, and that each read but the last takes a byte.
    ensures prefix { (taken : List ℕ) × Consumes (I.left source.old) (I.left source.new) taken }
    ensures reads { I.reads source.new ≤ I.reads source.old + limit + 1 }

    ensures never_falls { I.faults source.old ≤ I.faults source.new }
    ensures cause { IsErrOf result ReadFault.Failed → HasRisen (I.faults source.old) (I.faults source.new) }
{
    let mut bytes = Vec::new(alloc);
    let mut piece = [0u8; PIECE];
    loop {
        let count = match source.read(&mut piece) {
            Ok(count) => count,
            Err(_) => return Err(ReadFault::Failed),
        };
        if count == 0 {
            return Ok(bytes);
        }
        if count > limit - bytes.len() {
            return Err(ReadFault::TooLong);
        }
        bytes.extend_from_slice(&piece[..count])?;
    }
}
