//! What is written at the place of a field. Over another field nothing is written, and what stands there is compared.

ghost use Rattle.std.specs.Prelude.{◌≡◌, ◌≢◌, ℕ, ◌+◌, ◌*◌, ◌/◌, ◌%◌, ◌<◌, ◌≤◌, ◌^◌, List, length, take, slice_range, OnOk, OnErr, IfErr, IsTrue, ◌↔◌};
ghost use Rattle.rx_model.specs.Bits.{bits};
ghost use Rattle.rx_model.specs.Order.{number_in};
ghost use Rattle.rx_bits.specs.Outside.{SameOutside};
ghost use Rattle.rx_graph.specs.Elaborated.{FitsOrder};

use rx_bits::{get, put};

/// Sets the bits of a scalar, or where it lies over another field, says whether they stand there.
pub fn set_number(
    buffer: &mut [u8],
    first: u32,
    size: u32,
    low_order: bool,
    over: bool,
    number: u64,
) -> bool
    requires some { 1 ≤ size }
    requires fits { size ≤ 63 }
    requires inside { first + size ≤ 8 * length buffer.old }
    requires groups { FitsOrder low_order size }
    requires below { number < 2 ^ size }
    ensures here { IsTrue result → number_in low_order buffer.new first size ≡ number }
    ensures differs { (IsTrue result → ⊥) → IsTrue over × (number_in low_order buffer.old first size ≢ number) }
    ensures over { IsTrue over → buffer.new ≡ buffer.old }
    ensures others { SameOutside first size buffer.old buffer.new }
    ensures before { take (first / 8) buffer.new ≡ take (first / 8) buffer.old }
{
    if over {
        if get(buffer, first as usize, size as u8, low_order) == number {
            return true;
        }
        return false;
    }
    put(buffer, first as usize, size as u8, low_order, number);
    true
}

/// Sets the bytes of a field, or where it lies over another field, says whether they stand there.
pub fn set_bytes(buffer: &mut [u8], at: usize, over: bool, bytes: &[u8]) -> bool
    requires { at + length bytes.now ≤ length buffer.old }
    ensures here { IsTrue result → slice_range buffer.new at (at + length bytes.now) ≡ bytes.now }
    ensures differs { (IsTrue result → ⊥) → IsTrue over × (bits (slice_range buffer.old at (at + length bytes.now)) ≢ bits bytes.now) }
    ensures over { IsTrue over → buffer.new ≡ buffer.old }
    ensures others { SameOutside (8 * at) (8 * length bytes.now) buffer.old buffer.new }
    ensures before { take at buffer.new ≡ take at buffer.old }
{
    if over {
        return stands(buffer, at, bytes);
    }
    copy(buffer, at, bytes);
    true
}

// Whether these bytes stand in the buffer, from byte `at` on.
fn stands(buffer: &[u8], at: usize, bytes: &[u8]) -> bool
    requires { at + length bytes.now ≤ length buffer.now }
    ensures same { IsTrue result ↔ (slice_range buffer.now at (at + length bytes.now) ≡ bytes.now) }
    ensures bits { IsTrue result ↔ (bits (slice_range buffer.now at (at + length bytes.now)) ≡ bits bytes.now) }
{
    is_there(buffer, at, bytes)
}

fn is_there(buffer: &[u8], at: usize, bytes: &[u8]) -> bool
    requires { at + length bytes.now ≤ length buffer.now }
    ensures { IsTrue result ↔ (slice_range buffer.now at (at + length bytes.now) ≡ bytes.now) }
{
    &buffer[at..at + bytes.len()] == bytes
}

// Copies the bytes into the buffer, from byte `at` on.
fn copy(buffer: &mut [u8], at: usize, bytes: &[u8])
    requires { at + length bytes.now ≤ length buffer.old }
    ensures here { slice_range buffer.new at (at + length bytes.now) ≡ bytes.now }
    ensures before { take at buffer.new ≡ take at buffer.old }
    ensures others { SameOutside (8 * at) (8 * length bytes.now) buffer.old buffer.new }
{
    buffer[at..at + bytes.len()].copy_from_slice(bytes);
}
