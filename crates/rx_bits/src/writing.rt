//! Sets a range of bits to a number, in both byte orders.

ghost use Rattle.std.specs.Prelude.{◌≡◌, ◌≢◌, ℕ, ◌+◌, ◌*◌, ◌/◌, ◌%◌, ◌^◌, ◌<◌, ◌≤◌, ◌⊎◌, length, take, IsTrue, if◌then◌else◌};
ghost use Rattle.std.specs.Int.{bit_at as bit_of};
ghost use Rattle.rx_model.specs.Bits.{number, number_at, place_bits, reversed_groups};
ghost use Rattle.rx_model.specs.Order.{number_in};
ghost use Rattle.rx_bits.specs.Outside.{SameOutside};

/// Sets the `size` bits from bit `first` on to those of the number, the most significant first, and
/// changes no other bit. Bits are counted from 0, the most significant of each byte first. In low
/// order the last group of eight bits comes first.
pub fn put(bytes: &mut [u8], first: usize, size: u8, low_order: bool, number: u64)
    requires some { 1 ≤ size }
    requires fits { size ≤ 63 }
    requires inside { first + size ≤ 8 * length bytes.old }
    requires groups { IsTrue low_order → (size < 8) ⊎ (size % 8 ≡ 0) }
    requires below { number < 2 ^ size }
    ensures here { number_in low_order bytes.new first size ≡ number }
    ensures others { SameOutside first size bytes.old bytes.new }
    ensures before { take (first / 8) bytes.new ≡ take (first / 8) bytes.old }
{
    if !low_order {
        put_high(bytes, first / 8, first % 8, size, number);
    } else if size < 8 {
        put_high(bytes, first / 8, first % 8, size, number);
    } else {
        put_low(bytes, first / 8, first % 8, size / 8, number);
    }
}

// Sets the `size` bits from bit `offset` of byte `at` on, the most significant first.
fn put_high(bytes: &mut [u8], at: usize, offset: usize, size: u8, value: u64)
    requires begins { offset < 8 }
    requires fits { size ≤ 63 }
    requires inside { 8 * at + offset + size ≤ 8 * length bytes.old }
    requires below { value < 2 ^ size }
    ensures here { number_at bytes.new (8 * at + offset) size ≡ value }
    ensures others { SameOutside (8 * at + offset) size bytes.old bytes.new }
    ensures before { take at bytes.new ≡ take at bytes.old }
{
    for index in 0..size as usize {
        let place = offset + index;
        let bit = (value >> (size as usize - 1 - index)) & 1 == 1;
        let byte = at + place / 8;
        bytes[byte] = with_bit(bytes[byte], 7 - (place % 8) as u8, bit);
    }
}

// Sets `count` groups of eight bits from bit `offset` of byte `at` on, the last group first.
fn put_low(bytes: &mut [u8], at: usize, offset: usize, count: u8, value: u64)
    requires begins { offset < 8 }
    requires fits { count ≤ 7 }
    requires inside { 8 * at + offset + 8 * count ≤ 8 * length bytes.old }
    requires below { value < 2 ^ (8 * count) }
    ensures here { number (reversed_groups (place_bits (8 * at + offset) (8 * count) bytes.new)) ≡ value }
    ensures others { SameOutside (8 * at + offset) (8 * count) bytes.old bytes.new }
    ensures before { take at bytes.new ≡ take at bytes.old }
{
    for index in (0..count as usize).rev() {
        let group = (value >> (8 * index)) % 256;
        put_high(bytes, at + index, offset, 8, group);
    }
}

// The byte with one of its bits set, counted from the least significant.
fn with_bit(byte: u8, place: u8, bit: bool) -> u8
    requires { place < 8 }
    ensures here { bit_of result place ≡ (if bit then 1 else 0) }
    ensures others { (i : ℕ) → i < 8 → i ≢ place → bit_of result i ≡ bit_of byte i }
{
    if bit {
        byte | (1 << place)
    } else {
        byte & !(1 << place)
    }
}

#[cfg(test)]
mod tests {
    use super::*;

    #[test]
    fn writes_at_odd_places(rt: HostRuntime) {
        let mut bytes = [0xff, 0xff, 0xff];
        put(&mut bytes, 6, 9, false, 0x101);
        assert_eq!(rt; bytes, [0xfe, 0x03, 0xff], "nine bits over two bytes");
        put(&mut bytes, 15, 1, false, 0);
        assert_eq!(rt; bytes, [0xfe, 0x02, 0xff], "the last bit of a byte");
    }

    #[test]
    fn writes_low_order(rt: HostRuntime) {
        let mut bytes = [0xff, 0xff, 0xff];
        put(&mut bytes, 4, 16, true, 0x2310);
        assert_eq!(rt; bytes, [0xf1, 0x02, 0x3f], "two groups inside bytes");
        put(&mut bytes, 18, 6, true, 0x34);
        assert_eq!(rt; bytes, [0xf1, 0x02, 0x34], "fewer than eight bits");
    }
}
