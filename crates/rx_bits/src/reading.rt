//! The number of a range of bits, in both byte orders.

ghost use Rattle.std.specs.Prelude.{◌≡◌, ℕ, ◌+◌, ◌*◌, ◌%◌, ◌^◌, ◌<◌, ◌≤◌, ◌⊎◌, length, IsTrue};
ghost use Rattle.rx_model.specs.Bits.{number, place_bits, reversed_groups, ordered};

/// The number of the `size` bits from bit `first` on, the most significant first. Bits are counted
/// from 0, the most significant of each byte first. In low order the last group of eight bits comes
/// first.
pub fn get(bytes: &[u8], first: usize, size: u8, low_order: bool) -> u64
    requires some { 1 ≤ size }
    requires fits { size ≤ 63 }
    requires inside { first + size ≤ 8 * length bytes.now }
    requires groups { IsTrue low_order → (size < 8) ⊎ (size % 8 ≡ 0) }
    ensures number { result ≡ number (ordered low_order (place_bits first size bytes.now)) }
    ensures below { result < 2 ^ size }
{
    if !low_order {
        return high_number(bytes, first, size);
    }
    if size < 8 {
        return high_number(bytes, first, size);
    }
    low_number(&bytes[first / 8..], first % 8, size / 8)
}

// The number of a place, the most significant bit first.
fn high_number(bytes: &[u8], first: usize, size: u8) -> u64
    requires fits { size ≤ 63 }
    requires inside { first + size ≤ 8 * length bytes.now }
    ensures number { result ≡ number (place_bits first size bytes.now) }
    ensures below { result < 2 ^ size }
{
    let mut number = 0u64;
    for index in 0..size as usize {
        let place = first % 8 + index;
        let bit = (bytes[first / 8 + place / 8] >> (7 - place % 8)) & 1;
        number = 2 * number + bit as u64;
    }
    number
}

// The number of a place that begins in the first byte and has `count` groups of eight bits, the last
// group first.
fn low_number(bytes: &[u8], first: usize, count: u8) -> u64
    requires begins { first < 8 }
    requires fits { count ≤ 7 }
    requires inside { first + 8 * count ≤ 8 * length bytes.now }
    ensures number { result ≡ number (reversed_groups (place_bits first (8 * count) bytes.now)) }
    ensures below { result < 2 ^ (8 * count) }
{
    let mut number = 0u64;
    for index in (0..count as usize).rev() {
        number = 256 * number + high_number(bytes, first + 8 * index, 8);
    }
    number
}

#[cfg(test)]
mod tests {
    use super::*;

    #[test]
    fn reads_at_odd_places(rt: HostRuntime) {
        let bytes = [0x01, 0x23, 0x45, 0x67, 0x89, 0xab, 0xcd, 0xef, 0x80];
        assert_eq!(rt;
            get(&bytes, 6, 1, false),
            0,
            "the last bit but one of a byte"
        );
        assert_eq!(rt; get(&bytes, 7, 1, false), 1, "the last bit of a byte");
        assert_eq!(rt; get(&bytes, 8, 8, false), 0x23, "a byte");
        assert_eq!(rt;
            get(&bytes, 12, 9, false),
            0x68,
            "nine bits over three bytes"
        );
        assert_eq!(rt;
            get(&bytes, 1, 63, false),
            0x0123_4567_89ab_cdef,
            "all but the first bit"
        );
        assert_eq!(rt;
            get(&bytes, 5, 63, false),
            0x1234_5678_9abc_def8,
            "63 bits over nine bytes"
        );
        assert_eq!(rt;
            get(&bytes, 9, 63, false),
            0x2345_6789_abcd_ef80,
            "63 bits up to the end"
        );
    }

    #[test]
    fn reads_low_order(rt: HostRuntime) {
        let bytes = [0x01, 0x02, 0x34];
        assert_eq!(rt; get(&bytes, 0, 16, true), 513, "two bytes");
        assert_eq!(rt;
            get(&bytes, 4, 16, true),
            0x2310,
            "two groups of eight bits inside bytes"
        );
        assert_eq!(rt; get(&bytes, 18, 6, true), 0x34, "fewer than eight bits");
    }
}
