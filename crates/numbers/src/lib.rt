// Numbers in bytes, little-endian: read at a place of some bytes, and written over a lent part.
#![tactic(auto)]

ghost use Rattle.std.specs.Prelude.{◌≡◌, ◌≤◌, ◌++◌, drop, length};
ghost use Rattle.numbers.specs.Numbers.{byte_at, two, four, little_endian};

// Byte k after a place, 0 past the end.
pub fn byte_at(bytes: &[u8], at: usize, k: usize) -> u8
    ensures { result ≡ byte_at bytes.now at k }
{
    match bytes.get(at..) {
        Some(rest) => rest.get(k).copied().unwrap_or(0),
        None => 0,
    }
}

// The two-byte number from byte k on.
pub fn two_at(bytes: &[u8], at: usize, k: usize) -> u16
    requires { k ≤ 65535 }
    ensures { result ≡ two bytes.now at k }
{
    u16::from_le_bytes([byte_at(bytes, at, k), byte_at(bytes, at, k + 1)])
}

// The four-byte number from byte k on.
pub fn four_at(bytes: &[u8], at: usize, k: usize) -> u32
    requires { k ≤ 65533 }
    ensures { result ≡ four bytes.now at k }
{
    u32::from(two_at(bytes, at, k)) + 65536 * u32::from(two_at(bytes, at, k + 2))
}

// A number over all of a lent part, the lowest byte first.
pub fn put(part: &mut [u8], number: u64)
    ensures { part.new ≡ little_endian (length part.old) number }
{
    let mut rest = number;
    // The part's length is the width, so no to_le_bytes has it.
    for byte in part.iter_mut() {
        *byte = (rest % 256) as u8;
        rest /= 256;
    }
}

// Bytes over the front of a lent part.
pub fn copy(from: &[u8], to: &mut [u8])
    requires { length from.now ≤ length to.old }
    ensures { to.new ≡ from.now ++ drop (length from.now) to.old }
{
    to[..from.len()].copy_from_slice(from);
}
