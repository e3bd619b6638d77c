ghost use Rattle.std.specs.Prelude.{◌≡◌, ◌<◌, ◌*◌, ◌≤◌, ◌^◌, ◌∷◌, length, drop, IfSome};
ghost use Rattle.mn_stack.specs.Entry.{entry_bytes, entry_of, Fits};
ghost use Rattle.mn_stack.specs.Reading.{entries_of, depth_of};

use crate::message::Entry;
use byteorder::{BigEndian, ByteOrder};

/// How many bytes an entry has: RFC 3032, section 2.1.
pub const ENTRY: usize = 4;

/// The entry with this number.
fn entry_of(number: u32) -> Entry
    ensures { result ≡ entry_of number }
{
    Entry {
        label: number >> 12,
        exp: (number >> 9 & 7) as u8,
        bottom: number >> 8 & 1 == 1,
        ttl: (number & 0xff) as u8,
    }
}

/// Reads an entry. Any four bytes are one.
pub fn read_entry(bytes: &[u8; 4]) -> Entry
    ensures fits { Fits result }
    ensures bytes { entry_bytes result ≡ bytes.now }
{
    entry_of(u32::from_be_bytes(*bytes))
}

/// The entry at the front of the bytes.
pub fn first_entry(bytes: &[u8]) -> Entry
    requires { 4 ≤ length bytes.now }
    ensures fits { Fits result }
    ensures first { entries_of bytes.now ≡ result ∷ entries_of (drop 4 bytes.now) }
{
    entry_of(BigEndian::read_u32(bytes))
}

/// How many entries the stack has at the front of the bytes, with its bottom. None where no whole entry is the bottom.
pub fn depth_of(bytes: &[u8]) -> Option<usize>
    ensures depth { result ≡ depth_of bytes.now }
    ensures there { IfSome result (λ depth. ENTRY * depth ≤ length bytes.now) }
{
    let mut depth = 0;
    let mut rest = bytes;
    'entries: while let [_, _, third, _, others @ ..] = rest {
        depth += 1;
        if *third & 1 == 1 {
            return Some(depth);
        }
        rest = others;
    }
    None
}
