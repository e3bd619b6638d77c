ghost use Rattle.std.specs.Prelude.{◌≡◌, ◌+◌, ◌≤◌, ◌++◌, length, drop};
ghost use Rattle.mn_stack.specs.Entry.{number_of, entry_bytes, Fits};

use crate::message::Entry;
use byteorder::{BigEndian, ByteOrder};

/// An entry as a number of 32 bits.
fn number_of(entry: Entry) -> u32
    requires { Fits entry }
    ensures { result ≡ number_of entry }
{
    entry.label << 12
        | u32::from(entry.exp) << 9
        | u32::from(entry.bottom) << 8
        | u32::from(entry.ttl)
}

/// Writes an entry. Its label is below 1,048,576, and its Exp below 8.
pub fn write_entry(entry: Entry) -> [u8; 4]
    requires { Fits entry }
    ensures { result ≡ entry_bytes entry }
{
    number_of(entry).to_be_bytes()
}

/// Writes an entry at a place.
pub fn put_entry(bytes: &mut [u8], place: usize, entry: Entry)
    requires fits { Fits entry }
    requires there { place + 4 ≤ length bytes.old }
    ensures { drop place bytes.new ≡ entry_bytes entry ++ drop (place + 4) bytes.old }
{
    BigEndian::write_u32(&mut bytes[place..], number_of(entry));
}
