//! The header checksum: the complement of the one's complement sum of the header's 16-bit words.

ghost use Rattle.std.specs.Prelude.{◌≡◌, ◌≤◌, ◌<◌, ◌+◌, ◌*◌, ◌/◌, ◌%◌, ◌^◌, length};
ghost use Rattle.mn_ipv4.specs.Checksum.{words, ones_complement_sum};
ghost use Rattle.mn_ipv4.specs.Header.{header_length, with_checksum, checksum_for};

use crate::header::header_length;

/// The place of the checksum in the header: RFC 791, section 3.1.
const CHECKSUM: usize = 10;

/// Adds the carries out of the sixteenth bit at the lowest.
fn add_carries(sum: u32) -> u32
    ensures { result ≡ sum % 65536 + sum / 65536 }
{
    (sum & 0xffff) + (sum >> 16)
}

/// The one's complement sum of a header's words.
///
/// The carries are added after the last word and not after each: RFC 1071, section 2, says why the sum is the same.
pub fn ones_complement_sum(header: &[u8]) -> u16
    requires short { length header.now ≤ 60 }
    requires whole_words { length header.now % 2 ≡ 0 }
    ensures { result ≡ ones_complement_sum (words header.now) }
{
    let mut sum = 0u32;
    let mut rest = header;
    while let [high, low, others @ ..] = rest {
        sum += u32::from(u16::from_be_bytes([*high, *low]));
        rest = others;
    }
    // The carries themselves can carry once more.
    add_carries(add_carries(sum)) as u16
}

/// Writes the checksum field.
fn put_checksum(bytes: &mut [u8], checksum: u16)
    requires { 12 ≤ length bytes.old }
    ensures { bytes.new ≡ with_checksum bytes.old checksum }
{
    let [high, low] = checksum.to_be_bytes();
    bytes[CHECKSUM] = high;
    bytes[CHECKSUM + 1] = low;
}

/// Writes the checksum that the header is to have.
pub fn renew_checksum(bytes: &mut [u8])
    requires least { 20 ≤ header_length bytes.old }
    requires there { header_length bytes.old ≤ length bytes.old }
    ensures { bytes.new ≡ with_checksum bytes.old (checksum_for bytes.old) }
{
    let header = usize::from(header_length(bytes));
    put_checksum(bytes, 0);
    let checksum = !ones_complement_sum(&bytes[..header]);
    put_checksum(bytes, checksum);
}
