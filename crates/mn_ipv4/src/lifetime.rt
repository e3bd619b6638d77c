//! Time to live: RFC 791, section 3.1, and what it does to the header checksum.

ghost use Rattle.std.specs.Prelude.{◌≡◌, ◌≤◌, ◌+◌, ◌-◌, IsTrue, take};
ghost use Rattle.mn_ipv4.specs.Header.{good, total_length, ttl_of, with_ttl, aged, ChangesTtlOnly};

use crate::checksum::renew_checksum;
use crate::header::TTL;

/// Writes the TTL of a good packet, and its checksum anew.
///
/// No other byte changes, also none past the total length.
pub fn set_ttl(bytes: &mut [u8], ttl: u8)
    requires { IsTrue (good bytes.old) }
    ensures written { bytes.new ≡ with_ttl bytes.old ttl }
    ensures ttl_is { ttl_of bytes.new ≡ ttl }
    ensures still_good { IsTrue (good bytes.new) }
    ensures others { ChangesTtlOnly bytes.old bytes.new }
    // Not above the old TTL, it ages the packet by the difference.
    ensures as_aged { ttl ≤ ttl_of bytes.old →
        take (total_length bytes.old) bytes.new ≡ aged bytes.old (ttl_of bytes.old - ttl) }
{
    bytes[TTL] = ttl;
    renew_checksum(bytes);
}

/// Lowers the TTL of a good packet by a number of hops that it has left, and writes its checksum anew.
///
/// No other byte changes, also none past the total length.
pub fn age(bytes: &mut [u8], by: u8)
    requires is_good { IsTrue (good bytes.old) }
    requires alive { by ≤ ttl_of bytes.old }
    ensures written { bytes.new ≡ with_ttl bytes.old (ttl_of bytes.old - by) }
    ensures as_aged { take (total_length bytes.old) bytes.new ≡ aged bytes.old by }
    ensures ttl_is { ttl_of bytes.new + by ≡ ttl_of bytes.old }
    ensures still_good { IsTrue (good bytes.new) }
    ensures others { ChangesTtlOnly bytes.old bytes.new }
{
    let ttl = bytes[TTL];
    set_ttl(bytes, ttl - by);
}
