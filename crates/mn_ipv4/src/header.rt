//! The checks of a packet, in their order, and the fields of a good one.

ghost use Rattle.std.specs.Prelude.{◌≡◌, ◌↔◌, ◌<◌, ◌≤◌, length, IsOk, IfOk, IsTrue};
ghost use Rattle.std.specs.Bool.{OnFalse};
ghost use Rattle.std.specs.Result.{result_err};
ghost use Rattle.mn_ipv4.specs.Header.{good, header_length, total_length, is_not_ipv4, is_malformed, is_truncated, has_bad_checksum};
ghost use Rattle.mn_ipv4.specs.Check.{fault_of, head_of};

use crate::checksum::ones_complement_sum;
use thiserror::Error;

// The fields of RFC 791, section 3.1, by the place of their first byte.
const TOTAL_LENGTH: usize = 2;

pub const TTL: usize = 8;

const DESTINATION: usize = 16;

const VERSION: u8 = 4;
/// The length in bytes of a header without options.
const LEAST_HEADER: u8 = 20;

/// The fields of a good packet's header.
#[derive(Clone, Copy, Debug, PartialEq, Eq)]
pub struct Head {
    /// The header's length in bytes, with its options: a multiple of 4 from 20 to 60.
    pub header: u8,
    /// The length in bytes of header and data together.
    pub total: u16,
    /// Time to live, in hops.
    pub ttl: u8,
    /// The destination address, its first byte the highest.
    pub destination: u32,
}

/// Why a packet isn't good. The variants are tried in this order.
#[derive(Clone, Copy, Debug, PartialEq, Eq, Error)]
pub enum Bad {
    /// There is no byte, or the version isn't 4.
    #[error("the packet is not IPv4")]
    NotIpv4,
    /// The header is said to be shorter than 20 bytes, or, where the bytes reach that field, longer than the total length.
    #[error("the IPv4 header contradicts itself")]
    Malformed,
    /// Bytes are missing: of 20, of the header or of the total length.
    #[error("the packet lacks bytes")]
    Truncated,
    /// The header doesn't add up.
    #[error("the IPv4 header has a wrong checksum")]
    BadChecksum,
}

/// The header's length in bytes: the lower four bits of the first byte count words of four.
pub fn header_length(bytes: &[u8]) -> u8
    requires { 0 < length bytes.now }
    ensures { result ≡ header_length bytes.now }
{
    4 * (bytes[0] & 0x0f)
}

/// The length in bytes of header and data together.
fn total_length(bytes: &[u8]) -> u16
    requires { 4 ≤ length bytes.now }
    ensures { result ≡ total_length bytes.now }
{
    u16::from_be_bytes([bytes[TOTAL_LENGTH], bytes[TOTAL_LENGTH + 1]])
}

/// There is no byte, or the version isn't 4.
#[tactic(auto, unfolding(crate::specs::Header::is_not_ipv4))]
fn is_not_ipv4(bytes: &[u8]) -> bool
    ensures answer { result ≡ is_not_ipv4 bytes.now }
    ensures passed { OnFalse result (0 < length bytes.now) }
{
    bytes.is_empty() || bytes[0] >> 4 != VERSION
}

/// The header is shorter than any may be, or longer than the total length, where the bytes reach that field.
#[tactic(auto, unfolding(crate::specs::Header::is_malformed))]
fn is_malformed(bytes: &[u8]) -> bool
    requires { 0 < length bytes.now }
    ensures { result ≡ is_malformed bytes.now }
{
    let header = header_length(bytes);
    header < LEAST_HEADER
        || (bytes.len() >= TOTAL_LENGTH + 2 && total_length(bytes) < u16::from(header))
}

/// Bytes are missing: of the least header, of this one or of the packet.
#[tactic(auto, unfolding(crate::specs::Header::is_truncated))]
fn is_truncated(bytes: &[u8]) -> bool
    requires { 0 < length bytes.now }
    ensures answer { result ≡ is_truncated bytes.now }
    ensures passed_least { OnFalse result (20 ≤ length bytes.now) }
    ensures passed_header { OnFalse result (header_length bytes.now ≤ length bytes.now) }
{
    let there = bytes.len();
    there < usize::from(LEAST_HEADER)
        || there < usize::from(header_length(bytes))
        || there < usize::from(total_length(bytes))
}

/// The sum of the header's words isn't sixteen one bits.
#[tactic(auto, unfolding(crate::specs::Header::has_bad_checksum))]
fn has_bad_checksum(bytes: &[u8]) -> bool
    requires some { 0 < length bytes.now }
    requires there { header_length bytes.now ≤ length bytes.now }
    ensures { result ≡ has_bad_checksum bytes.now }
{
    let header = usize::from(header_length(bytes));
    ones_complement_sum(&bytes[..header]) != 0xffff
}

/// Checks that the bytes begin with a good IPv4 packet, and reads its header. Bytes past its total length may follow.
#[tactic(auto, unfolding(crate::specs::Header::good, crate::specs::Check::fault_of))]
pub fn check(bytes: &[u8]) -> Result<Head, Bad>
    ensures passes { IsOk result ↔ IsTrue (good bytes.now) }
    ensures fields { IfOk result (λ head. head ≡ head_of bytes.now) }
    ensures first_fault { result_err result ≡ fault_of bytes.now }
{
    if is_not_ipv4(bytes) {
        return Err(Bad::NotIpv4);
    }
    if is_malformed(bytes) {
        return Err(Bad::Malformed);
    }
    if is_truncated(bytes) {
        return Err(Bad::Truncated);
    }
    if has_bad_checksum(bytes) {
        return Err(Bad::BadChecksum);
    }
    Ok(Head {
        header: header_length(bytes),
        total: total_length(bytes),
        ttl: bytes[TTL],
        destination: u32::from_be_bytes([
            bytes[DESTINATION],
            bytes[DESTINATION + 1],
            bytes[DESTINATION + 2],
            bytes[DESTINATION + 3],
        ]),
    })
}
