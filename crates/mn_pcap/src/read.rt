// A capture file, read: its header first, and then its records in order.
ghost use Rattle.std.specs.Prelude.{◌≡◌, ◌+◌, ◌≤◌, ◌<◌, ◌^◌, length, IfOk, All};
ghost use Rattle.mn_pcap.specs.Grammar.{number, is_magic};
ghost use Rattle.mn_pcap.specs.Reading.{header_of, record_at, end_of, records_of, count_of, packet_of, Answers};

use crate::message::{
    FILE_HEADER, Form, LINKTYPE_ETHERNET, LINKTYPE_IPV4, LINKTYPE_RAW, LinkKind, MAGIC,
    MAGIC_OF_NANOSECONDS, MAJOR, MINOR, PCAPNG, Place, RECORD_HEADER, SNAPLEN,
};
use crate::refusal::{PcapBad, PcapRule};
use byteorder::{BigEndian, ByteOrder, LittleEndian};
use std::alloc::Global;

const MAGIC_SIZE: usize = 4;

/// The type of a frame that carries an IPv4 packet (RFC 894).
const IPV4: u16 = 0x0800;

const ETHERNET_HEADER: usize = 14;

/// Reads the header of a file: its byte order, and what its records begin with.
///
/// Refuses, in this order: `CutShort`, `IsPcapng`, `BadMagic` and again `CutShort` at byte 0,
/// `BadVersion` at byte 4, `BadLinkType` at byte 20. Takes no memory, and never answers `NoMemory`.
#[tactic(auto, unfolding(crate::specs::Reading::header_of))]
pub fn read_header(bytes: &[u8]) -> Result<Form, PcapBad>
    ensures { result ≡ header_of bytes.now }
{
    if bytes.len() < MAGIC_SIZE {
        return refuse(PcapRule::CutShort, 0);
    }
    let high_byte_first = read_u32(true, bytes);
    if high_byte_first == PCAPNG {
        return refuse(PcapRule::IsPcapng, 0);
    }
    let big = is_magic(high_byte_first);
    if !big && !is_magic(read_u32(false, bytes)) {
        return refuse(PcapRule::BadMagic, 0);
    }
    if bytes.len() < FILE_HEADER {
        return refuse(PcapRule::CutShort, 0);
    }
    if read_u16(big, &bytes[4..]) != MAJOR || read_u16(big, &bytes[6..]) != MINOR {
        return refuse(PcapRule::BadVersion, 4);
    }
    // The high half of the word tells of check sequences behind the frames.
    let link = match read_u32(big, &bytes[20..]) & 0xFFFF {
        LINKTYPE_ETHERNET => LinkKind::Ethernet,
        LINKTYPE_RAW => LinkKind::RawIp,
        LINKTYPE_IPV4 => LinkKind::RawIpv4,
        _ => return refuse(PcapRule::BadLinkType, 20),
    };
    Ok(Form { big, link })
}

/// The places of the records of a whole file, in order.
///
/// Refuses as `read_header` does, and then for the first record that isn't whole, at the first byte
/// of its header: `CutShort` within the header, `BadRecord`, and `CutShort` within the bytes.
pub fn records(alloc: Global, bytes: &[u8]) -> Result<Vec<Place>, PcapBad>
    ensures reading { Answers result (records_of bytes.now) }
    ensures within { IfOk result (λ places. All (λ place. end_of place ≤ length bytes.now) places.items) }
{
    let form = read_header(bytes)?;
    let mut places = Vec::new(alloc);
    let mut at = FILE_HEADER;
    'records: while at < bytes.len() {
        let place = record_at(form.big, bytes, at)?;
        places.push(place).map_err(|_| PcapBad::NoMemory)?;
        at = end_of(place);
    }
    Ok(places)
}

/// How many whole records stand before the first refusal of the file: none where its header is
/// refused.
pub fn count_records(bytes: &[u8]) -> u64
    ensures { result ≡ count_of bytes.now }
{
    let Ok(form) = read_header(bytes) else {
        return 0;
    };
    let mut count = 0;
    let mut at = FILE_HEADER;
    'records: while let Ok(place) = record_at(form.big, bytes, at) {
        count += 1;
        at = end_of(place);
    }
    count
}

/// The packet in a record's bytes. Of an Ethernet frame it is what follows the header of 14 bytes,
/// a trailer included, where the frame's type is that of IPv4, and otherwise empty.
pub fn packet_of(link: LinkKind, bytes: &[u8]) -> &[u8]
    ensures { result.now ≡ packet_of link bytes.now }
{
    match link {
        LinkKind::RawIp | LinkKind::RawIpv4 => bytes,
        LinkKind::Ethernet
            if bytes.len() >= ETHERNET_HEADER && read_u16(true, &bytes[12..]) == IPV4 =>
            &bytes[ETHERNET_HEADER..],
        LinkKind::Ethernet => &[],
    }
}

/// The place of the record whose header begins at this byte.
#[tactic(auto, unfolding(crate::specs::Reading::record_at))]
fn record_at(big: bool, bytes: &[u8], at: usize) -> Result<Place, PcapBad>
    requires { at ≤ length bytes.now }
    ensures place { result ≡ record_at big bytes.now at }
    ensures further { IfOk result (λ place. (at < end_of place) × (end_of place ≤ length bytes.now)) }
{
    let left = bytes.len() - at;
    if left < RECORD_HEADER {
        return refuse(PcapRule::CutShort, at);
    }
    let length = read_u32(big, &bytes[at + 8..]);
    if length > SNAPLEN {
        return refuse(PcapRule::BadRecord, at);
    }
    if left - RECORD_HEADER < length as usize {
        return refuse(PcapRule::CutShort, at);
    }
    Ok(Place {
        at: (at + RECORD_HEADER) as u64,
        length,
    })
}

fn end_of(place: Place) -> usize
    requires { end_of place < 2 ^ 63 }
    ensures { result ≡ end_of place }
{
    place.at as usize + place.length as usize
}

fn is_magic(number: u32) -> bool
    ensures { result ≡ is_magic number }
{
    number == MAGIC || number == MAGIC_OF_NANOSECONDS
}

#[tactic(auto, unfolding(crate::specs::Grammar::number))]
fn read_u16(big: bool, bytes: &[u8]) -> u16
    requires { 2 ≤ length bytes.now }
    ensures { result ≡ number big 2 bytes.now }
{
    if big {
        BigEndian::read_u16(bytes)
    } else {
        LittleEndian::read_u16(bytes)
    }
}

#[tactic(auto, unfolding(crate::specs::Grammar::number))]
pub(crate) fn read_u32(big: bool, bytes: &[u8]) -> u32
    requires { 4 ≤ length bytes.now }
    ensures { result ≡ number big 4 bytes.now }
{
    if big {
        BigEndian::read_u32(bytes)
    } else {
        LittleEndian::read_u32(bytes)
    }
}

fn refuse<T>(rule: PcapRule, place: usize) -> Result<T, PcapBad>
    ensures { result ≡ Err (PcapBad.Refused rule place) }
{
    Err(PcapBad::Refused {
        rule,
        place: place as u64,
    })
}
