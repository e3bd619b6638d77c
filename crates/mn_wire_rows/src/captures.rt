//! Captures, read whole and in pieces, and written.
ghost use Rattle.std.specs.Prelude.{◌<◌, IfSome};

use crate::bytes::{Fronts, bytes_from};
use crate::named::named;
use mn_pcap::{
    Form, LinkKind, PcapBad, PcapRule, Place, Scan, count_records, packet_of, put_header,
    put_record, read_header, records,
};
use mn_rows::{Answer, Call, displayed, done, in_hex, shown};
use std::alloc::{AllocError, Global};
use std::fmt::Write;
use std::mem;

/// The last tick whose seconds have 32 bits.
const LAST_TICK: u64 = 4_294_967_295_999;

/// More bytes than any row has.
const MANY: usize = 1_000_000;

const LINKS: [LinkKind; 3] = [LinkKind::Ethernet, LinkKind::RawIp, LinkKind::RawIpv4];

const RULES: [PcapRule; 6] = [
    PcapRule::CutShort,
    PcapRule::IsPcapng,
    PcapRule::BadMagic,
    PcapRule::BadVersion,
    PcapRule::BadLinkType,
    PcapRule::BadRecord,
];

/// A refusal by its rule and place.
fn refusal(alloc: Global, bad: PcapBad) -> Result<String, AllocError> {
    match bad {
        PcapBad::Refused { rule, place } => format!(in alloc; "{rule:?} at {place}"),
        PcapBad::NoMemory => String::from_str(alloc, "NoMemory"),
    }
}

/// Byte order and link type, and of each record its place and length, as `little RawIpv4 40+3 59+4`.
fn found(alloc: Global, form: Form, places: &[Place]) -> Result<String, AllocError> {
    let order = match form.big {
        true => "big",
        false => "little",
    };
    let link = form.link;
    let mut text = format!(in alloc; "{order} {link:?}")?;
    for place in places {
        let at = place.at;
        let length = place.length;
        write!(text, " {at}+{length}")?;
    }
    Ok(text)
}

/// How many whole records there are, and a text.
fn counted(alloc: Global, whole: u64, text: &str) -> Result<String, AllocError> {
    format!(in alloc; "{whole}: {text}")
}

/// What a capture holds, or its refusal; and before it how many whole records there are.
fn reading(alloc: Global, bytes: &[u8]) -> Result<String, AllocError> {
    let header = read_header(bytes);
    let text = match records(alloc, bytes) {
        Ok(places) => match header {
            Ok(form) => found(alloc, form, &places)?,
            Err(_) => String::from_str(alloc, "records behind a refused header")?,
        },
        Err(bad) => match header {
            Err(first) if first != bad => String::from_str(alloc, "two refusals")?,
            _ => refusal(alloc, bad)?,
        },
    };
    counted(alloc, count_records(bytes), text.as_str())
}

/// What a scan holds that is fed pieces of so many bytes; its last feed's answer, and how many records have come.
fn scanned(alloc: Global, bytes: &[u8], size: usize) -> Result<String, AllocError>
    requires { 0 < size }
{
    let mut scan = Scan::new(alloc);
    let mut fed = Ok(());
    for piece in bytes.chunks(size) {
        fed = scan.feed(piece);
    }
    ending(alloc, fed, scan)
}

/// The refusal at the end, and `soon` where the last piece was answered with it.
fn refused(alloc: Global, fed: Result<(), PcapBad>, bad: PcapBad) -> Result<String, AllocError> {
    let mut text = refusal(alloc, bad)?;
    match fed {
        Ok(()) => {}
        Err(first) if first == bad => text.push_str(" soon")?,
        Err(_) => text.push_str(" behind another refusal")?,
    }
    Ok(text)
}

/// As `reading`, of all that was fed.
fn ending(alloc: Global, fed: Result<(), PcapBad>, scan: Scan) -> Result<String, AllocError> {
    let whole = scan.count();
    let text = match scan.finish() {
        Ok((form, places)) => found(alloc, form, &places)?,
        Err(bad) => refused(alloc, fed, bad)?,
    };
    counted(alloc, whole, text.as_str())
}

/// How a capture is read: whole, or in pieces of so many bytes.
#[derive(Clone, Copy)]
enum Way {
    Whole,
    Pieces(usize),
}

/// The size of pieces at a word.
fn size_at(call: Call<'_>, k: usize) -> Option<usize>
    ensures { IfSome result (λ size. 0 < size) }
{
    match call.number(k, 64)? {
        0 => None,
        size => Some(size as usize),
    }
}

fn read_by(alloc: Global, way: Way, bytes: &[u8]) -> Result<String, AllocError> {
    match way {
        Way::Pieces(size) if size > 0 => scanned(alloc, bytes, size),
        _ => reading(alloc, bytes),
    }
}

/// What each front of the bytes holds, from none of them to all.
fn fronts(alloc: Global, way: Way, bytes: &[u8]) -> Answer {
    let mut fronts = Fronts::of(alloc, bytes, |alloc, front| read_by(alloc, way, front))?;
    fronts.add(read_by(alloc, way, bytes)?)?;
    Ok(Some(fronts.text()?))
}

/// Whole, or in pieces of the size that the third word says; then the bytes.
fn read_row(alloc: Global, call: Call<'_>) -> Answer {
    let (way, k) = match (call.has(2, b"pieces"), size_at(call, 3)) {
        (true, Some(size)) => (Way::Pieces(size), 4),
        _ => (Way::Whole, 2),
    };
    let Some(bytes) = bytes_from(alloc, call, k)? else {
        return Ok(None);
    };
    match call.verb() {
        b"read" => Ok(Some(read_by(alloc, way, &bytes)?)),
        b"fronts" => fronts(alloc, way, &bytes),
        _ => Ok(None),
    }
}

fn packet(alloc: Global, call: Call<'_>) -> Answer {
    let (Some(link), Some(bytes)) = (named(alloc, call, &LINKS)?, bytes_from(alloc, call, 3)?)
    else {
        return Ok(None);
    };
    Ok(Some(in_hex(alloc, packet_of(link, &bytes))?))
}

/// A header behind the bytes 00 FF.
fn header(alloc: Global, call: Call<'_>) -> Answer {
    let Some(link) = call.number_u32(2) else {
        return Ok(None);
    };
    let mut out = Vec::from_slice(alloc, &[0x00, 0xFF])?;
    put_header(&mut out, link)?;
    Ok(Some(in_hex(alloc, &out)?))
}

/// A record behind the bytes 00 FF.
fn record(alloc: Global, call: Call<'_>) -> Answer {
    let (Some(tick), Some(bytes)) = (call.number(2, LAST_TICK), bytes_from(alloc, call, 3)?) else {
        return Ok(None);
    };
    if bytes.len() > MANY {
        return Ok(None);
    }
    let mut out = Vec::from_slice(alloc, &[0x00, 0xFF])?;
    put_record(&mut out, tick, &bytes)?;
    Ok(Some(in_hex(alloc, &out)?))
}

fn says(alloc: Global, call: Call<'_>) -> Answer {
    match (named(alloc, call, &RULES)?, call.number(3, u64::MAX)) {
        (Some(rule), Some(place)) => displayed(alloc, &PcapBad::Refused { rule, place }),
        (None, None) if call.has(2, b"NoMemory") => displayed(alloc, &PcapBad::NoMemory),
        _ => Ok(None),
    }
}

pub(crate) fn pcap_row(alloc: Global, call: Call<'_>) -> Answer {
    match call.verb() {
        b"packet" => packet(alloc, call),
        b"header" => header(alloc, call),
        b"record" => record(alloc, call),
        b"says" => says(alloc, call),
        _ => read_row(alloc, call),
    }
}

/// What the scan answers to one piece.
fn feed(alloc: Global, scan: &mut Scan, call: Call<'_>) -> Answer {
    match bytes_from(alloc, call, 2)? {
        Some(piece) => shown(alloc, &scan.feed(&piece)),
        None => Ok(None),
    }
}

/// A scan to which nothing has come stands in the place of the one before, whose end is answered.
fn finish(alloc: Global, scan: &mut Scan) -> Answer {
    let last = mem::replace(scan, Scan::new(alloc));
    match last.finish() {
        Ok((form, places)) => Ok(Some(found(alloc, form, &places)?)),
        Err(bad) => Ok(Some(refusal(alloc, bad)?)),
    }
}

fn new_scan(alloc: Global, scan: &mut Scan) -> Answer {
    *scan = Scan::new(alloc);
    done(alloc)
}

pub(crate) fn scan_row(alloc: Global, scan: &mut Scan, call: Call<'_>) -> Answer {
    match call.verb() {
        b"new" => new_scan(alloc, scan),
        b"feed" => feed(alloc, scan, call),
        b"count" => shown(alloc, &scan.count()),
        b"finish" => finish(alloc, scan),
        _ => Ok(None),
    }
}
