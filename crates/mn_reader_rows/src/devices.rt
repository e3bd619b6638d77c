//! What is asked of any shelf: files, and captures on it.
ghost use Rattle.std.specs.Prelude.{◌≤◌};

use crate::escapes::{escaped, word_at};
use mn_capture::{Capture, Scanned, scan};
use mn_edge::{Content, DeviceBad, Shelf, read_all};
use mn_pcap::packet_of;
use mn_rows::{Answer, Call, shown};
use std::alloc::{AllocError, Global};
use std::str::from_utf8;

/// The most bytes that a row fetches.
const ROOM: u64 = 100;

/// A file's name.
pub(crate) fn name_at(call: Call<'_>, k: usize) -> Option<&str> {
    from_utf8(call.word(k)?).ok()
}

/// The numbers of calls that fail.
pub(crate) fn failing_from(
    alloc: Global,
    call: Call<'_>,
    k: usize,
) -> Result<Vec<u64>, AllocError> {
    let mut failing = Vec::new(alloc);
    for at in k..16 {
        match call.number(at, u64::MAX) {
            Some(number) => failing.push(number)?,
            None => break,
        }
    }
    Ok(failing)
}

/// The bytes of a word, or in hexadecimal those behind the word `hex`.
pub(crate) fn bytes_at(
    alloc: Global,
    call: Call<'_>,
    k: usize,
) -> Result<Option<Vec<u8>>, AllocError>
    requires { k ≤ 8 }
{
    if call.has(k, b"hex") {
        return call.bytes(alloc, k + 1);
    }
    word_at(alloc, call, k)
}

/// Some bytes behind what is stated of them.
fn with_text(alloc: Global, mut said: String, bytes: &[u8]) -> Answer {
    if !bytes.is_empty() {
        said.push(' ')?;
        let text = escaped(alloc, bytes)?;
        said.push_str(text.as_str())?;
    }
    Ok(Some(said))
}

/// How many bytes came, and then all that there is room for, with dots where none came.
fn fetch<S: Shelf>(alloc: Global, shelf: &mut S, call: Call<'_>) -> Answer {
    let (Some(name), Some(at), Some(room)) = (
        name_at(call, 2),
        call.number(3, u64::MAX),
        call.number(4, ROOM),
    ) else {
        return Ok(None);
    };
    let mut bytes = vec![in alloc; b'.'; room as usize]?;
    match shelf.fetch(name, at, &mut bytes) {
        Ok(count) => {
            let count = format!(in alloc; "{count}")?;
            with_text(alloc, count, &bytes)
        }
        Err(bad) => shown(alloc, &bad),
    }
}

fn begin<S: Shelf>(alloc: Global, shelf: &mut S, call: Call<'_>) -> Answer {
    match name_at(call, 2) {
        Some(name) => shown(alloc, &shelf.begin(name)),
        None => Ok(None),
    }
}

fn append<S: Shelf>(alloc: Global, shelf: &mut S, call: Call<'_>) -> Answer {
    match (name_at(call, 2), bytes_at(alloc, call, 3)?) {
        (Some(name), Some(piece)) => shown(alloc, &shelf.append(name, &piece)),
        _ => Ok(None),
    }
}

/// How many bytes there are, and the first of them.
fn counted(alloc: Global, bytes: &[u8]) -> Answer {
    let count = bytes.len();
    let said = format!(in alloc; "{count} bytes")?;
    with_text(alloc, said, &bytes[..count.min(ROOM as usize)])
}

fn read_whole<S: Shelf>(alloc: Global, shelf: &mut S, call: Call<'_>) -> Answer {
    let (Some(name), Some(limit)) = (name_at(call, 2), call.number(3, u64::MAX)) else {
        return Ok(None);
    };
    match read_all(alloc, shelf, name, limit) {
        Ok(Content::Whole(bytes)) => counted(alloc, &bytes),
        Ok(Content::TooLarge) => Ok(Some(String::from_str(alloc, "TooLarge")?)),
        Err(bad) => shown(alloc, &bad),
    }
}

/// What a scan answers: a capture, which is kept, or why there is none.
fn answered(
    alloc: Global,
    capture: &mut Option<Capture>,
    scanned: Result<Scanned, DeviceBad>,
) -> Answer {
    let text = match scanned {
        Err(bad) => format!(in alloc; "{bad:?}")?,
        Ok(Scanned::TooLong) => String::from_str(alloc, "TooLong")?,
        Ok(Scanned::TooMany) => String::from_str(alloc, "TooMany")?,
        Ok(Scanned::Refused { rule, place }) => format!(in alloc; "{rule:?} at {place}")?,
        Ok(Scanned::Read(found)) => {
            let records = found.records();
            let link = found.link();
            *capture = Some(found);
            format!(in alloc; "{records} records, {link:?}")?
        }
    };
    Ok(Some(text))
}

/// Scans a file, with the most bytes and the most records.
fn scan_file<S: Shelf>(
    alloc: Global,
    shelf: &mut S,
    capture: &mut Option<Capture>,
    call: Call<'_>,
) -> Answer {
    let (Some(name), Some(bytes), Some(records)) = (
        name_at(call, 2),
        call.number(3, u64::MAX),
        call.number(4, u64::MAX),
    ) else {
        return Ok(None);
    };
    let scanned = scan(alloc, shelf, name, bytes, records);
    answered(alloc, capture, scanned)
}

/// The bytes of a record, from 1, or the packet in them.
fn record<S: Shelf>(alloc: Global, shelf: &mut S, capture: &Capture, call: Call<'_>) -> Answer {
    let Some(nth) = call.number_u32(2) else {
        return Ok(None);
    };
    if nth == 0 || nth as usize > capture.records() {
        return Ok(None);
    }
    let mut bytes = Vec::new(alloc);
    match capture.fetch(shelf, nth, &mut bytes) {
        Err(bad) => shown(alloc, &bad),
        Ok(()) if call.has(1, b"packet") => counted(alloc, packet_of(capture.link(), &bytes)),
        Ok(()) => counted(alloc, &bytes),
    }
}

pub(crate) fn device_row<S: Shelf>(
    alloc: Global,
    shelf: &mut S,
    capture: &mut Option<Capture>,
    call: Call<'_>,
) -> Answer {
    match call.verb() {
        b"fetch" => fetch(alloc, shelf, call),
        b"begin" => begin(alloc, shelf, call),
        b"append" => append(alloc, shelf, call),
        b"read_all" => read_whole(alloc, shelf, call),
        b"scan" => scan_file(alloc, shelf, capture, call),
        b"record" | b"packet" => match capture {
            Some(capture) => record(alloc, shelf, capture, call),
            None => Ok(None),
        },
        _ => Ok(None),
    }
}
