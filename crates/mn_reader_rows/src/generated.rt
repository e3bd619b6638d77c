//! The inputs that `generate` makes, for a number from 0 to 99.
ghost use Rattle.std.specs.Prelude.{◌≤◌};

use crate::escapes::escaped;
use crate::topologies::Topologies;
use mn_gen::{capture_bytes, script_text, topology_text};
use mn_ipv4::check;
use mn_pcap::{count_records, records};
use mn_rows::{Answer, Call};
use mn_script::read_script;
use std::alloc::{AllocError, Global};
use std::fmt::Write;

/// The generated topology or script.
fn text_of(alloc: Global, call: Call<'_>, number: u32) -> Result<Option<Vec<u8>>, AllocError>
    requires { number ≤ 99 }
{
    match call.word(3) {
        Some(b"topology") => Ok(Some(topology_text(alloc, number)?)),
        Some(b"script") => Ok(Some(script_text(alloc, number)?)),
        _ => Ok(None),
    }
}

/// The first or the last bytes of a text, as many as the fifth word says.
fn end(alloc: Global, call: Call<'_>, number: u32) -> Answer
    requires { number ≤ 99 }
{
    let (Some(text), Some(count)) = (text_of(alloc, call, number)?, call.number(4, 1_000)) else {
        return Ok(None);
    };
    let count = (count as usize).min(text.len());
    let part = match call.verb() {
        b"front" => &text[..count],
        _ => &text[text.len() - count..],
    };
    Ok(Some(escaped(alloc, part)?))
}

/// How many lines of the generated script ask for something, over the last topology.
fn script(alloc: Global, topologies: &Topologies, number: u32) -> Answer
    requires { number ≤ 99 }
{
    let Some(topology) = topologies.last() else {
        return Ok(None);
    };
    let text = script_text(alloc, number)?;
    match read_script(alloc, topology, &text) {
        Ok(lines) => {
            let count = lines.len();
            Ok(Some(format!(in alloc; "{count} lines")?))
        }
        Err(bad) => Ok(Some(format!(in alloc; "{bad:?}")?)),
    }
}

/// The length and the destination of a packet, or why it isn't one.
fn put_packet(text: &mut String, packet: &[u8]) -> Result<(), AllocError> {
    match check(packet) {
        Err(bad) => write!(text, ", {bad:?}"),
        Ok(head) => {
            let total = head.total;
            let [a, b, c, d] = head.destination.to_be_bytes();
            write!(text, ", {total} bytes to {a}.{b}.{c}.{d}")
        }
    }
}

/// The records of the generated capture.
fn capture(alloc: Global, number: u32) -> Answer
    requires { number ≤ 99 }
{
    let bytes = capture_bytes(alloc, number)?;
    let count = count_records(&bytes);
    let mut text = format!(in alloc; "{count} records")?;
    let Ok(places) = records(alloc, &bytes) else {
        return Ok(Some(text));
    };
    for place in &places {
        let at = place.at as usize;
        let Some(behind) = bytes.get(at..) else {
            continue;
        };
        let length = behind.len().min(place.length as usize);
        put_packet(&mut text, &behind[..length])?;
    }
    Ok(Some(text))
}

pub(crate) fn generated_row(alloc: Global, topologies: &mut Topologies, call: Call<'_>) -> Answer {
    let Some(number) = call.number(2, 99) else {
        return Ok(None);
    };
    let number = number as u32;
    match call.verb() {
        b"topology" => topologies.read(alloc, &topology_text(alloc, number)?),
        b"script" => script(alloc, topologies, number),
        b"capture" => capture(alloc, number),
        b"front" | b"back" => end(alloc, call, number),
        _ => Ok(None),
    }
}
