//! Entries of the label stack, and frames that are read, pushed, swapped and popped.
ghost use Rattle.std.specs.Prelude.{IfSome};
ghost use Rattle.mn_stack.specs.Entry.{Fits};

use crate::bytes::bytes_from;
use crate::named::says;
use mn_ipv4::check;
use mn_rows::{Answer, Call, done, in_hex, shown};
use mn_stack::{
    Entry, Frame, FrameBad, entries_differ_in_bytes, read_entry, write_entry, written_is_read,
};
use std::alloc::Global;

const REFUSALS: [FrameBad; 4] = [
    FrameBad::NoBottom,
    FrameBad::Short,
    FrameBad::BadPayload,
    FrameBad::NoMemory,
];

/// Label, Exp, S bit and TTL, from the third word on.
fn entry_of(call: Call<'_>) -> Option<Entry>
    ensures { IfSome result Fits }
{
    Some(Entry {
        label: call.number(2, 1_048_575)? as u32,
        exp: call.number(3, 7)? as u8,
        bottom: call.number(4, 1)? == 1,
        ttl: call.number_u8(5)?,
    })
}

fn read(alloc: Global, call: Call<'_>) -> Answer {
    let Some(bytes) = bytes_from(alloc, call, 2)? else {
        return Ok(None);
    };
    match *bytes.as_slice() {
        [a, b, c, d] => shown(alloc, &read_entry(&[a, b, c, d])),
        _ => Ok(None),
    }
}

fn write(alloc: Global, call: Call<'_>) -> Answer {
    match entry_of(call) {
        Some(entry) => Ok(Some(in_hex(alloc, &write_entry(entry))?)),
        None => Ok(None),
    }
}

fn laws(alloc: Global) -> Answer {
    entries_differ_in_bytes();
    written_is_read();
    done(alloc)
}

pub(crate) fn entry_row(alloc: Global, call: Call<'_>) -> Answer {
    match call.verb() {
        b"read" => read(alloc, call),
        b"write" => write(alloc, call),
        b"laws" => laws(alloc),
        _ => Ok(None),
    }
}

/// Makes a frame of a packet that is checked before.
fn over(alloc: Global, frame: &mut Option<Frame>, packet: &[u8]) -> Answer {
    match check(packet) {
        Err(bad) => shown(alloc, &bad),
        Ok(head) if usize::from(head.total) != packet.len() => {
            Ok(Some(String::from_str(alloc, "bytes behind the packet")?))
        }
        Ok(_) => {
            *frame = Some(Frame::over(alloc, packet)?);
            done(alloc)
        }
    }
}

/// Reads a frame, which stands in the place of the one before where it is one.
fn read_frame(alloc: Global, frame: &mut Option<Frame>, bytes: &[u8]) -> Answer {
    match Frame::read(alloc, bytes) {
        Err(bad) => shown(alloc, &bad),
        Ok(found) => {
            *frame = Some(found);
            done(alloc)
        }
    }
}

/// Makes a frame of the bytes from the third word on.
fn made(alloc: Global, frame: &mut Option<Frame>, call: Call<'_>) -> Answer {
    let Some(bytes) = bytes_from(alloc, call, 2)? else {
        return Ok(None);
    };
    match call.verb() {
        b"over" => over(alloc, frame, &bytes),
        b"read" => read_frame(alloc, frame, &bytes),
        _ => Ok(None),
    }
}

/// Changes the stack by a label and a TTL, and answers whether it was changed.
fn relabel(frame: &mut Frame, call: Call<'_>) -> Option<()> {
    let label = call.number(2, 1_048_575)? as u32;
    let ttl = call.number_u8(3)?;
    match call.verb() {
        b"push" if frame.room() > 0 => frame.push(label, ttl),
        b"swap" if frame.depth() > 0 => frame.swap(label, ttl),
        _ => return None,
    }
    Some(())
}

/// Changes a TTL, or takes the top entry off, and answers whether that was done.
fn change(frame: &mut Frame, call: Call<'_>) -> Option<()> {
    match call.verb() {
        b"pop" if frame.depth() > 0 => frame.pop(),
        b"top_ttl" if frame.depth() > 0 => frame.set_top_ttl(call.number_u8(2)?),
        b"ip_ttl" => frame.set_ip_ttl(call.number_u8(2)?),
        _ => return relabel(frame, call),
    }
    Some(())
}

/// What is asked of a frame, and its changes.
fn asked(alloc: Global, frame: &mut Frame, call: Call<'_>) -> Answer {
    match call.verb() {
        b"depth" => shown(alloc, &frame.depth()),
        b"room" => shown(alloc, &frame.room()),
        b"top" if frame.depth() > 0 => shown(alloc, &frame.top()),
        b"bytes" => Ok(Some(in_hex(alloc, frame.bytes())?)),
        b"packet" => Ok(Some(in_hex(alloc, frame.packet())?)),
        _ => match change(frame, call) {
            Some(()) => done(alloc),
            None => Ok(None),
        },
    }
}

pub(crate) fn frame_row(alloc: Global, frame: &mut Option<Frame>, call: Call<'_>) -> Answer {
    match (call.verb(), frame.as_mut()) {
        (b"over" | b"read", _) => made(alloc, frame, call),
        (b"says", _) => says(alloc, call, &REFUSALS),
        (_, Some(frame)) => asked(alloc, frame, call),
        (_, None) => Ok(None),
    }
}
