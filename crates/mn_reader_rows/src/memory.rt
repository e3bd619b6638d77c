//! The devices in memory.
ghost use Rattle.std.specs.Prelude.{◌≡◌, ◌∷◌, [], IfOk, IsTrue, codes, length};
ghost use Rattle.mn_edge.specs.Memory.{all_differ};
ghost use Rattle.mn_edge.specs.Written.{all_known, pairs, texts};

use crate::devices::{device_row, failing_from, name_at};
use crate::escapes::{escaped, word_at};
use mn_capture::Capture;
use mn_edge::{DeviceBad, MemShelf, MemSink, Sink, append_all, write_all};
use mn_rows::{Answer, Call, done, shown};
use std::alloc::{AllocError, Global};

/// A shelf in memory, the last capture on it, and a sink in memory.
#[derive(Drop)]
pub(crate) struct Memory {
    shelf: MemShelf,
    capture: Option<Capture>,
    sink: MemSink,
}

impl Memory {
    pub(crate) fn new(alloc: Global) -> Result<Memory, AllocError> {
        Ok(Memory {
            shelf: shelf_with(alloc, Vec::new(alloc), Vec::new(alloc))?,
            capture: None,
            sink: MemSink::new(alloc, Vec::new(alloc)),
        })
    }
}

/// A shelf with the files `a` of five bytes, `b` of none, and `c` of these.
pub(crate) fn shelf_with(
    alloc: Global,
    bytes: Vec<u8>,
    failing: Vec<u64>,
) -> Result<MemShelf, AllocError> {
    let mut files = Vec::new(alloc);
    files.push((
        String::from_str(alloc, "a")?,
        Vec::from_slice(alloc, b"hello")?,
    ))?;
    files.push((String::from_str(alloc, "b")?, Vec::new(alloc)))?;
    files.push((String::from_str(alloc, "c")?, bytes))?;
    Ok(MemShelf::new(alloc, files, failing))
}

/// The files `x` and `y`.
pub(crate) fn names(alloc: Global) -> Result<Vec<String>, AllocError>
    ensures texts { IfOk result (λ v. texts v.items ≡ codes "x" ∷ codes "y" ∷ []) }
    ensures differ { IfOk result (λ v. IsTrue (all_differ (texts v.items))) }
    ensures two { IfOk result (λ v. length v.items ≡ 2) }
{
    let mut names = Vec::new(alloc);
    names.push(String::from_str(alloc, "x")?)?;
    names.push(String::from_str(alloc, "y")?)?;
    Ok(names)
}

/// A piece of `x`, one of `y`, and another of `x`.
fn pieces(alloc: Global) -> Result<Vec<(String, Vec<u8>)>, AllocError>
    ensures { IfOk result (λ v. IsTrue (all_known (codes "x" ∷ codes "y" ∷ []) (pairs v.items))) }
{
    let mut pieces = Vec::new(alloc);
    pieces.push((
        String::from_str(alloc, "x")?,
        Vec::from_slice(alloc, b"one")?,
    ))?;
    pieces.push((
        String::from_str(alloc, "y")?,
        Vec::from_slice(alloc, b"two")?,
    ))?;
    pieces.push((
        String::from_str(alloc, "x")?,
        Vec::from_slice(alloc, b"ten")?,
    ))?;
    Ok(pieces)
}

fn write(alloc: Global, shelf: &mut MemShelf) -> Answer {
    let names = names(alloc)?;
    let pieces = pieces(alloc)?;
    shown(alloc, &write_all(shelf, &names, &pieces))
}

fn write_behind(alloc: Global, shelf: &mut MemShelf) -> Answer {
    let pieces = pieces(alloc)?;
    shown(alloc, &append_all(shelf, &pieces))
}

/// A byte that is pushed, or out of memory as a fault of a device.
fn push(list: &mut Vec<u8>) -> Result<(), DeviceBad> {
    list.push(1)?;
    Ok(())
}

/// The file's bytes, or `none` where there is no such file.
pub(crate) fn file(alloc: Global, shelf: &MemShelf, call: Call<'_>) -> Answer {
    let Some(name) = name_at(call, 2) else {
        return Ok(None);
    };
    let Some(bytes) = shelf.file(name) else {
        return Ok(Some(String::from_str(alloc, "none")?));
    };
    let text = escaped(alloc, bytes)?;
    Ok(Some(format!(in alloc; "\"{text}\"")?))
}

/// A shelf whose file `c` has these bytes, and whose calls of these numbers fail.
fn begin_anew(alloc: Global, memory: &mut Memory, call: Call<'_>) -> Answer {
    let Some(bytes) = call.bytes(alloc, 2)? else {
        return Ok(None);
    };
    memory.shelf = shelf_with(alloc, bytes, failing_from(alloc, call, 3)?)?;
    done(alloc)
}

pub(crate) fn shelf_row(alloc: Global, memory: &mut Memory, call: Call<'_>) -> Answer {
    match call.verb() {
        b"new" => begin_anew(alloc, memory, call),
        b"file" => file(alloc, &memory.shelf, call),
        b"calls" => shown(alloc, &memory.shelf.calls()),
        b"write_all" => write(alloc, &mut memory.shelf),
        b"append_all" => write_behind(alloc, &mut memory.shelf),
        b"push" => shown(alloc, &push(&mut Vec::new(alloc))),
        b"want_of_memory" => shown(alloc, &DeviceBad::from(AllocError)),
        _ => device_row(alloc, &mut memory.shelf, &mut memory.capture, call),
    }
}

fn put(alloc: Global, sink: &mut MemSink, call: Call<'_>) -> Answer {
    match word_at(alloc, call, 2)? {
        Some(piece) => shown(alloc, &sink.put(&piece)),
        None => Ok(None),
    }
}

pub(crate) fn sink_row(alloc: Global, memory: &mut Memory, call: Call<'_>) -> Answer {
    match call.verb() {
        b"new" => {
            memory.sink = MemSink::new(alloc, failing_from(alloc, call, 2)?);
            done(alloc)
        }
        b"put" => put(alloc, &mut memory.sink, call),
        b"bytes" => Ok(Some(escaped(alloc, memory.sink.bytes())?)),
        _ => Ok(None),
    }
}
