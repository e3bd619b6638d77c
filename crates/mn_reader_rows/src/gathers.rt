//! Files that grow by small pieces, written by few appends.
ghost use Rattle.std.specs.Prelude.{◌≡◌, ◌<◌, IsTrue, length};
ghost use Rattle.mn_edge.specs.Memory.{all_differ};
ghost use Rattle.mn_edge.specs.Written.{texts};

use crate::devices::{bytes_at, failing_from, name_at};
use crate::memory::{file, names, shelf_with};
use mn_edge::{DeviceBad, Gather, MemShelf, begin_all};
use mn_rows::{Answer, Call, done, shown};
use std::alloc::{AllocError, Global};

/// Two files that have begun on a shelf, `x` and `y`, and what is held for them.
#[derive(Drop)]
pub(crate) struct Gathering {
    shelf: MemShelf,
    names: Vec<String>,
    gather: Gather,
    ghost two: { (length gather ≡ 2) × (length names.items ≡ 2) × IsTrue (all_differ (texts names.items)) },
}

impl Gathering {
    fn new(alloc: Global, failing: Vec<u64>) -> Result<Gathering, DeviceBad> {
        let mut shelf = shelf_with(alloc, Vec::new(alloc), failing)?;
        let names = names(alloc)?;
        begin_all(&mut shelf, &names)?;
        let gather = Gather::new(alloc, 2)?;
        Ok(Gathering {
            shelf,
            names,
            gather,
        })
    }

    fn put(&mut self, file: u32, piece: &[u8]) -> Result<(), DeviceBad>
        requires { file < 2 }
    {
        self.gather.put(&mut self.shelf, &self.names, file, piece)
    }

    fn end(&mut self) -> Result<(), DeviceBad> {
        self.gather.end(&mut self.shelf, &self.names)
    }
}

/// A byte that stands so many times, or a word.
fn piece_of(alloc: Global, call: Call<'_>) -> Result<Option<Vec<u8>>, AllocError> {
    if !call.has(1, b"fill") {
        return bytes_at(alloc, call, 3);
    }
    match (call.number_u8(3), call.number(4, 1_000_000)) {
        (Some(value), Some(times)) => Ok(Some(vec![in alloc; value; times as usize]?)),
        _ => Ok(None),
    }
}

/// Puts a piece to the first file or the second, by their numbers from 0.
fn put(alloc: Global, gathering: &mut Gathering, call: Call<'_>) -> Answer {
    let (Some(file), Some(piece)) = (call.number(2, 1), piece_of(alloc, call)?) else {
        return Ok(None);
    };
    shown(alloc, &gathering.put(file as u32, &piece))
}

/// How many bytes the file has on the shelf.
fn size(alloc: Global, shelf: &MemShelf, call: Call<'_>) -> Answer {
    let Some(name) = name_at(call, 2) else {
        return Ok(None);
    };
    match shelf.file(name) {
        Some(bytes) => shown(alloc, &bytes.len()),
        None => Ok(None),
    }
}

fn asked(alloc: Global, gathering: &mut Gathering, call: Call<'_>) -> Answer {
    match call.verb() {
        b"put" | b"fill" => put(alloc, gathering, call),
        b"end" => shown(alloc, &gathering.end()),
        b"calls" => shown(alloc, &gathering.shelf.calls()),
        b"file" => file(alloc, &gathering.shelf, call),
        b"size" => size(alloc, &gathering.shelf, call),
        _ => Ok(None),
    }
}

/// Two files begin anew, on a shelf whose calls of these numbers fail.
fn begin_anew(alloc: Global, gathering: &mut Option<Gathering>, call: Call<'_>) -> Answer {
    match Gathering::new(alloc, failing_from(alloc, call, 2)?) {
        Ok(found) => {
            *gathering = Some(found);
            done(alloc)
        }
        Err(bad) => shown(alloc, &bad),
    }
}

pub(crate) fn gather_row(
    alloc: Global,
    gathering: &mut Option<Gathering>,
    call: Call<'_>,
) -> Answer {
    if call.has(1, b"new") {
        return begin_anew(alloc, gathering, call);
    }
    match gathering {
        Some(gathering) => asked(alloc, gathering, call),
        None => Ok(None),
    }
}
