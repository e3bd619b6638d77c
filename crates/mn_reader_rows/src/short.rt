//! A shelf that gives few bytes at once, and captures on it.
ghost use Rattle.std.specs.Prelude.{None, Some, refl};

use crate::devices::{bytes_at, device_row};
use mn_capture::Capture;
use mn_edge::{DeviceBad, Shelf};
use mn_rows::{Answer, Call, done, shown};
use std::alloc::Global;

/// A shelf whose every file has these bytes, of which a fetch gives few at a time. It tells nothing of them.
#[derive(Drop)]
struct ShortShelf {
    bytes: Vec<u8>,
    most: usize,
    fetches: u64,
}

impl Shelf for ShortShelf {
    ghost files = { λ s. None };

    ghost read_faults = { λ s. Some 0 };

    ghost write_faults = { λ s. Some 0 };

    ghost calls = { λ s. None };

    ghost refusal = { λ s. None };

    fn fetch(&mut self, name: &str, at: u64, buf: &mut [u8]) -> Result<usize, DeviceBad> {
        let _ = name;
        self.fetches = self.fetches.saturating_add(1);
        if at >= self.bytes.len() as u64 {
            return Ok(0);
        }
        let rest = &self.bytes[at as usize..];
        let count = rest.len().min(buf.len()).min(self.most);
        buf[..count].copy_from_slice(&rest[..count]);
        Ok(count)
    }

    fn begin(&mut self, _: &str) -> Result<(), DeviceBad> {
        Ok(())
    }

    fn append(&mut self, _: &str, _: &[u8]) -> Result<(), DeviceBad> {
        Ok(())
    }

    ghost told = { λ shelf none. (refl, refl) };
}

/// Such a shelf, and the last capture on it.
#[derive(Drop)]
pub(crate) struct Short {
    shelf: ShortShelf,
    capture: Option<Capture>,
}

impl Short {
    pub(crate) fn new(alloc: Global) -> Short {
        Short {
            shelf: ShortShelf {
                bytes: Vec::new(alloc),
                most: 1,
                fetches: 0,
            },
            capture: None,
        }
    }
}

/// A shelf that gives so many bytes at once, and the bytes.
fn begin_anew(alloc: Global, short: &mut Short, call: Call<'_>) -> Answer {
    let (Some(most), Some(bytes)) = (call.number_u32(2), bytes_at(alloc, call, 3)?) else {
        return Ok(None);
    };
    short.shelf = ShortShelf {
        bytes,
        most: most as usize,
        fetches: 0,
    };
    done(alloc)
}

/// Puts a byte behind the others so many times.
fn fill(alloc: Global, short: &mut Short, call: Call<'_>) -> Answer {
    let (Some(value), Some(times)) = (call.number_u8(2), call.number(3, 1_000_000)) else {
        return Ok(None);
    };
    for _ in 0..times {
        short.shelf.bytes.push(value)?;
    }
    done(alloc)
}

pub(crate) fn short_row(alloc: Global, short: &mut Short, call: Call<'_>) -> Answer {
    match call.verb() {
        b"new" => begin_anew(alloc, short, call),
        b"fill" => fill(alloc, short, call),
        b"fetches" => shown(alloc, &short.shelf.fetches),
        _ => device_row(alloc, &mut short.shelf, &mut short.capture, call),
    }
}
