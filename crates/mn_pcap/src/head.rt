// The bytes of a header as they come, of the file's or of a record's.
ghost use Rattle.std.specs.Prelude.{◌≡◌, ◌≤◌, ◌-◌, [], ◌++◌, length, min, take};

use crate::message::FILE_HEADER;
use std::marker::Model;

/// The first bytes of a header, at most 24. Contracts see them as a list.
#[derive(Drop)]
pub(crate) struct Head {
    bytes: [u8; FILE_HEADER],
    held: usize,
}

impl Model for Head {
    ghost use Rattle.std.specs.Prelude.{◌≤◌, ℕ, List, take};

    ghost Value = { List ℕ };

    ghost view = { λ h. take h.held h.bytes };

    ghost invariant = { λ h. h.held ≤ 24 };
}

impl Head {
    pub(crate) fn new() -> Head
        ensures { result ≡ [] }
    {
        Head {
            bytes: [0; FILE_HEADER],
            held: 0,
        }
    }

    pub(crate) fn as_slice(&self) -> &[u8]
        ensures held { result.now ≡ self.now }
        ensures size { length result.now ≤ 24 }
    {
        &self.bytes[..self.held]
    }

    /// Takes bytes until so many are held, and tells how many it took.
    pub(crate) fn fill(&mut self, size: usize, rest: &[u8]) -> usize
        requires size { size ≤ 24 }
        requires room { length self.old ≤ size }
        ensures filled { self.new ≡ self.old ++ take result rest.now }
        ensures many { result ≡ min (size - length self.old) (length rest.now) }
    {
        let taken = rest.len().min(size - self.held);
        let end = self.held + taken;
        self.bytes[self.held..end].copy_from_slice(&rest[..taken]);
        self.held = end;
        taken
    }

    pub(crate) fn clear(&mut self)
        ensures { self.new ≡ [] }
    {
        self.held = 0;
    }
}
