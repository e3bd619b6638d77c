//! What was read last.
ghost use Rattle.std.specs.Prelude.{◌≡◌, ◌<◌, [], length, string_bytes, IsTrue};

use std::alloc::Global;

/// The most bytes that are kept: 64 KiB.
const MOST: usize = 65_536;

/// The bytes that the last read of a file gave, where it gave as many as were asked for: a record of a capture that is
/// asked for again and again is read once.
#[derive(Drop)]
pub(crate) struct LastRead {
    name: String,
    at: u64,
    /// None where nothing is kept.
    bytes: Vec<u8>,
}

impl LastRead {
    /// Nothing was read.
    pub(crate) fn new(alloc: Global) -> LastRead
        ensures { result.bytes.items ≡ [] }
    {
        LastRead {
            name: String::new(alloc),
            at: 0,
            bytes: Vec::new(alloc),
        }
    }

    /// Fills the buffer with the file's bytes from a place on, where just these are kept, and answers whether it did.
    pub(crate) fn fill(&self, name: &str, at: u64, buf: &mut [u8]) -> bool
        ensures bytes { IsTrue result → buf.new ≡ self.now.bytes.items }
        ensures some { IsTrue result → 0 < length self.now.bytes.items }
        ensures place { IsTrue result → self.now.at ≡ at }
        ensures file { IsTrue result → string_bytes self.now.name ≡ name.now }
    {
        let kept = self.bytes.as_slice();
        if kept.is_empty()
            || kept.len() != buf.len()
            || self.at != at
            || self.name.as_str() != name
        {
            return false;
        }
        buf.copy_from_slice(kept);
        true
    }

    /// Keeps the bytes that a read of the file gave from a place on, or nothing where they are too many or memory runs out.
    pub(crate) fn keep(&mut self, alloc: Global, name: &str, at: u64, bytes: &[u8])
        requires { self.old.bytes.items ≡ [] }
        ensures { 0 < length self.new.bytes.items →
            (self.new.bytes.items ≡ bytes.now) × (self.new.at ≡ at) × (string_bytes self.new.name ≡ name.now) }
    {
        if bytes.len() > MOST {
            return;
        }
        if self.name.as_str() != name {
            let Ok(name) = String::from_str(alloc, name) else {
                return;
            };
            self.name = name;
        }
        self.at = at;
        if self.bytes.extend_from_slice(bytes).is_err() {
            self.bytes.clear();
        }
    }

    /// Nothing is kept any more.
    pub(crate) fn forget(&mut self)
        ensures { self.new.bytes.items ≡ [] }
    {
        self.bytes.clear();
    }
}
