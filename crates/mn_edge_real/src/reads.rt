//! What reads gave.
ghost use Rattle.std.specs.Prelude.{◌≡◌, ◌+◌, ◌-◌, ◌^◌, ◌<◌, ◌≤◌, ℕ, List, [], length, max, min, string_bytes, IsTrue, OnOk};
ghost use Rattle.mn_edge_real.specs.Reached.{IsTold, end_told};

use crate::last_read::LastRead;
use crate::told::Told;
use std::alloc::{AllocError, Global};

/// How far reads told of each file, and the bytes of the last of them.
#[derive(Drop)]
pub(crate) struct Reads {
    alloc: Global,
    told: Told,
    last: LastRead,
    pub ghost reached: { IsTold last told },
}

impl Reads {
    /// Nothing was read.
    pub(crate) fn new(alloc: Global) -> Reads
        ensures told { (name : List ℕ) → end_told result.told name ≡ 0 }
        ensures last { result.last.bytes.items ≡ [] }
    {
        Reads {
            alloc,
            told: Told::new(alloc),
            last: LastRead::new(alloc),
        }
    }

    /// Fills the buffer by what the last read gave, where it was the same, and answers whether it did.
    pub(crate) fn repeat(&self, name: &str, at: u64, buf: &mut [u8]) -> bool
        ensures some { IsTrue result → 0 < length buf.new }
        ensures bytes { IsTrue result → buf.new ≡ self.now.last.bytes.items }
        ensures place { IsTrue result → self.now.last.at ≡ at }
        ensures file { IsTrue result → string_bytes self.now.last.name ≡ name.now }
        ensures reached { IsTrue result → min (at + length buf.new) (2 ^ 64 - 1) ≤ end_told self.now.told name.now }
    {
        self.last.fill(name, at, buf)
    }

    /// How far the file was told of.
    pub(crate) fn end(&self, name: &str) -> u64
        ensures { result ≡ end_told self.now.told name.now }
    {
        self.told.end(name)
    }

    /// A read gave so many bytes of the file from a place on, at the front of the buffer. Where they fill it they are kept.
    pub(crate) fn note(
        &mut self,
        name: &str,
        at: u64,
        count: usize,
        buf: &[u8],
    ) -> Result<(), AllocError>
        ensures told { OnOk result (end_told self.new.told name.now ≡ max (end_told self.old.told name.now) (min (at + count) (2 ^ 64 - 1))) }
        ensures last { 0 < length self.new.last.bytes.items → (self.new.last.bytes.items ≡ buf.now) × (length buf.now ≡ count)
            × (self.new.last.at ≡ at) × (string_bytes self.new.last.name ≡ name.now) }
    {
        self.last.forget();
        self.told.reach(name, at.saturating_add(count as u64))?;
        if count == buf.len() {
            self.last.keep(self.alloc, name, at, buf);
        }
        Ok(())
    }

    /// Nothing is known of the file any more.
    pub(crate) fn forget(&mut self, name: &str)
        ensures told { end_told self.new.told name.now ≡ 0 }
        ensures last { self.new.last.bytes.items ≡ [] }
    {
        self.last.forget();
        self.told.forget(name);
    }
}
