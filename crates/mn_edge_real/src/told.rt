//! How far files were told of.
ghost use Rattle.std.specs.Prelude.{◌≡◌, ℕ, List, max, OnOk};
ghost use Rattle.mn_edge_real.specs.Reached.{end_told};

use indexmap::IndexMap;
use std::alloc::{AllocError, Global};

/// The end of the bytes that reads gave of each file.
#[derive(Drop)]
pub(crate) struct Told {
    alloc: Global,
    ends: IndexMap<String, u64>,
}

impl Told {
    /// No file was told of.
    pub(crate) fn new(alloc: Global) -> Told
        ensures { (name : List ℕ) → end_told result name ≡ 0 }
    {
        Told {
            alloc,
            ends: IndexMap::new(alloc),
        }
    }

    /// How far the file was told of: 0 where it wasn't.
    pub(crate) fn end(&self, name: &str) -> u64
        ensures { result ≡ end_told self.now name.now }
    {
        match self.ends.get(name) {
            Some(end) => *end,
            None => 0,
        }
    }

    /// The file was told of up to this place.
    pub(crate) fn reach(&mut self, name: &str, end: u64) -> Result<(), AllocError>
        ensures { OnOk result (end_told self.new name.now ≡ max (end_told self.old name.now) end) }
    {
        if end > self.end(name) {
            let name = String::from_str(self.alloc, name)?;
            self.ends.insert(name, end)?;
        }
        Ok(())
    }

    /// Nothing is known of the file any more.
    pub(crate) fn forget(&mut self, name: &str)
        ensures { end_told self.new name.now ≡ 0 }
    {
        let _ = self.ends.swap_remove(name);
    }
}
