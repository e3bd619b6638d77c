//! A shelf in memory of which one call of a kind fails.
ghost use Rattle.std.specs.Prelude.{None, Some, refl};

use mn_edge::{DeviceBad, MemShelf, Shelf};
use std::alloc::{AllocError, Global};

/// The call that fails, by its number among those of its kind, from 1; at 0 none does.
#[derive(Clone, Copy)]
pub(crate) struct Failing {
    pub fetch: u64,
    pub begin: u64,
    pub append: u64,
}

/// No call fails.
pub(crate) const NEVER: Failing = Failing {
    fetch: 0,
    begin: 0,
    append: 0,
};

/// The inputs of a run, by the names that its words have.
fn inputs(
    alloc: Global,
    topology: &str,
    script: &str,
    capture: &[u8],
) -> Result<MemShelf, AllocError> {
    let mut files = Vec::new(alloc);
    files.push((
        String::from_str(alloc, "t")?,
        Vec::from_slice(alloc, topology.as_bytes())?,
    ))?;
    files.push((
        String::from_str(alloc, "s")?,
        Vec::from_slice(alloc, script.as_bytes())?,
    ))?;
    files.push((
        String::from_str(alloc, "c")?,
        Vec::from_slice(alloc, capture)?,
    ))?;
    Ok(MemShelf::new(alloc, files, Vec::new(alloc)))
}

/// Counts a call, and tells whether it is the one that fails.
fn is_due(left: &mut u64) -> bool {
    if *left == 0 {
        return false;
    }
    *left -= 1;
    *left == 0
}

/// Files in memory, of which contracts are told nothing. An append that fails leaves half of its piece.
#[derive(Drop)]
pub(crate) struct FailingShelf {
    files: MemShelf,
    failing: Failing,
    read_faults: u64,
    write_faults: u64,
    refusal: Option<DeviceBad>,
}

impl FailingShelf {
    /// A shelf with the inputs of a run.
    pub(crate) fn new(
        alloc: Global,
        topology: &str,
        script: &str,
        capture: &[u8],
        failing: Failing,
    ) -> Result<FailingShelf, AllocError> {
        Ok(FailingShelf {
            files: inputs(alloc, topology, script, capture)?,
            failing,
            read_faults: 0,
            write_faults: 0,
            refusal: None,
        })
    }

    /// The bytes of the file of this name, if it is there.
    pub(crate) fn file(&self, name: &str) -> Option<&[u8]> {
        self.files.file(name)
    }
}

impl Shelf for FailingShelf {
    ghost files = { λ s. None };

    ghost read_faults = { λ s. Some s.read_faults };

    ghost write_faults = { λ s. Some s.write_faults };

    ghost calls = { λ s. None };

    ghost refusal = { λ s. s.refusal };

    fn fetch(&mut self, name: &str, at: u64, buf: &mut [u8]) -> Result<usize, DeviceBad> {
        self.refusal = None;
        if !is_due(&mut self.failing.fetch)
            && let Ok(count) = self.files.fetch(name, at, buf)
        {
            return Ok(count);
        }
        self.read_faults = self.read_faults.saturating_add(1);
        self.refusal = Some(DeviceBad::Failed);
        Err(DeviceBad::Failed)
    }

    fn begin(&mut self, name: &str) -> Result<(), DeviceBad> {
        self.refusal = None;
        if !is_due(&mut self.failing.begin) && self.files.begin(name).is_ok() {
            return Ok(());
        }
        self.write_faults = self.write_faults.saturating_add(1);
        self.refusal = Some(DeviceBad::Failed);
        Err(DeviceBad::Failed)
    }

    fn append(&mut self, name: &str, piece: &[u8]) -> Result<(), DeviceBad> {
        self.refusal = None;
        let fails = is_due(&mut self.failing.append);
        let stays = if fails { piece.len() / 2 } else { piece.len() };
        if self.files.append(name, &piece[..stays]).is_ok() && !fails {
            return Ok(());
        }
        self.write_faults = self.write_faults.saturating_add(1);
        self.refusal = Some(DeviceBad::Failed);
        Err(DeviceBad::Failed)
    }

    ghost told = { λ shelf none. (refl, refl) };
}
