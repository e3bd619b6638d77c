// Files in memory, each under its name.
ghost use Rattle.std.specs.Prelude.{◌≡◌, [], None, IfSome, IfNone, OnOk, OnErr, option_copied};
ghost use Rattle.mn_edge.specs.Files.{file, with_file};
ghost use Rattle.mn_edge.specs.Memory.{extended, files_of};
ghost use Rattle.mn_edge.specs.Place.{IsAt, bytes_at};
ghost use Rattle.mn_edge.specs.Written.{pairs};

use std::alloc::{AllocError, Global};
use std::marker::Model;

/// Files by name. Where a name stands twice, the first file is meant.
#[derive(Drop)]
pub(crate) struct NamedFiles {
    entries: Vec<(String, Vec<u8>)>,
}

impl Model for NamedFiles {
    ghost use Rattle.mn_edge.specs.Files.{Files};
    ghost use Rattle.mn_edge.specs.Memory.{files_code, files_of};

    ghost Value = { Files };

    ghost coded = { files_code };

    ghost view = { λ s. files_of s.entries.items };
}

impl NamedFiles {
    pub(crate) fn new(entries: Vec<(String, Vec<u8>)>) -> NamedFiles
        ensures { result ≡ files_of entries.items }
    {
        NamedFiles { entries }
    }

    /// The bytes of the file of this name.
    pub(crate) fn get(&self, name: &str) -> Option<&[u8]>
        ensures { option_copied result ≡ file self.now name.now }
    {
        match place(&self.entries, name) {
            Some(i) => Some(&self.entries[i].1),
            None => None,
        }
    }

    /// Makes the file, or empties it where it is there.
    pub(crate) fn make_empty(&mut self, alloc: Global, name: &str) -> Result<(), AllocError>
        ensures ok { OnOk result (self.new ≡ with_file self.old name.now []) }
        ensures err { OnErr result (self.new ≡ self.old) }
    {
        if let Some(i) = place(&self.entries, name) {
            let entry = &mut self.entries[i];
            entry.1.clear();
        } else {
            let owned = String::from_str(alloc, name)?;
            self.entries.push((owned, Vec::new(alloc)))?;
        }
        Ok(())
    }

    /// Adds a piece at the end of the file of this name, if it is there.
    pub(crate) fn extend(&mut self, name: &str, piece: &[u8]) -> Result<(), AllocError>
        ensures ok { OnOk result (self.new ≡ extended self.old name.now piece.now) }
        ensures err { OnErr result (self.new ≡ self.old) }
    {
        if let Some(i) = place(&self.entries, name) {
            let entry = &mut self.entries[i];
            entry.1.extend_from_slice(piece)?;
        }
        Ok(())
    }
}

/// The place of the first file of this name.
fn place(files: &[(String, Vec<u8>)], name: &str) -> Option<usize>
    ensures found { IfSome result (λ i. IsAt (pairs files.now) name.now i) }
    ensures missing { IfNone result (bytes_at (pairs files.now) name.now ≡ None) }
{
    for i in 0..files.len() {
        if name == files[i].0.as_str() {
            return Some(i);
        }
    }
    None
}
