//! A disk in memory, which tells its files.
ghost use Rattle.std.specs.Prelude.{◌≡◌, ◌↔◌, [], Some, string_bytes, IfOk, IsTrue};
ghost use Rattle.std.specs.IoError.{error_kind};
ghost use Rattle.mn_edge.specs.Memory.{all_differ, files_of, names_of};
ghost use Rattle.mn_edge.specs.declared.device.DeviceBad.TheVariants.{NoMemory};

use crate::disk::{Disk, Mode};
use mn_edge::{DeviceBad, MemShelf, Shelf};
use std::alloc::Global;
use std::io;
use std::io::{Error, ErrorKind};
use std::marker::Model;

/// Files in memory. A call fails only where a file isn't there or memory runs out.
#[derive(Drop)]
pub struct MemDisk {
    alloc: Global,
    shelf: MemShelf,
    ghost sound: { shelf.failing ≡ [] },
}

impl Model for MemDisk {
    ghost use Rattle.mn_edge.specs.Files.{Files};
    ghost use Rattle.mn_edge.specs.Memory.{files_code};

    ghost Value = { Files };

    ghost coded = { files_code };

    ghost view = { λ disk. disk.shelf.files };
}

impl MemDisk {
    /// A disk with these files.
    pub fn new(alloc: Global, files: Vec<(String, Vec<u8>)>) -> MemDisk
        requires { IsTrue (all_differ (names_of files.items)) }
        ensures { result ≡ files_of files.items }
    {
        MemDisk {
            alloc,
            shelf: MemShelf::new(alloc, files, Vec::new(alloc)),
        }
    }
}

/// A file of a disk in memory that is open.
#[derive(Drop)]
pub struct MemFile {
    name: String,
    mode: Mode,
}

fn opened(alloc: Global, name: &str, mode: Mode) -> io::Result<MemFile>
    ensures { IfOk result (λ file. (string_bytes file.name ≡ name.now) × (file.mode ≡ mode)) }
{
    let name = String::from_str(alloc, name)?;
    Ok(MemFile { name, mode })
}

/// The system's error for a refusal.
fn error_for(bad: DeviceBad) -> Error
    ensures { (error_kind result ≡ ErrorKind.OutOfMemory) ↔ (bad ≡ NoMemory) }
{
    match bad {
        DeviceBad::Failed => Error::from(ErrorKind::NotFound),
        DeviceBad::NoMemory => Error::from(ErrorKind::OutOfMemory),
    }
}

impl Disk for MemDisk {
    type Handle = MemFile;

    ghost files = { λ disk. Some disk };

    ghost opened = { λ file. Some (file.mode, string_bytes file.name) };

    fn open(&mut self, name: &str, mode: Mode) -> io::Result<MemFile> {
        if self.shelf.file(name).is_none() {
            return Err(Error::from(ErrorKind::NotFound));
        }
        opened(self.alloc, name, mode)
    }

    fn create(&mut self, name: &str) -> io::Result<MemFile> {
        let file = opened(self.alloc, name, Mode::Append)?;
        match self.shelf.begin(name) {
            Ok(()) => Ok(file),
            Err(bad) => Err(error_for(bad)),
        }
    }

    fn read_at(&mut self, file: &MemFile, at: u64, buf: &mut [u8]) -> io::Result<usize> {
        match self.shelf.fetch(file.name.as_str(), at, buf) {
            Ok(count) => Ok(count),
            Err(bad) => Err(error_for(bad)),
        }
    }

    fn write(&mut self, file: &MemFile, piece: &[u8]) -> io::Result<usize> {
        match self.shelf.append(file.name.as_str(), piece) {
            Ok(()) => Ok(piece.len()),
            Err(bad) => Err(error_for(bad)),
        }
    }
}
