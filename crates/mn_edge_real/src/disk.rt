//! A disk: files that are opened by name, made, read and written.
ghost use Rattle.std.specs.Prelude.{◌≡◌, ◌≤◌, [], List, ℕ, None, Option, Some, length, take, IfOk, OnOk, OnErr};
ghost use Rattle.std.specs.Option.{ForSome};
ghost use Rattle.mn_edge.specs.Files.{Fetched, Files, Grows, MayBegin, with_file};
ghost use Rattle.mn_edge_real.specs.Opened.{IsOpen};

use std::fs::{File, OpenOptions};
use std::io::Write;
use std::os::unix::fs::FileExt;
use std::{fs, io};

/// What a file is open for.
#[derive(Clone, Copy, Debug, PartialEq, Eq)]
pub enum Mode {
    Read,
    Append,
}

/// Files by name. A disk that tells nothing of them goes on so.
pub trait Disk {
    ghost use Rattle.mn_edge_real.specs.declared.disk.Mode.{Mode};

    /// A file that is open.
    type Handle: Drop;

    /// The files and their bytes, where the disk tells them.
    ghost files: { Self → Option Files };

    /// What a handle was opened for, and the name of its file, where the disk tells it.
    ghost opened: { Self.Handle → Option (Mode × List ℕ) };

    /// Opens a file that is there. No file changes.
    fn open(&mut self, name: &str, mode: Mode) -> io::Result<Self::Handle>
        ensures told { IfOk result (λ file. IsOpen (opened file) mode name.now) }
        ensures same { files self.new ≡ files self.old };

    /// Makes the file, or empties it where it is there, and opens it to be appended to. After a refusal it is as it was, or empty.
    /// Other files stay.
    fn create(&mut self, name: &str) -> io::Result<Self::Handle>
        ensures told { IfOk result (λ file. IsOpen (opened file) Mode.Append name.now) }
        ensures made { OnOk result (ForSome (files self.old) (λ m. files self.new ≡ Some (with_file m name.now []))) }
        ensures refused { OnErr result (ForSome (files self.old) (λ m. MayBegin m name.now (files self.new))) }
        ensures silent { files self.old ≡ None → files self.new ≡ None };

    /// Puts bytes of the file, from byte `at` on, at the front of the buffer, and answers their number. There may be fewer than the
    /// buffer takes, but none only at the file's end. No file changes.
    fn read_at(&mut self, file: &Self::Handle, at: u64, buf: &mut [u8]) -> io::Result<usize>
        requires { (name : List ℕ) × IsOpen (opened file.now) Mode.Read name }
        ensures room { IfOk result (λ n. n ≤ length buf.new) }
        ensures content { (name : List ℕ) → IsOpen (opened file.now) Mode.Read name →
            IfOk result (λ n. ForSome (files self.old) (λ m. Fetched m name at n buf.new)) }
        ensures same { files self.new ≡ files self.old };

    /// Puts a first part of the piece behind the file's bytes, and answers its length. Other files stay, and after a refusal all do.
    fn write(&mut self, file: &Self::Handle, piece: &[u8]) -> io::Result<usize>
        requires { (name : List ℕ) × IsOpen (opened file.now) Mode.Append name }
        ensures room { IfOk result (λ n. n ≤ length piece.now) }
        ensures grown { (name : List ℕ) → IsOpen (opened file.now) Mode.Append name →
            IfOk result (λ n. ForSome (files self.old) (λ m. Grows m name (take n piece.now) (files self.new))) }
        ensures refused { OnErr result (files self.new ≡ files self.old) }
        ensures silent { files self.old ≡ None → files self.new ≡ None };
}

/// The system's disk, which tells nothing of its files: each call is one of the system's.
#[derive(Drop)]
pub struct HostDisk<'a> {
    pub(crate) rt: &'a HostRuntime,
}

impl<'a> Disk for HostDisk<'a> {
    type Handle = File;

    ghost files = { λ _. None };

    ghost opened = { λ _. None };

    fn open(&mut self, name: &str, mode: Mode) -> io::Result<File> {
        match mode {
            Mode::Read => fs::open(self.rt, name),
            Mode::Append => OpenOptions::new().append(true).open(self.rt, name),
        }
    }

    fn create(&mut self, name: &str) -> io::Result<File> {
        fs::create(self.rt, name)
    }

    fn read_at(&mut self, file: &File, at: u64, buf: &mut [u8]) -> io::Result<usize> {
        file.read_at(buf, at)
    }

    fn write(&mut self, file: &File, piece: &[u8]) -> io::Result<usize> {
        let mut file = file;
        file.write(piece)
    }
}
