//! The files that are open.
ghost use Rattle.std.specs.Prelude.{◌≡◌, ◌≤◌, ◌<◌, ℕ, List, [], None, Some, length, slice_get, string_bytes, vec_len, IfOk, IfSome, IsSomeAnd, IsTrue, OnOk, OnErr};
ghost use Rattle.std.specs.Option.{ForSome};
ghost use Rattle.mn_edge.specs.Files.{Fetched, Grows, MayBegin, MayGrow, with_file};
ghost use Rattle.mn_edge_real.specs.Opened.{IsOpen};
ghost use Rattle.mn_edge_real.specs.declared.disk.Mode.{Mode};

use crate::disk::{Disk, Mode};
use std::alloc::Global;
use std::io;
use std::io::{Error, ErrorKind};

/// The most files that are open at a time.
const MOST: usize = 64;

/// A file that is open.
#[derive(Drop)]
struct OpenFile<D: Disk> {
    name: String,
    mode: Mode,
    handle: D::Handle,
    /// Which use of a file was the last of this one.
    last_use: u64,
    ghost named: { IsOpen (D.opened handle) mode (string_bytes name) },
}

impl<D: Disk> OpenFile<D> {
    /// Whether it is of this name, and open for this.
    fn is_for(&self, name: &str, mode: Mode) -> bool
        ensures { IsTrue result → (string_bytes self.now.name ≡ name.now) × (self.now.mode ≡ mode) }
    {
        match (self.mode, mode) {
            (Mode::Read, Mode::Read) | (Mode::Append, Mode::Append) => self.name.as_str() == name,
            _ => false,
        }
    }
}

/// The files of a disk that were used last, at most 64 of them.
#[derive(Drop)]
pub(crate) struct OpenFiles<D: Disk + Drop> {
    alloc: Global,
    disk: D,
    files: Vec<OpenFile<D>>,
    /// How many times a file was used.
    uses: u64,
    pub ghost few: { vec_len files ≤ 64 },
}

/// Reads, again where a signal came in between.
fn read_piece<D: Disk>(disk: &mut D, file: &D::Handle, at: u64, buf: &mut [u8]) -> io::Result<usize>
    requires { (name : List ℕ) × IsOpen (D.opened file.now) Mode.Read name }
    ensures room { IfOk result (λ n. n ≤ length buf.new) }
    ensures content { (name : List ℕ) → IsOpen (D.opened file.now) Mode.Read name →
        IfOk result (λ n. ForSome (D.files disk.old) (λ m. Fetched m name at n buf.new)) }
    ensures same { D.files disk.new ≡ D.files disk.old }
{
    'tries: for _ in 0..u64::MAX {
        match disk.read_at(file, at, buf) {
            Err(error) if error.kind() == ErrorKind::Interrupted => {}
            answer => return answer,
        }
    }
    Err(Error::from(ErrorKind::TimedOut))
}

/// Writes the piece, again where a signal came in between. After an error a first part of it is written.
fn write_piece<D: Disk>(disk: &mut D, file: &D::Handle, piece: &[u8]) -> io::Result<()>
    requires { (name : List ℕ) × IsOpen (D.opened file.now) Mode.Append name }
    ensures grown { (name : List ℕ) → IsOpen (D.opened file.now) Mode.Append name →
        OnOk result (ForSome (D.files disk.old) (λ m. Grows m name piece.now (D.files disk.new))) }
    ensures refused { (name : List ℕ) → IsOpen (D.opened file.now) Mode.Append name →
        OnErr result (ForSome (D.files disk.old) (λ m. MayGrow m name piece.now (D.files disk.new))) }
    ensures silent { D.files disk.old ≡ None → D.files disk.new ≡ None }
{
    let mut done = 0;
    'tries: for _ in 0..u64::MAX {
        match disk.write(file, &piece[done..]) {
            Ok(count) if done + count == piece.len() => return Ok(()),
            Ok(0) => return Err(Error::from(ErrorKind::WriteZero)),
            Ok(count) => done += count,
            Err(error) if error.kind() == ErrorKind::Interrupted => {}
            Err(error) => return Err(error),
        }
    }
    Err(Error::from(ErrorKind::TimedOut))
}

impl<D: Disk + Drop> OpenFiles<D> {
    /// None is open.
    pub(crate) fn new(alloc: Global, disk: D) -> OpenFiles<D>
        ensures { result.disk ≡ disk }
    {
        OpenFiles {
            alloc,
            disk,
            files: Vec::new(alloc),
            uses: 0,
        }
    }

    pub(crate) fn len(&self) -> usize
        ensures { result ≤ 64 }
    {
        self.files.len()
    }

    /// Reads bytes of the file from a place on: none only at its end.
    pub(crate) fn read_at(&mut self, name: &str, at: u64, buf: &mut [u8]) -> io::Result<usize>
        ensures room { IfOk result (λ n. n ≤ length buf.new) }
        ensures content { IfOk result (λ n. ForSome (D.files self.old.disk) (λ m. Fetched m name.now at n buf.new)) }
        ensures same { D.files self.new.disk ≡ D.files self.old.disk }
    {
        let place = self.place(name, Mode::Read)?;
        read_piece(&mut self.disk, &self.files[place].handle, at, buf)
    }

    /// Puts the piece behind the file's bytes. After a refusal a first part of it may stand there.
    pub(crate) fn append(&mut self, name: &str, piece: &[u8]) -> io::Result<()>
        ensures grown { OnOk result (ForSome (D.files self.old.disk) (λ m. Grows m name.now piece.now (D.files self.new.disk))) }
        ensures refused { OnErr result (ForSome (D.files self.old.disk) (λ m. MayGrow m name.now piece.now (D.files self.new.disk))) }
        ensures silent { D.files self.old.disk ≡ None → D.files self.new.disk ≡ None }
    {
        let place = self.place(name, Mode::Append)?;
        write_piece(&mut self.disk, &self.files[place].handle, piece)
    }

    /// Makes the file, or empties it. After a refusal it is as it was, or empty.
    pub(crate) fn begin(&mut self, name: &str) -> io::Result<()>
        ensures made { OnOk result (ForSome (D.files self.old.disk) (λ m. D.files self.new.disk ≡ Some (with_file m name.now []))) }
        ensures refused { OnErr result (ForSome (D.files self.old.disk) (λ m. MayBegin m name.now (D.files self.new.disk))) }
        ensures silent { D.files self.old.disk ≡ None → D.files self.new.disk ≡ None }
    {
        self.make_room(name);
        let handle = self.disk.create(name)?;
        self.keep(name, Mode::Append, handle)?;
        Ok(())
    }

    /// The place of the file, which is opened where it isn't open for this, and is now the last used.
    fn place(&mut self, name: &str, mode: Mode) -> io::Result<usize>
        ensures within { IfOk result (λ place. place < vec_len self.new.files) }
        ensures there { IfOk result (λ place. IsSomeAnd (slice_get self.new.files.items place)
            (λ file. (string_bytes file.name ≡ name.now) × (file.mode ≡ mode))) }
        ensures same { D.files self.new.disk ≡ D.files self.old.disk }
    {
        match self.place_of(name, mode) {
            Some(place) => {
                self.use_again(place);
                Ok(place)
            }
            None => self.open(name, mode),
        }
    }

    /// The place of the file that is open for this.
    fn place_of(&self, name: &str, mode: Mode) -> Option<usize>
        ensures within { IfSome result (λ place. place < vec_len self.now.files) }
        ensures there { IfSome result (λ place. IsSomeAnd (slice_get self.now.files.items place)
            (λ file. (string_bytes file.name ≡ name.now) × (file.mode ≡ mode))) }
    {
        for (place, file) in self.files.iter().enumerate() {
            if file.is_for(name, mode) {
                return Some(place);
            }
        }
        None
    }

    /// The file is now the last used.
    fn use_again(&mut self, place: usize)
        requires { place < vec_len self.old.files }
        ensures len { vec_len self.new.files ≡ vec_len self.old.files }
        ensures there { (name : List ℕ) (mode : Mode) →
            IsSomeAnd (slice_get self.old.files.items place) (λ file. (string_bytes file.name ≡ name) × (file.mode ≡ mode)) →
            IsSomeAnd (slice_get self.new.files.items place) (λ file. (string_bytes file.name ≡ name) × (file.mode ≡ mode)) }
        ensures same { self.new.disk ≡ self.old.disk }
    {
        self.uses = self.uses.saturating_add(1);
        self.files[place].last_use = self.uses;
    }

    /// Opens the file for this, and answers its place.
    fn open(&mut self, name: &str, mode: Mode) -> io::Result<usize>
        ensures within { IfOk result (λ place. place < vec_len self.new.files) }
        ensures there { IfOk result (λ place. IsSomeAnd (slice_get self.new.files.items place)
            (λ file. (string_bytes file.name ≡ name.now) × (file.mode ≡ mode))) }
        ensures same { D.files self.new.disk ≡ D.files self.old.disk }
    {
        self.make_room(name);
        let handle = self.disk.open(name, mode)?;
        self.keep(name, mode, handle)
    }

    /// Closes the file of this name, and where as many are open as may be the one that was not used for longest.
    fn make_room(&mut self, name: &str)
        ensures room { vec_len self.new.files < 64 }
        ensures same { self.new.disk ≡ self.old.disk }
    {
        self.files.retain(|file| file.name.as_str() != name);
        if self.files.len() >= MOST {
            let place = self.longest_unused();
            let _ = self.files.swap_remove(place);
        }
    }

    /// The place of the file that was not used for longest.
    fn longest_unused(&self) -> usize
        requires { 0 < vec_len self.now.files }
        ensures { result < vec_len self.now.files }
    {
        let mut longest = 0;
        'places: for place in 1..self.files.len() {
            if self.files[place].last_use < self.files[longest].last_use {
                longest = place;
            }
        }
        longest
    }

    /// Keeps the file, and answers its place.
    fn keep(&mut self, name: &str, mode: Mode, handle: D::Handle) -> io::Result<usize>
        requires room { vec_len self.old.files < 64 }
        requires named { IsOpen (D.opened handle) mode name.now }
        ensures within { IfOk result (λ place. place < vec_len self.new.files) }
        ensures there { IfOk result (λ place. IsSomeAnd (slice_get self.new.files.items place)
            (λ file. (string_bytes file.name ≡ name.now) × (file.mode ≡ mode))) }
        ensures same { self.new.disk ≡ self.old.disk }
    {
        self.uses = self.uses.saturating_add(1);
        let place = self.files.len();
        let name = String::from_str(self.alloc, name)?;
        let last_use = self.uses;
        self.files.push(OpenFile {
            name,
            mode,
            handle,
            last_use,
        })?;
        Ok(place)
    }
}
