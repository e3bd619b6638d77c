//! Files by name.
ghost use Rattle.std.specs.Prelude.{◌≡◌, ◌+◌, ◌^◌, ◌-◌, ◌≤◌, ◌<◌, [], None, Some, max, min, length, refl, option_copied, IfOk, IsSomeAnd, OnOk, OnErr};
ghost use Rattle.std.specs.Option.{ForSome, option_map};
ghost use Rattle.std.specs.Result.{result_err};
ghost use Rattle.mn_edge.specs.Faults.{Counted, CountedUnless};
ghost use Rattle.mn_edge.specs.Files.{Absent, Fetched, Grows, MayBegin, MayGrow, with_file};
ghost use Rattle.mn_edge.specs.Memory.{next_call};
ghost use Rattle.mn_edge_real.specs.Failures.{Blames};
ghost use Rattle.mn_edge_real.specs.Ends.{end_of};
ghost use Rattle.mn_edge_real.specs.Reached.{IsKept};

use crate::disk::{Disk, HostDisk};
use crate::fault::{Call, Failure, counted};
use crate::open_files::OpenFiles;
use crate::reads::Reads;
use mn_edge::{DeviceBad, Shelf};
use std::alloc::Global;
use std::io;
use std::io::{Error, ErrorKind};

/// Files by name on a disk, at most 64 of them open at a time. It tells of them what the disk tells.
#[derive(Drop)]
pub struct DiskShelf<D: Disk + Drop> {
    alloc: Global,
    opened: OpenFiles<D>,
    reads: Reads,
    failure: Option<Failure>,
    read_faults: u64,
    write_faults: u64,
    refusal: Option<DeviceBad>,
    pub ghost kept: { IsKept (D.files opened.disk) reads.last },
}

/// Files by name on the system's disk: nothing is told of them.
pub type HostShelf<'a> = DiskShelf<HostDisk<'a>>;

impl<'a> DiskShelf<HostDisk<'a>> {
    pub fn new(rt: &'a HostRuntime) -> DiskShelf<HostDisk<'a>>
        ensures { result.failure ≡ None }
    {
        DiskShelf::over(rt.alloc(), HostDisk { rt })
    }
}

impl<D: Disk + Drop> DiskShelf<D> {
    /// A shelf over a disk. Nothing was read of it, and nothing has failed.
    pub fn over(alloc: Global, disk: D) -> DiskShelf<D>
        ensures disk { result.opened.disk ≡ disk }
        ensures failure { result.failure ≡ None }
        ensures faults { (result.read_faults ≡ 0) × (result.write_faults ≡ 0) }
        ensures refusal { result.refusal ≡ None }
    {
        DiskShelf {
            alloc,
            opened: OpenFiles::new(alloc, disk),
            reads: Reads::new(alloc),
            failure: None,
            read_faults: 0,
            write_faults: 0,
            refusal: None,
        }
    }

    /// How many files are open.
    pub fn open_files(&self) -> usize
        ensures { result ≤ 64 }
    {
        self.opened.len()
    }

    /// The call that failed last.
    pub fn failure(&self) -> Option<&Failure>
        ensures { option_copied result ≡ self.now.failure }
    {
        self.failure.as_ref()
    }

    /// Reads, and keeps how far the file was told of. One that ends before that has lost bytes, which is an error. The same
    /// read, asked for again, is answered by what it gave.
    fn read(&mut self, name: &str, at: u64, buf: &mut [u8]) -> io::Result<usize>
        ensures room { IfOk result (λ n. n ≤ length buf.new) }
        ensures content { IfOk result (λ n. ForSome (D.files self.old.opened.disk) (λ m. Fetched m name.now at n buf.new)) }
        ensures same { D.files self.new.opened.disk ≡ D.files self.old.opened.disk }
        ensures told { IfOk result (λ n. end_of self.new.reads name.now
            ≡ max (end_of self.old.reads name.now) (min (at + n) (2 ^ 64 - 1))) }
        ensures cut { IfOk result (λ n. n ≡ 0 → 0 < length buf.new → end_of self.old.reads name.now ≤ at) }
        ensures reads { self.new.read_faults ≡ self.old.read_faults }
        ensures writes { self.new.write_faults ≡ self.old.write_faults }
        ensures last { self.new.refusal ≡ self.old.refusal }
    {
        if self.reads.repeat(name, at, buf) {
            return Ok(buf.len());
        }
        let count = self.opened.read_at(name, at, buf)?;
        if count == 0 && !buf.is_empty() && at < self.reads.end(name) {
            return Err(Error::from(ErrorKind::UnexpectedEof));
        }
        self.reads.note(name, at, count, buf)?;
        Ok(count)
    }
}

impl<D: Disk + Drop> Shelf for DiskShelf<D> {
    ghost files = { λ s. D.files s.opened.disk };

    ghost read_faults = { λ s. Some s.read_faults };

    ghost write_faults = { λ s. Some s.write_faults };

    ghost calls = { λ s. None };

    ghost refusal = { λ s. s.refusal };

    fn fetch(&mut self, name: &str, at: u64, buf: &mut [u8]) -> Result<usize, DeviceBad>
        ensures room { IfOk result (λ n. n ≤ length buf.new) }
        ensures content { IfOk result (λ n.
            ForSome (D.files self.old.opened.disk) (λ m. Fetched m name.now at n buf.new)) }
        ensures same { D.files self.new.opened.disk ≡ D.files self.old.opened.disk }
        ensures silent { D.files self.old.opened.disk ≡ None → D.files self.new.opened.disk ≡ None }
        ensures reads { CountedUnless (Absent (D.files self.old.opened.disk) name.now)
            (Some self.old.read_faults) (Some self.new.read_faults) result }
        ensures writes { Some self.new.write_faults ≡ Some self.old.write_faults }
        ensures calls { None ≡ option_map next_call None }
        ensures last { self.new.refusal ≡ result_err result }

        // What this shelf says besides: a file that was told of further than this isn't at its end here, and what failed is kept.
        ensures told { IfOk result (λ n. end_of self.new.reads name.now
            ≡ max (end_of self.old.reads name.now) (min (at + n) (2 ^ 64 - 1))) }
        ensures cut { IfOk result (λ n. n ≡ 0 → 0 < length buf.new → end_of self.old.reads name.now ≤ at) }
        ensures blamed { OnErr result (IsSomeAnd self.new.failure (Blames Call.Read name.now)) }
    {
        self.refusal = None;
        match self.read(name, at, buf) {
            Ok(count) => Ok(count),
            Err(error) => {
                let bad = counted(&mut self.read_faults, &error);
                self.failure = Some(Failure::new(self.alloc, Call::Read, name, error));
                self.refusal = Some(bad);
                Err(bad)
            }
        }
    }

    fn begin(&mut self, name: &str) -> Result<(), DeviceBad>
        ensures made { OnOk result (
            ForSome (D.files self.old.opened.disk) (λ m. D.files self.new.opened.disk ≡ Some (with_file m name.now []))) }
        ensures refused { OnErr result (
            ForSome (D.files self.old.opened.disk) (λ m. MayBegin m name.now (D.files self.new.opened.disk))) }
        ensures silent { D.files self.old.opened.disk ≡ None → D.files self.new.opened.disk ≡ None }
        ensures writes { Counted (Some self.old.write_faults) (Some self.new.write_faults) result }
        ensures reads { Some self.new.read_faults ≡ Some self.old.read_faults }
        ensures calls { None ≡ option_map next_call None }
        ensures last { self.new.refusal ≡ result_err result }

        // What this shelf says besides: the file's end is wherever it now is, and what failed is kept.
        ensures told { end_of self.new.reads name.now ≡ 0 }
        ensures blamed { OnErr result (IsSomeAnd self.new.failure (Blames Call.Begin name.now)) }
    {
        self.refusal = None;
        self.reads.forget(name);
        match self.opened.begin(name) {
            Ok(()) => Ok(()),
            Err(error) => {
                let bad = counted(&mut self.write_faults, &error);
                self.failure = Some(Failure::new(self.alloc, Call::Begin, name, error));
                self.refusal = Some(bad);
                Err(bad)
            }
        }
    }

    fn append(&mut self, name: &str, piece: &[u8]) -> Result<(), DeviceBad>
        ensures grown { OnOk result (
            ForSome (D.files self.old.opened.disk) (λ m. Grows m name.now piece.now (D.files self.new.opened.disk))) }
        ensures refused { OnErr result (
            ForSome (D.files self.old.opened.disk) (λ m. MayGrow m name.now piece.now (D.files self.new.opened.disk))) }
        ensures silent { D.files self.old.opened.disk ≡ None → D.files self.new.opened.disk ≡ None }
        ensures writes { CountedUnless (Absent (D.files self.old.opened.disk) name.now)
            (Some self.old.write_faults) (Some self.new.write_faults) result }
        ensures reads { Some self.new.read_faults ≡ Some self.old.read_faults }
        ensures calls { None ≡ option_map next_call None }
        ensures last { self.new.refusal ≡ result_err result }

        // What this shelf says besides: what failed is kept.
        ensures blamed { OnErr result (IsSomeAnd self.new.failure (Blames Call.Append name.now)) }
    {
        self.refusal = None;
        match self.opened.append(name, piece) {
            Ok(()) => Ok(()),
            Err(error) => {
                let bad = counted(&mut self.write_faults, &error);
                self.failure = Some(Failure::new(self.alloc, Call::Append, name, error));
                self.refusal = Some(bad);
                Err(bad)
            }
        }
    }

    ghost told = { λ shelf none. (refl, refl) };
}
