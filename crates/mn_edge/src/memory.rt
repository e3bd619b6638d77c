// Devices in memory. Their calls are numbered from 1, of all methods together, and those of a list fail.
ghost use Rattle.std.specs.Prelude.{◌≡◌, ◌≢◌, ℕ, ◌≤◌, ◌<◌, ◌++◌, ◌||◌, [], Err, None, Some, length, min, take, drop, if◌then◌else◌, is_ok, IsTrue, IfOk, IfSome, OnOk, OnErr, option_copied};
ghost use Rattle.std.specs.Option.{ForSome, option_map};
ghost use Rattle.std.specs.Result.{result_err};
ghost use Rattle.std.proofs.Common.{sym};
ghost use Rattle.std.proofs.lemmas.Option.{none-some};
ghost use Rattle.mn_edge.specs.declared.device.DeviceBad.TheVariants.{NoMemory};
ghost use Rattle.mn_edge.specs.Faults.{Counted, CountedUnless};
ghost use Rattle.mn_edge.specs.Files.{Absent, Fetched, Grows, MayBegin, MayGrow, file, with_file};
ghost use Rattle.mn_edge.specs.Memory.{FailsBy, all_differ, counted_by, extended, files_of, is_due, kept, lacks, names_of, next_call};

use crate::named::NamedFiles;
use crate::{DeviceBad, Shelf, Sink};
use std::alloc::Global;
use std::marker::Model;

/// Files in memory.
#[derive(Drop)]
pub struct MemShelf {
    alloc: Global,
    files: NamedFiles,
    failing: Vec<u64>,
    calls: u64,
    read_faults: u64,
    write_faults: u64,
    refusal: Option<DeviceBad>,
}

impl Model for MemShelf {
    ghost use Rattle.mn_edge.specs.Memory.{ShelfState, shelf_code};

    ghost Value = { ShelfState };

    ghost coded = { shelf_code };

    ghost view = { λ s. record {
      files = s.files;
      failing = s.failing.items;
      calls = s.calls;
      read_faults = s.read_faults;
      write_faults = s.write_faults;
      refusal = s.refusal;
    } };
}

impl MemShelf {
    /// A shelf with these files, at which the calls of these numbers fail.
    pub fn new(alloc: Global, files: Vec<(String, Vec<u8>)>, failing: Vec<u64>) -> MemShelf
        requires { IsTrue (all_differ (names_of files.items)) }
        ensures { result ≡ record {
          files = files_of files.items;
          failing = failing.items;
          calls = 0;
          read_faults = 0;
          write_faults = 0;
          refusal = None;
        } }
    {
        MemShelf {
            alloc,
            files: NamedFiles::new(files),
            failing,
            calls: 0,
            read_faults: 0,
            write_faults: 0,
            refusal: None,
        }
    }

    /// The bytes of the file of this name, if it is there.
    pub fn file(&self, name: &str) -> Option<&[u8]>
        ensures { option_copied result ≡ file self.now.files name.now }
    {
        self.files.get(name)
    }

    /// The calls so far, of all methods together, up to 2^64 - 1.
    pub fn calls(&self) -> u64
        ensures { result ≡ self.now.calls }
    {
        self.calls
    }
}

/// Puts the bytes from a place on at the front of the buffer.
fn copy_front(bytes: &[u8], at: u64, buf: &mut [u8]) -> usize
    ensures room { result ≤ length buf.new }
    ensures front { take result buf.new ≡ take result (drop at bytes.now) }
    ensures within { result ≤ length (drop at bytes.now) }
    ensures none { 0 < length buf.new → result ≡ 0 → length bytes.now ≤ at }
    ensures all { result ≡ min (length (drop at bytes.now)) (length buf.old) }
{
    if at >= bytes.len() as u64 {
        return 0;
    }
    let rest = &bytes[at as usize..];
    let count = rest.len().min(buf.len());
    buf[..count].copy_from_slice(&rest[..count]);
    count
}

impl Shelf for MemShelf {
    ghost files = { λ s. Some s.files };

    ghost read_faults = { λ s. counted_by s.failing s.read_faults };

    ghost write_faults = { λ s. counted_by s.failing s.write_faults };

    ghost calls = { λ s. Some s.calls };

    ghost refusal = { λ s. s.refusal };

    fn fetch(&mut self, name: &str, at: u64, buf: &mut [u8]) -> Result<usize, DeviceBad>
        ensures room { IfOk result (λ n. n ≤ length buf.new) }
        ensures content { IfOk result (λ n.
            ForSome (Some self.old.files) (λ m. Fetched m name.now at n buf.new)) }
        ensures same { Some self.new.files ≡ Some self.old.files }
        ensures silent { Some self.old.files ≡ None → Some self.new.files ≡ None }
        ensures reads { CountedUnless (Absent (Some self.old.files) name.now)
            (counted_by self.old.failing self.old.read_faults)
            (counted_by self.new.failing self.new.read_faults) result }
        ensures writes { counted_by self.new.failing self.new.write_faults
            ≡ counted_by self.old.failing self.old.write_faults }
        ensures calls { Some self.new.calls ≡ option_map next_call (Some self.old.calls) }
        ensures last { self.new.refusal ≡ result_err result }

        // What this shelf says besides: a fetch gives all that the buffer takes, and which calls fail.
        ensures all { IfOk result (λ n. IfSome (file self.old.files name.now) (λ bytes. n ≡ min (length (drop at bytes)) (length buf.old))) }
        ensures exact { FailsBy
            (is_due self.old.failing self.old.calls || lacks self.old.files name.now) result }
        ensures free { result ≢ Err NoMemory }
        ensures counted { self.new.calls ≡ next_call self.old.calls }
        ensures failing { self.new.failing ≡ self.old.failing }
    {
        self.calls = self.calls.saturating_add(1);
        self.refusal = None;
        if !self.failing.contains(&self.calls)
            && let Some(bytes) = self.files.get(name)
        {
            return Ok(copy_front(bytes, at, buf));
        }
        self.read_faults = self.read_faults.saturating_add(1);
        self.refusal = Some(DeviceBad::Failed);
        Err(DeviceBad::Failed)
    }

    fn begin(&mut self, name: &str) -> Result<(), DeviceBad>
        ensures made { OnOk result (ForSome (Some self.old.files) (λ m.
            Some self.new.files ≡ Some (with_file m name.now []))) }
        ensures refused { OnErr result (ForSome (Some self.old.files) (λ m.
            MayBegin m name.now (Some self.new.files))) }
        ensures silent { Some self.old.files ≡ None → Some self.new.files ≡ None }
        ensures writes { Counted
            (counted_by self.old.failing self.old.write_faults)
            (counted_by self.new.failing self.new.write_faults) result }
        ensures reads { counted_by self.new.failing self.new.read_faults
            ≡ counted_by self.old.failing self.old.read_faults }
        ensures calls { Some self.new.calls ≡ option_map next_call (Some self.old.calls) }
        ensures last { self.new.refusal ≡ result_err result }

        // What this shelf says besides: which calls fail, and that such a call changes no file.
        ensures exact { FailsBy (is_due self.old.failing self.old.calls) result }
        ensures files { self.new.files ≡
            (if is_ok result then with_file self.old.files name.now [] else self.old.files) }
        ensures counted { self.new.calls ≡ next_call self.old.calls }
        ensures failing { self.new.failing ≡ self.old.failing }
    {
        self.calls = self.calls.saturating_add(1);
        self.refusal = None;
        if self.failing.contains(&self.calls) {
            self.write_faults = self.write_faults.saturating_add(1);
            self.refusal = Some(DeviceBad::Failed);
            return Err(DeviceBad::Failed);
        }
        if self.files.make_empty(self.alloc, name).is_err() {
            self.refusal = Some(DeviceBad::NoMemory);
            return Err(DeviceBad::NoMemory);
        }
        Ok(())
    }

    fn append(&mut self, name: &str, piece: &[u8]) -> Result<(), DeviceBad>
        ensures grown { OnOk result (ForSome (Some self.old.files) (λ m.
            Grows m name.now piece.now (Some self.new.files))) }
        ensures refused { OnErr result (ForSome (Some self.old.files) (λ m.
            MayGrow m name.now piece.now (Some self.new.files))) }
        ensures silent { Some self.old.files ≡ None → Some self.new.files ≡ None }
        ensures writes { CountedUnless (Absent (Some self.old.files) name.now)
            (counted_by self.old.failing self.old.write_faults)
            (counted_by self.new.failing self.new.write_faults) result }
        ensures reads { counted_by self.new.failing self.new.read_faults
            ≡ counted_by self.old.failing self.old.read_faults }
        ensures calls { Some self.new.calls ≡ option_map next_call (Some self.old.calls) }
        ensures last { self.new.refusal ≡ result_err result }

        // What this shelf says besides: which calls fail, and that such a call keeps half of its piece.
        ensures exact { FailsBy
            (is_due self.old.failing self.old.calls || lacks self.old.files name.now) result }
        ensures files { self.new.files ≡ extended self.old.files name.now (kept piece.now result) }
        ensures counted { self.new.calls ≡ next_call self.old.calls }
        ensures failing { self.new.failing ≡ self.old.failing }
    {
        self.calls = self.calls.saturating_add(1);
        self.refusal = None;
        if self.files.get(name).is_none() {
            self.write_faults = self.write_faults.saturating_add(1);
            self.refusal = Some(DeviceBad::Failed);
            return Err(DeviceBad::Failed);
        }
        if self.failing.contains(&self.calls) {
            if self.files.extend(name, &piece[..piece.len() / 2]).is_err() {
                self.refusal = Some(DeviceBad::NoMemory);
                return Err(DeviceBad::NoMemory);
            }
            self.write_faults = self.write_faults.saturating_add(1);
            self.refusal = Some(DeviceBad::Failed);
            return Err(DeviceBad::Failed);
        }
        if self.files.extend(name, piece).is_err() {
            self.refusal = Some(DeviceBad::NoMemory);
            return Err(DeviceBad::NoMemory);
        }
        Ok(())
    }

    ghost told = { λ shelf none. absurd (none-some _ (sym none)) };
}

/// Bytes in memory.
#[derive(Drop)]
pub struct MemSink {
    bytes: Vec<u8>,
    failing: Vec<u64>,
    calls: u64,
    faults: u64,
    refusal: Option<DeviceBad>,
}

impl Model for MemSink {
    ghost use Rattle.mn_edge.specs.Memory.{SinkState};

    ghost Value = { SinkState };

    ghost view = { λ s. record {
      bytes = s.bytes.items;
      failing = s.failing.items;
      calls = s.calls;
      faults = s.faults;
      refusal = s.refusal;
    } };
}

impl MemSink {
    /// An empty sink, at which the calls of these numbers fail.
    pub fn new(alloc: Global, failing: Vec<u64>) -> MemSink
        ensures { result ≡ record {
          bytes = [];
          failing = failing.items;
          calls = 0;
          faults = 0;
          refusal = None;
        } }
    {
        MemSink {
            bytes: Vec::new(alloc),
            failing,
            calls: 0,
            faults: 0,
            refusal: None,
        }
    }

    /// All that was put.
    pub fn bytes(&self) -> &[u8]
        ensures { result.now ≡ self.now.bytes }
    {
        &self.bytes
    }
}

impl Sink for MemSink {
    ghost written = { λ s. Some s.bytes };

    ghost faults = { λ s. counted_by s.failing s.faults };

    ghost refusal = { λ s. s.refusal };

    fn put(&mut self, piece: &[u8]) -> Result<(), DeviceBad>
        ensures put { OnOk result (ForSome (Some self.old.bytes) (λ t.
            Some self.new.bytes ≡ Some (t ++ piece.now))) }
        ensures refused { OnErr result (ForSome (Some self.old.bytes) (λ t.
            (n : ℕ) × (Some self.new.bytes ≡ Some (t ++ take n piece.now)))) }
        ensures cause { Counted
            (counted_by self.old.failing self.old.faults)
            (counted_by self.new.failing self.new.faults) result }
        ensures last { self.new.refusal ≡ result_err result }

        // What this sink says besides: which calls fail, and that such a call keeps half of its piece.
        ensures exact { FailsBy (is_due self.old.failing self.old.calls) result }
        ensures bytes { self.new.bytes ≡ self.old.bytes ++ kept piece.now result }
        ensures counted { self.new.calls ≡ next_call self.old.calls }
        ensures failing { self.new.failing ≡ self.old.failing }
    {
        self.calls = self.calls.saturating_add(1);
        self.refusal = None;
        if self.failing.contains(&self.calls) {
            if self
                .bytes
                .extend_from_slice(&piece[..piece.len() / 2])
                .is_err()
            {
                self.refusal = Some(DeviceBad::NoMemory);
                return Err(DeviceBad::NoMemory);
            }
            self.faults = self.faults.saturating_add(1);
            self.refusal = Some(DeviceBad::Failed);
            return Err(DeviceBad::Failed);
        }
        if self.bytes.extend_from_slice(piece).is_err() {
            self.refusal = Some(DeviceBad::NoMemory);
            return Err(DeviceBad::NoMemory);
        }
        Ok(())
    }
}
