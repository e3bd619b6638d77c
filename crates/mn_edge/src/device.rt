// The two devices, and how a call on one goes wrong.
ghost use Rattle.std.specs.Prelude.{◌≡◌, ◌≤◌, ◌++◌, [], List, ℕ, None, Option, Some, length, take, IfOk, IsSome, OnOk, OnErr};
ghost use Rattle.std.specs.Result.{result_err};
ghost use Rattle.std.specs.Option.{ForSome, option_map};
ghost use Rattle.mn_edge.specs.declared.device.DeviceBad.TheVariants.{NoMemory};
ghost use Rattle.mn_edge.specs.Faults.{Counted, CountedUnless};
ghost use Rattle.mn_edge.specs.Files.{Absent, Fetched, Files, Grows, MayBegin, MayGrow, with_file};
ghost use Rattle.mn_edge.specs.Memory.{next_call};

use std::alloc::{AllocError, AllocFailed};

/// Why a device did not do what was asked of it.
#[derive(Clone, Copy, Debug, PartialEq, Eq)]
pub enum DeviceBad {
    /// The device failed. Its count of such faults has risen, or it is sound, and the file isn't there.
    Failed,
    /// Memory ran out. Every count is as it was.
    NoMemory,
}

impl From<AllocError> for DeviceBad {
    ghost from_gives = { λ _ e. e ≡ NoMemory };

    fn from(_: AllocError) -> Self {
        DeviceBad::NoMemory
    }
}

impl<T: Drop> From<AllocFailed<T>> for DeviceBad {
    ghost from_gives = { λ _ e. e ≡ NoMemory };

    fn from(_: AllocFailed<T>) -> Self {
        DeviceBad::NoMemory
    }
}

/// Files by name. A shelf that tells nothing of them goes on so: each call says it by `silent`.
///
/// Each count of faults is none for a sound shelf, which fails by itself at no such call, and goes on so: there `Failed` comes
/// only where a file isn't there.
pub trait Shelf {
    ghost use Rattle.mn_edge.specs.declared.device.DeviceBad.{DeviceBad};

    /// The files and their bytes, where the shelf tells them.
    ghost files: { Self → Option Files };

    /// How often a fetch has failed, up to 2^64 - 1. None where it fails only for want of the file.
    ghost read_faults: { Self → Option ℕ };

    /// How often a begin or an append has failed, up to 2^64 - 1. None where an append fails only for want of the file, and no
    /// begin.
    ghost write_faults: { Self → Option ℕ };

    /// How many calls were made so far, up to 2^64 - 1, where the shelf tells it.
    ghost calls: { Self → Option ℕ };

    /// Why the last call was refused; none where it was done, and before the first.
    ghost refusal: { Self → Option DeviceBad };

    /// Puts bytes of the file, from byte `at` on, at the front of the buffer, and answers their number.
    /// There may be fewer than the buffer takes, but none only at the file's end. A file that isn't there is
    /// a fault. No file changes.
    fn fetch(&mut self, name: &str, at: u64, buf: &mut [u8]) -> Result<usize, DeviceBad>
        ensures room { IfOk result (λ n. n ≤ length buf.new) }
        ensures content { IfOk result (λ n.
            ForSome (files self.old) (λ m. Fetched m name.now at n buf.new)) }
        ensures same { files self.new ≡ files self.old }
        ensures silent { files self.old ≡ None → files self.new ≡ None }
        ensures reads { CountedUnless (Absent (files self.old) name.now)
            (read_faults self.old) (read_faults self.new) result }
        ensures writes { write_faults self.new ≡ write_faults self.old }
        ensures calls { calls self.new ≡ option_map next_call (calls self.old) }
        ensures last { refusal self.new ≡ result_err result };

    /// Makes the file, or empties it where it is there. After a refusal it is as it was, or empty. Other files
    /// stay.
    fn begin(&mut self, name: &str) -> Result<(), DeviceBad>
        ensures made { OnOk result (
            ForSome (files self.old) (λ m. files self.new ≡ Some (with_file m name.now []))) }
        ensures refused { OnErr result (
            ForSome (files self.old) (λ m. MayBegin m name.now (files self.new))) }
        ensures silent { files self.old ≡ None → files self.new ≡ None }
        ensures writes { Counted (write_faults self.old) (write_faults self.new) result }
        ensures reads { read_faults self.new ≡ read_faults self.old }
        ensures calls { calls self.new ≡ option_map next_call (calls self.old) }
        ensures last { refusal self.new ≡ result_err result };

    /// Puts a piece behind the file's bytes. A refusal may have put a first part of it there. A file that isn't
    /// there is a fault. Other files stay.
    fn append(&mut self, name: &str, piece: &[u8]) -> Result<(), DeviceBad>
        ensures grown { OnOk result (
            ForSome (files self.old) (λ m. Grows m name.now piece.now (files self.new))) }
        ensures refused { OnErr result (
            ForSome (files self.old) (λ m. MayGrow m name.now piece.now (files self.new))) }
        ensures silent { files self.old ≡ None → files self.new ≡ None }
        ensures writes { CountedUnless (Absent (files self.old) name.now)
            (write_faults self.old) (write_faults self.new) result }
        ensures reads { read_faults self.new ≡ read_faults self.old }
        ensures calls { calls self.new ≡ option_map next_call (calls self.old) }
        ensures last { refusal self.new ≡ result_err result };

    /// A sound shelf tells its files.
    ghost told: { (shelf : Self) → files shelf ≡ None →
        IsSome (read_faults shelf) × IsSome (write_faults shelf) };
}

/// Where bytes go in order, as standard output.
pub trait Sink {
    ghost use Rattle.mn_edge.specs.declared.device.DeviceBad.{DeviceBad};

    /// All bytes that were put, where the sink tells them.
    ghost written: { Self → Option (List ℕ) };

    /// How often a put has failed, up to 2^64 - 1. None for a sound sink, which fails at no put, and goes on so.
    ghost faults: { Self → Option ℕ };

    /// Why the last call was refused; none where it was done, and before the first.
    ghost refusal: { Self → Option DeviceBad };

    /// Puts a piece behind all bytes so far. A refusal may have put a first part of it there.
    fn put(&mut self, piece: &[u8]) -> Result<(), DeviceBad>
        ensures put { OnOk result (
            ForSome (written self.old) (λ t. written self.new ≡ Some (t ++ piece.now))) }
        ensures refused { OnErr result (ForSome (written self.old) (λ t.
            (n : ℕ) × (written self.new ≡ Some (t ++ take n piece.now)))) }
        ensures cause { Counted (faults self.old) (faults self.new) result }
        ensures last { refusal self.new ≡ result_err result };
}
