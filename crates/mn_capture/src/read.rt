// A capture's file, read once.
ghost use Rattle.std.specs.Prelude.{◌≡◌, ℕ, List, [], Some, OnOk, IfOk, ◌++◌, ◌<◌, length, vec_len};
ghost use Rattle.std.specs.Option.{ForSome};
ghost use Rattle.mn_edge.specs.Faults.{CountedUnless};
ghost use Rattle.mn_edge.specs.Files.{Absent, file};
ghost use Rattle.mn_capture.specs.Scanning.{HasForm, IsOf, IsScanned};
ghost use Rattle.mn_capture.specs.Taking.{HasSome, HasTaken, IsTaken};

use crate::capture::Capture;
use mn_edge::{DeviceBad, Shelf};
use mn_pcap::{PcapBad, PcapRule, Scan};
use std::alloc::{AllocError, Global};

/// The most bytes of one fetch: 64 KiB.
const PIECE: usize = 65_536;

/// What scanning a file found, in the order in which it is tried.
#[derive(Drop)]
pub enum Scanned {
    /// The file has more bytes than the limit.
    TooLong,
    /// More whole records than the limit stand before its first refusal.
    TooMany,
    /// It is no capture: the first rule that is broken, and where, in bytes from 0.
    Refused { rule: PcapRule, place: u64 },
    /// It is a capture.
    Read(Capture),
}

/// Reads the file of this name, in pieces of at most 64 KiB, and keeps the places of its records.
///
/// Once there are more than `most_records` records, no more places are kept, and only the bytes are counted.
pub fn scan<S: Shelf>(
    alloc: Global,
    shelf: &mut S,
    name: &str,
    most_bytes: u64,
    most_records: u64,
) -> Result<Scanned, DeviceBad>
    ensures answer { IfOk result (λ s. ForSome (S.files shelf.old) (λ files.
        (bytes : List ℕ) × (file files name.now ≡ Some bytes) × IsScanned bytes most_bytes most_records s)) }
    ensures form { IfOk result (λ s. ForSome (S.files shelf.old) (λ files.
        ForSome (file files name.now) (λ bytes. HasForm bytes s))) }
    ensures of { IfOk result (IsOf name.now most_records) }
    ensures same { S.files shelf.new ≡ S.files shelf.old }
    ensures reads { CountedUnless (Absent (S.files shelf.old) name.now)
        (S.read_faults shelf.old) (S.read_faults shelf.new) result }
    ensures writes { S.write_faults shelf.new ≡ S.write_faults shelf.old }
{
    let mut piece = zeros(alloc, PIECE)?;
    let Some(scan) = taken(alloc, shelf, name, most_bytes, most_records, &mut piece)? else {
        return Ok(Scanned::TooLong);
    };
    if scan.count() > most_records {
        return Ok(Scanned::TooMany);
    }
    match scan.finish() {
        Ok((form, places)) => Ok(Scanned::Read(Capture {
            name: String::from_str(alloc, name)?,
            link: form.link,
            places,
        })),
        Err(PcapBad::Refused { rule, place }) => Ok(Scanned::Refused { rule, place }),
        Err(PcapBad::NoMemory) => Err(DeviceBad::NoMemory),
    }
}

/// A scan of the file's bytes, fetched into this buffer; none where there are too many of them.
fn taken<S: Shelf>(
    alloc: Global,
    shelf: &mut S,
    name: &str,
    most_bytes: u64,
    most_records: u64,
    piece: &mut [u8],
) -> Result<Option<Scan>, DeviceBad>
    requires { 0 < length piece.old }
    ensures told { IfOk result (λ t. ForSome (S.files shelf.old) (λ files.
        (bytes : List ℕ) × (file files name.now ≡ Some bytes) × IsTaken most_bytes most_records bytes t)) }
    ensures some { IfOk result (HasSome most_bytes most_records) }
    ensures same { S.files shelf.new ≡ S.files shelf.old }
    ensures reads { CountedUnless (Absent (S.files shelf.old) name.now)
        (S.read_faults shelf.old) (S.read_faults shelf.new) result }
    ensures writes { S.write_faults shelf.new ≡ S.write_faults shelf.old }
{
    let mut scan = Scan::new(alloc);
    let mut at = 0;
    'pieces: loop {
        let count = shelf.fetch(name, at, piece)?;
        if count == 0 {
            return Ok(Some(scan));
        }
        if count as u64 > most_bytes - at {
            return Ok(None);
        }
        feed(&mut scan, &piece[..count], most_records)?;
        at += count as u64;
    }
}

/// Feeds a piece, unless there are too many records already.
fn feed(scan: &mut Scan, piece: &[u8], most_records: u64) -> Result<(), AllocError>
    ensures { OnOk result ((bytes : List ℕ) →
        HasTaken most_records bytes scan.old → HasTaken most_records (bytes ++ piece.now) scan.new) }
{
    if scan.count() > most_records {
        return Ok(());
    }
    match scan.feed(piece) {
        Err(PcapBad::NoMemory) => Err(AllocError),
        Ok(()) | Err(PcapBad::Refused { .. }) => Ok(()),
    }
}

fn zeros(alloc: Global, count: usize) -> Result<Vec<u8>, AllocError>
    ensures { IfOk result (λ v. vec_len v ≡ count) }
{
    vec![in alloc; 0; count]
}
