// A capture that comes in pieces, read.
ghost use Rattle.std.specs.Prelude.{◌≡◌, ◌≤◌, All, IfOk, ◌+◌, ◌<◌, ◌^◌, ◌++◌, [], ℕ, List, Some, Err, length, true, false};
ghost use Rattle.mn_pcap.specs.Reading.{count_of, end_of, records_of};
ghost use Rattle.mn_pcap.specs.Stages.{listed};
ghost use Rattle.mn_pcap.specs.declared.refusal.PcapBad.{PcapBad};
ghost use Rattle.mn_pcap.specs.declared.refusal.PcapBad.TheVariants.{NoMemory};

use crate::cursor::Cursor;
use crate::message::{Form, Place};
use crate::refusal::PcapBad;
use crate::stage::Stage;
use std::alloc::Global;

/// Fewer bytes than these are taken in all.
const MOST: u64 = 1 << 63;

/// Reads a capture that comes in pieces, and keeps only the places of its records.
///
/// A contract speaks of the bytes that it was fed (`IsFed`), all pieces joined, and of whether a feed
/// ran out of memory (`is_lost`).
#[derive(Drop)]
pub struct Scan {
    cursor: Cursor,
    places: Vec<Place>,
    /// Whether a place wasn't kept because memory ran out.
    lost: bool,
}

impl Scan {
    ghost use Rattle.mn_pcap.specs.Scans.{IsFed, is_lost, is_no_memory, standing, lasting, Tells, Finds};

    /// Nothing has come.
    pub fn new(alloc: Global) -> Scan
        ensures fed { IsFed result [] }
        ensures kept { is_lost result ≡ false }
    {
        Scan {
            cursor: Cursor::new(),
            places: Vec::new(alloc),
            lost: false,
        }
    }

    /// Takes the next piece, and refuses what no further piece mends: of the bytes so far, taken as a
    /// whole file, each refusal of `records` but `CutShort`. `NoMemory` comes where memory runs out, and
    /// where the bytes reach 2^63. After either, each later answer is the same.
    pub fn feed(&mut self, piece: &[u8]) -> Result<(), PcapBad>
        ensures fed { (bytes : List ℕ) → IsFed self.old bytes → IsFed self.new (bytes ++ piece.now) }
        ensures told { (bytes : List ℕ) → IsFed self.old bytes → is_lost self.old ≡ false →
            length bytes + length piece.now < 2 ^ 63 → Tells result (lasting (records_of (bytes ++ piece.now))) }
        ensures again { (bytes : List ℕ) (bad : PcapBad) → IsFed self.old bytes → is_lost self.old ≡ false →
            lasting (records_of bytes) ≡ Some bad → result ≡ Err bad }
        ensures memory { is_lost self.new ≡ is_no_memory result }
        ensures lost { is_lost self.old ≡ true → result ≡ Err NoMemory }
    {
        self.standing()?;
        if self.cursor.fed.saturating_add(piece.len() as u64) >= MOST {
            self.lost = true;
            return Err(PcapBad::NoMemory);
        }
        let mut rest = piece;
        'pieces: while !rest.is_empty() {
            let step = self.cursor.step(rest);
            self.keep(step.place);
            rest = &rest[step.taken..];
        }
        self.standing()
    }

    /// Keeps the place of a record that became whole, unless memory is wanting.
    fn keep(&mut self, place: Option<Place>)
        ensures cursor { self.new.cursor ≡ self.old.cursor }
        ensures kept { self.new.lost ≡ false →
            (self.old.lost ≡ false) × (self.new.places.items ≡ self.old.places.items ++ listed place) }
    {
        if let Some(place) = place
            && !self.lost
        {
            self.lost = self.places.push(place).is_err();
        }
    }

    /// The answer that is settled, whatever comes.
    fn standing(&self) -> Result<(), PcapBad>
        ensures { result ≡ standing self.now }
    {
        match self.cursor.stage {
            Stage::Refused { bad } => Err(bad),
            _ if self.lost => Err(PcapBad::NoMemory),
            _ => Ok(()),
        }
    }

    /// How many whole records have come.
    pub fn count(&self) -> u64
        ensures { (bytes : List ℕ) → IsFed self.now bytes → is_lost self.now ≡ false → result ≡ count_of bytes }
    {
        self.cursor.whole
    }

    /// The form of the capture and the places of its records, as `read_header` and `records` answer
    /// for all pieces joined.
    pub fn finish(self) -> Result<(Form, Vec<Place>), PcapBad>
        ensures found { (bytes : List ℕ) → IsFed self bytes → is_lost self ≡ false → Finds result bytes }
        ensures within { (bytes : List ℕ) → IsFed self bytes → is_lost self ≡ false →
            IfOk result (λ found. All (λ place. end_of place ≤ length bytes) found.1.items) }
        ensures lost { is_lost self ≡ true → result ≡ Err NoMemory }
    {
        self.standing()?;
        let form = self.cursor.end()?;
        Ok((form, self.places))
    }
}
