// A capture that comes in pieces, followed from header to header.
ghost use Rattle.std.specs.Prelude.{◌≡◌, ◌+◌, ◌<◌, ◌≤◌, ◌^◌, ◌++◌, [], ℕ, List, length, take, IsTrue};
ghost use Rattle.mn_pcap.specs.Stages.{wants, listed};

use crate::head::Head;
use crate::message::{FILE_HEADER, Form, Place, RECORD_HEADER, SNAPLEN};
use crate::read::{read_header, read_u32};
use crate::refusal::{PcapBad, PcapRule, lasts};
use crate::stage::Stage;

/// How far a capture has come.
#[derive(Drop)]
pub(crate) struct Cursor {
    pub(crate) stage: Stage,
    /// What has come of the header at hand.
    pub(crate) head: Head,
    /// Where the header of the record at hand begins.
    pub(crate) at: u64,
    /// How many bytes have come.
    pub(crate) fed: u64,
    /// How many records are whole.
    pub(crate) whole: u64,
    ghost wanting: { IsTrue (wants stage (length head)) },
}

/// How much a step took, and the record that became whole by it.
#[derive(Clone, Copy)]
pub(crate) struct Step {
    pub(crate) taken: usize,
    pub(crate) place: Option<Place>,
}

impl Cursor {
    ghost use Rattle.mn_pcap.specs.Pieces.{EndsSo, Follows, IsInRecord, MovesOn};
    ghost use Rattle.mn_pcap.specs.declared.stage.Stage.TheVariants.{FileHeader, RecordHeader, Captured};

    pub(crate) fn new() -> Cursor
        ensures follows { Follows result [] [] }
        ensures fed { result.fed ≡ 0 }
    {
        Cursor {
            stage: Stage::FileHeader,
            head: Head::new(),
            at: 0,
            fed: 0,
            whole: 0,
        }
    }

    /// What the bytes so far are, taken as a whole file.
    pub(crate) fn end(&self) -> Result<Form, PcapBad>
        ensures { (bytes : List ℕ) (done : List Place) → Follows self.now bytes done → EndsSo result bytes done }
    {
        match self.stage {
            Stage::RecordHeader { form } if self.at == self.fed => Ok(form),
            Stage::Refused { bad } => Err(bad),
            _ => Err(PcapBad::Refused {
                rule: PcapRule::CutShort,
                place: self.at,
            }),
        }
    }

    /// Takes a first part of what comes.
    pub(crate) fn step(&mut self, rest: &[u8]) -> Step
        requires some { 0 < length rest.now }
        requires room { self.old.fed + length rest.now < 2 ^ 63 }
        ensures { MovesOn self.old self.new rest.now result }
    {
        match self.stage {
            Stage::FileHeader => self.file_header(rest),
            Stage::RecordHeader { form } => self.record_header(form, rest),
            Stage::Captured { form, place, left } => self.captured(form, place, left, rest),
            Stage::Refused { .. } => Step {
                taken: rest.len(),
                place: None,
            },
        }
    }

    fn file_header(&mut self, rest: &[u8]) -> Step
        requires stage { self.old.stage ≡ FileHeader }
        requires some { 0 < length rest.now }
        requires room { self.old.fed + length rest.now < 2 ^ 63 }
        ensures { MovesOn self.old self.new rest.now result }
    {
        let taken = self.head.fill(FILE_HEADER, rest);
        self.fed += taken as u64;
        match read_header(self.head.as_slice()) {
            Ok(form) => {
                self.head.clear();
                self.at = self.fed;
                self.stage = Stage::RecordHeader { form };
            }
            Err(bad) if lasts(bad) => self.stage = Stage::Refused { bad },
            Err(_) => {}
        }
        Step { taken, place: None }
    }

    fn record_header(&mut self, form: Form, rest: &[u8]) -> Step
        requires stage { self.old.stage ≡ RecordHeader form }
        requires some { 0 < length rest.now }
        requires room { self.old.fed + length rest.now < 2 ^ 63 }
        ensures { MovesOn self.old self.new rest.now result }
    {
        let taken = self.head.fill(RECORD_HEADER, rest);
        self.fed += taken as u64;
        let header = self.head.as_slice();
        if header.len() < RECORD_HEADER {
            return Step { taken, place: None };
        }
        let length = read_u32(form.big, &header[8..]);
        self.head.clear();
        if length > SNAPLEN {
            let (rule, place) = (PcapRule::BadRecord, self.at);
            let bad = PcapBad::Refused { rule, place };
            self.stage = Stage::Refused { bad };
            return Step { taken, place: None };
        }
        let at = self.fed;
        let place = self.go_on(form, Place { at, length }, length);
        Step { taken, place }
    }

    fn captured(&mut self, form: Form, place: Place, left: u32, rest: &[u8]) -> Step
        requires stage { self.old.stage ≡ Captured form place left }
        requires some { 0 < length rest.now }
        requires room { self.old.fed + length rest.now < 2 ^ 63 }
        ensures { MovesOn self.old self.new rest.now result }
    {
        let taken = rest.len().min(left as usize);
        self.fed += taken as u64;
        let place = self.go_on(form, place, left - taken as u32);
        Step { taken, place }
    }

    /// Behind a record's header, with so many bytes of it still to come.
    fn go_on(&mut self, form: Form, place: Place, left: u32) -> Option<Place>
        requires { self.old.fed < 2 ^ 63 }
        ensures fed { self.new.fed ≡ self.old.fed }
        ensures follows { (bytes : List ℕ) (done : List Place) →
            IsInRecord form bytes done self.old.at place left → self.old.fed ≡ length bytes → self.old.whole ≡ length done →
            Follows self.new bytes (done ++ listed result) }
    {
        if left > 0 {
            self.stage = Stage::Captured { form, place, left };
            return None;
        }
        // Each record takes 16 bytes at least, so there are fewer than 2^63.
        self.whole = self.whole.saturating_add(1);
        self.head.clear();
        self.at = self.fed;
        self.stage = Stage::RecordHeader { form };
        Some(place)
    }
}
