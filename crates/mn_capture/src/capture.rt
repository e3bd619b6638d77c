// A capture by places.
ghost use Rattle.std.specs.Prelude.{◌≡◌, ◌+◌, ◌-◌, ◌≤◌, ◌<◌, ◌^◌, Some, length, take, drop, slice_get, vec_len, IfErr, IfOk, OnOk};
ghost use Rattle.std.specs.Option.{ForSome};
ghost use Rattle.mn_edge.specs.Faults.{CountedUnless};
ghost use Rattle.mn_edge.specs.Files.{Absent, file};
ghost use Rattle.mn_pcap.specs.Reading.{packet_of};
ghost use Rattle.mn_capture.specs.Packets.{packets_in, place_at, records_in};

use mn_edge::{DeviceBad, Shelf};
use mn_pcap::{LinkKind, Place};
use std::marker::Model;

/// A capture: the name of its file, and where its records lie in it.
#[derive(Drop)]
pub struct Capture {
    pub(crate) name: String,
    pub(crate) link: LinkKind,
    pub(crate) places: Vec<Place>,
}

impl Model for Capture {
    ghost use Rattle.std.specs.Prelude.{All, ◌<◌, ◌^◌, string_bytes};
    ghost use Rattle.mn_pcap.specs.Reading.{end_of};
    ghost use Rattle.mn_capture.specs.Packets.{CaptureView};

    ghost Value = { CaptureView };

    ghost view = { λ c. record { name = string_bytes c.name; link = c.link; places = c.places.items } };

    ghost invariant = { λ c. All (λ place. end_of place < 2 ^ 64) c.places.items };
}

impl Capture {
    /// How many records it has.
    pub fn records(&self) -> usize
        ensures { result ≡ length self.now.places }
    {
        self.places.len()
    }

    /// What the bytes of each record begin with.
    pub fn link(&self) -> LinkKind
        ensures { result ≡ self.now.link }
    {
        self.link
    }

    /// Puts the bytes of the record of this number, from 1, into the buffer, in place of what it held.
    ///
    /// `mn_pcap::packet_of` of [`Capture::link`] and the buffer is then the record's packet. Where the file is
    /// shorter than it was, there are fewer bytes. After an error the buffer is of no use.
    pub fn fetch<S: Shelf>(
        &self,
        shelf: &mut S,
        nth: u32,
        bytes: &mut Vec<u8>,
    ) -> Result<(), DeviceBad>
        requires first { 1 ≤ nth }
        requires last { nth ≤ length self.now.places }
        ensures captured { OnOk result (ForSome (S.files shelf.old) (λ files.
            ForSome (file files self.now.name) (λ whole.
            slice_get (records_in self.now whole) (nth - 1) ≡ Some bytes.new.items))) }
        ensures packet { OnOk result (ForSome (S.files shelf.old) (λ files.
            ForSome (file files self.now.name) (λ whole.
            slice_get (packets_in self.now whole) (nth - 1) ≡ Some (packet_of self.now.link bytes.new.items)))) }
        ensures within { OnOk result (vec_len bytes.new ≤ (place_at self.now.places nth).length) }
        ensures same { S.files shelf.new ≡ S.files shelf.old }
        ensures reads { CountedUnless (Absent (S.files shelf.old) self.now.name)
            (S.read_faults shelf.old) (S.read_faults shelf.new) result }
        ensures writes { S.write_faults shelf.new ≡ S.write_faults shelf.old }
    {
        let place = self.places[nth as usize - 1];
        bytes.resize(place.length as usize, 0)?;
        let count = fill(shelf, self.name.as_str(), place.at, bytes)?;
        bytes.truncate(count);
        Ok(())
    }
}

/// Fills the buffer with the file's bytes from a place on, and answers how many came: fewer only at the
/// file's end.
fn fill<S: Shelf>(shelf: &mut S, name: &str, at: u64, buf: &mut [u8]) -> Result<usize, DeviceBad>
    requires { at + length buf.old < 2 ^ 64 }
    ensures room { IfOk result (λ n. n ≤ length buf.new) }
    ensures content { IfOk result (λ n. ForSome (S.files shelf.old) (λ files.
        ForSome (file files name.now) (λ whole. take n buf.new ≡ take (length buf.new) (drop at whole)))) }
    ensures same { S.files shelf.new ≡ S.files shelf.old }
    ensures reads { CountedUnless (Absent (S.files shelf.old) name.now)
        (S.read_faults shelf.old) (S.read_faults shelf.new) result }
    ensures writes { S.write_faults shelf.new ≡ S.write_faults shelf.old }
    ensures ends { IfErr result (λ e. S.refusal shelf.new ≡ Some e) }
{
    let mut count = 0;
    'pieces: while count < buf.len() {
        let more = shelf.fetch(name, at + count as u64, &mut buf[count..])?;
        if more == 0 {
            return Ok(count);
        }
        count += more;
    }
    Ok(count)
}
