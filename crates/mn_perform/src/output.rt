//! The files, by number, and what waits for them.
ghost use Rattle.std.specs.Prelude.{◌≡◌, ◌++◌, ◌<◌, ◌^◌, ℕ, List, [], true, length, replicate, IfOk, OnOk, OnErr, IsTrue};
ghost use Rattle.mn_perform.specs.Prelude.{CountedUnless, Files, BeginsOn, Framed, HoldsOn, Lacking, none_held, all_differ, texts, entry_fits, line_of, label_line, header, record_of, edge_places};
ghost use Rattle.mn_perform.specs.Adding.{Puts, Stays, only_in};
ghost use Rattle.mn_perform.specs.Parts.{file_for, IsFileOf};

use crate::capture_record::{CaptureRecord, record_header};
use crate::file_lines::{CaptureHeader, JournalLine, LabelLine};
use mn_base::NodeNo;
use mn_edge::{DeviceBad, Gather, Line, Shelf};
use mn_files::{EdgePlaces, find_frames, find_said, find_told, journal_file, labels_file};
use mn_labels::Given;
use mn_sched::Channel;
use mn_topo::{JournalEntry, Topology};
use std::alloc::{AllocError, Global};
use std::marker::Model;

/// The record of a packet of more bytes is put in pieces: a line that finds no room is taken back and copied, a piece is split.
const MOST_JOINED: usize = 2_048;

/// The files of a run.
#[derive(Drop)]
pub(crate) struct Output {
    names: Vec<String>,
    gather: Gather,
    places: EdgePlaces,
}

impl Model for Output {
    ghost use Rattle.std.specs.Prelude.{◌≡◌, length, IsTrue};
    ghost use Rattle.mn_edge.specs.Memory.{all_differ};
    ghost use Rattle.mn_edge.specs.Written.{texts};
    ghost use Rattle.mn_perform.specs.Recorded.{BooksNow};

    ghost Value = { BooksNow };

    ghost view = { λ o. record { names = texts o.names.items; held = o.gather; places = o.places } };

    ghost invariant = { λ o. (length o.names.items ≡ length o.gather) × IsTrue (all_differ (texts o.names.items)) };
}

impl Output {
    /// Nothing waits for any of these files.
    pub(crate) fn new(
        alloc: Global,
        names: Vec<String>,
        places: EdgePlaces,
    ) -> Result<Output, AllocError>
        requires differ { IsTrue (all_differ (texts names.items)) }
        requires few { length names.items < 2 ^ 32 }
        ensures { IfOk result (λ output. output ≡ record { names = texts names.items; held = replicate (length names.items) []; places = places }) }
    {
        Ok(Output {
            gather: Gather::new(alloc, names.len() as u32)?,
            names,
            places,
        })
    }

    /// The names of the files.
    pub(crate) fn names(&self) -> &[String]
        ensures { texts result.now ≡ self.now.names }
    {
        &self.names
    }

    /// The number of the file of a channel, if it has one.
    pub(crate) fn file_of(&self, topology: &Topology, channel: Channel) -> Option<u32>
        ensures { self.now.places ≡ edge_places topology.now → IsFileOf topology.now (file_for channel) result }
    {
        match channel {
            Channel::Notice(_, _) => None,
            Channel::Ldp(link, dir) => find_said(topology, link, dir),
            Channel::Bgp(edge, peer) => find_told(topology, &self.places, edge, peer),
            Channel::Frame(link, _) => find_frames(topology, link),
        }
    }

    /// A file grows by a piece, if it is one of these.
    pub(crate) fn put<S: Shelf>(
        &mut self,
        shelf: &mut S,
        file: u32,
        piece: &[u8],
    ) -> Result<(), DeviceBad>
        ensures puts { Puts (only_in file piece.now) self.old self.new (S.files shelf.old) (S.files shelf.new) result }
        ensures stays { Stays S.files S.write_faults S.read_faults self.old self.new shelf.old shelf.new result }
    {
        if file as usize >= self.names.len() {
            return Ok(());
        }
        self.gather.put(shelf, &self.names, file, piece)
    }

    /// The same by a line.
    #[inline(always)]
    fn put_line<S: Shelf, L: Line>(
        &mut self,
        shelf: &mut S,
        file: u32,
        line: &L,
    ) -> Result<(), DeviceBad>
        ensures puts { Puts (only_in file (L.text line.now)) self.old self.new (S.files shelf.old) (S.files shelf.new) result }
        ensures stays { Stays S.files S.write_faults S.read_faults self.old self.new shelf.old shelf.new result }
    {
        if file as usize >= self.names.len() {
            return Ok(());
        }
        self.gather.put_line(shelf, &self.names, file, line)
    }

    /// The journal grows by the line of an entry.
    #[inline(always)]
    pub(crate) fn put_entry<S: Shelf>(
        &mut self,
        shelf: &mut S,
        topology: &Topology,
        entry: &JournalEntry,
    ) -> Result<(), DeviceBad>
        requires { entry_fits topology.now entry.now ≡ true }
        ensures puts { Puts (only_in 0 (line_of topology.now entry.now)) self.old self.new (S.files shelf.old) (S.files shelf.new) result }
        ensures stays { Stays S.files S.write_faults S.read_faults self.old self.new shelf.old shelf.new result }
    {
        self.put_line(shelf, journal_file(), &JournalLine { topology, entry })
    }

    /// A capture begins with its header.
    pub(crate) fn put_header<S: Shelf>(
        &mut self,
        shelf: &mut S,
        file: u32,
        link: u32,
    ) -> Result<(), DeviceBad>
        ensures puts { Puts (only_in file (header link)) self.old self.new (S.files shelf.old) (S.files shelf.new) result }
        ensures stays { Stays S.files S.write_faults S.read_faults self.old self.new shelf.old shelf.new result }
    {
        self.put_line(shelf, file, &CaptureHeader { link })
    }

    /// The labels grow by the line of one that was given.
    pub(crate) fn put_label<S: Shelf>(
        &mut self,
        shelf: &mut S,
        topology: &Topology,
        node: NodeNo,
        giving: Given,
    ) -> Result<(), DeviceBad>
        ensures puts { Puts (only_in 1 (label_line topology.now node.0 giving)) self.old self.new (S.files shelf.old) (S.files shelf.new) result }
        ensures stays { Stays S.files S.write_faults S.read_faults self.old self.new shelf.old shelf.new result }
    {
        self.put_line(
            shelf,
            labels_file(),
            &LabelLine {
                topology,
                node,
                giving,
            },
        )
    }

    /// A capture grows by the record of a packet of two parts.
    #[inline(always)]
    pub(crate) fn put_record<S: Shelf>(
        &mut self,
        shelf: &mut S,
        file: u32,
        seen: &CaptureRecord<'_>,
    ) -> Result<(), DeviceBad>
        ensures puts { Puts (only_in file (record_of seen.now.tick (seen.now.front.now ++ seen.now.packet.now))) self.old self.new (S.files shelf.old) (S.files shelf.new) result }
        ensures stays { Stays S.files S.write_faults S.read_faults self.old self.new shelf.old shelf.new result }
    {
        if seen.packet.len() > MOST_JOINED {
            self.put_parts(shelf, file, seen)
        } else {
            self.put_line(shelf, file, seen)
        }
    }

    /// The same, in three pieces: none is taken back where there is no room for all of it.
    fn put_parts<S: Shelf>(
        &mut self,
        shelf: &mut S,
        file: u32,
        seen: &CaptureRecord<'_>,
    ) -> Result<(), DeviceBad>
        ensures puts { Puts (only_in file (record_of seen.now.tick (seen.now.front.now ++ seen.now.packet.now))) self.old self.new (S.files shelf.old) (S.files shelf.new) result }
        ensures stays { Stays S.files S.write_faults S.read_faults self.old self.new shelf.old shelf.new result }
    {
        let length = seen.front.len() + seen.packet.len();
        self.put(shelf, file, &record_header(seen.tick, length))?;
        self.put(shelf, file, seen.front)?;
        self.put(shelf, file, seen.packet)
    }

    /// Appends all that waits.
    pub(crate) fn end<S: Shelf>(&mut self, shelf: &mut S) -> Result<(), DeviceBad>
        ensures ended { self.new ≡ record self.old { held = none_held self.old.held } }
        ensures kept { OnOk result ((contents : ℕ → List ℕ) → HoldsOn self.old.names contents self.old.held (S.files shelf.old) →
            HoldsOn self.old.names contents self.new.held (S.files shelf.new)) }
        ensures part { OnErr result ((contents : ℕ → List ℕ) → HoldsOn self.old.names contents self.old.held (S.files shelf.old) →
            BeginsOn self.old.names contents (S.files shelf.new)) }
        ensures framed { Framed self.old.names (S.files shelf.old) (S.files shelf.new) }
        ensures writes { CountedUnless (Lacking self.old.names (S.files shelf.old))
            (S.write_faults shelf.old) (S.write_faults shelf.new) result }
        ensures reads { S.read_faults shelf.new ≡ S.read_faults shelf.old }
    {
        self.gather.end(shelf, &self.names)
    }
}
