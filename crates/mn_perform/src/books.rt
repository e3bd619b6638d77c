//! Files that are begun, and ended.
ghost use Rattle.std.specs.Prelude.{◌≡◌, ◌<◌, ◌++◌, ◌∷◌, ◌+◌, ℕ, List, [], IfOk, OnOk, OnErr, Some, false, length, map};
ghost use Rattle.std.specs.Option.{ForSome};
ghost use Rattle.std.specs.List.{flat_map, range_with_len};
ghost use Rattle.mn_ledger.specs.Prelude.{nodes_of, wiring_of, JournalEntry};
ghost use Rattle.mn_perform.specs.Prelude.{Counted, CountedUnless, Files, Framed, Lacking, named, laid, PartWritten, given, StandsFor, inputs_of, Frames, files_of, file_name, head_of, label_lines, ppp, header};
ghost use Rattle.mn_output_laws.specs.Contents.{output as run_output};
ghost use Rattle.mn_perform.specs.Recorded.{IsFor, IsFresh, Records, whole_at};
ghost use Rattle.mn_perform.specs.Adding.{Puts, Stays, only_in};
ghost use Rattle.mn_perform.specs.Heads.{frame_heads};
ghost use Rattle.mn_perform.specs.Parts.{by_number, in_file};

use crate::output::Output;
use mn_base::{LinkNo, NodeNo};
use mn_edge::{DeviceBad, Shelf, begin_all};
use mn_files::{EdgePlaces, deliveries_file, file_names, find_frames};
use mn_labels::Given;
use mn_sched::Net;
use mn_topo::Topology;
use std::alloc::{AllocError, Global};
use std::marker::Model;

/// Link type 228: a record is an IPv4 packet.
const RAW_IPV4: u32 = 228;

/// Link type 9: a record is a PPP frame.
const PPP: u32 = 9;

/// The files of a run, their names and what waits for them: 64 KiB at most, or 1 MiB over more than 64 files.
#[derive(Drop)]
pub struct Books {
    pub(crate) output: Output,
    /// The bytes of the record of the capture that was fetched last.
    pub(crate) fetched: Vec<u8>,
}

impl Model for Books {
    ghost use Rattle.mn_perform.specs.Recorded.{BooksNow};

    ghost Value = { BooksNow };

    ghost view = { λ b. b.output };
}

/// Puts the header of the capture of a link.
fn put_frame_head<S: Shelf>(
    topology: &Topology,
    link: LinkNo,
    shelf: &mut S,
    output: &mut Output,
) -> Result<(), DeviceBad>
    ensures puts { IsFor output.old topology.now → Puts (by_number topology.now (in_file (Some (Frames link.0)) (header ppp))) output.old output.new (S.files shelf.old) (S.files shelf.new) result }
    ensures stays { Stays S.files S.write_faults S.read_faults output.old output.new shelf.old shelf.new result }
{
    match find_frames(topology, link) {
        Some(file) => output.put_header(shelf, file, PPP),
        None => Ok(()),
    }
}

/// Puts the headers of the captures of links.
fn put_frame_heads<S: Shelf>(
    topology: &Topology,
    shelf: &mut S,
    output: &mut Output,
) -> Result<(), DeviceBad>
    ensures puts { IsFor output.old topology.now → Puts (by_number topology.now (frame_heads (length topology.now.links))) output.old output.new (S.files shelf.old) (S.files shelf.new) result }
    ensures stays { Stays S.files S.write_faults S.read_faults output.old output.new shelf.old shelf.new result }
{
    topology.laws();
    for link in 0..topology.links().len() {
        put_frame_head(topology, LinkNo(link as u16), shelf, output)?;
    }
    Ok(())
}

/// Puts what each file begins with.
fn put_heads<S: Shelf>(
    topology: &Topology,
    shelf: &mut S,
    output: &mut Output,
) -> Result<(), DeviceBad>
    ensures puts { IsFor output.old topology.now → Puts (by_number topology.now head_of) output.old output.new (S.files shelf.old) (S.files shelf.new) result }
    ensures stays { Stays S.files S.write_faults S.read_faults output.old output.new shelf.old shelf.new result }
{
    output.put_header(shelf, deliveries_file(), RAW_IPV4)?;
    put_frame_heads(topology, shelf, output)
}

/// Puts a line for each label that a node gave.
fn put_labels_of<S: Shelf>(
    topology: &Topology,
    node: NodeNo,
    givings: &[Given],
    shelf: &mut S,
    output: &mut Output,
) -> Result<(), DeviceBad>
    ensures puts { Puts (only_in 1 (label_lines topology.now node.0 givings.now)) output.old output.new (S.files shelf.old) (S.files shelf.new) result }
    ensures stays { Stays S.files S.write_faults S.read_faults output.old output.new shelf.old shelf.new result }
{
    for giving in givings {
        output.put_label(shelf, topology, node, *giving)?;
    }
    Ok(())
}

/// Puts the lines of all labels that were given.
fn put_labels<S: Shelf>(net: &Net, shelf: &mut S, output: &mut Output) -> Result<(), DeviceBad>
    requires { net.now.failed ≡ false }
    ensures puts { Puts (only_in 1 (flat_map (λ node. label_lines net.now.topology node (given net.now.topology net.now.journal node).given) (nodes_of (wiring_of net.now.topology))))
        output.old output.new (S.files shelf.old) (S.files shelf.new) result }
    ensures stays { Stays S.files S.write_faults S.read_faults output.old output.new shelf.old shelf.new result }
{
    let topology = net.topology();
    topology.laws();
    for number in 0..topology.nodes().len() {
        let node = NodeNo(number as u16);
        put_labels_of(topology, node, net.labels(node), shelf, output)?;
    }
    Ok(())
}

/// The files of a run over the topology, before they are begun.
fn unbegun(alloc: Global, topology: &Topology, folder: &str) -> Result<Output, AllocError>
    ensures names { IfOk result (λ output. output.names ≡ map (file_name folder.now topology.now) (files_of topology.now)) }
    ensures files { IfOk result (λ output. IsFor output topology.now) }
    ensures fresh { IfOk result IsFresh }
{
    let places = EdgePlaces::new(alloc, topology)?;
    let names = file_names(alloc, topology, folder)?;
    topology.laws();
    Output::new(alloc, names, places)
}

/// Begins files, and puts what each begins with.
fn begin<S: Shelf>(topology: &Topology, shelf: &mut S, output: &mut Output) -> Result<(), DeviceBad>
    requires files { IsFor output.old topology.now }
    requires fresh { IsFresh output.old }
    ensures held { OnOk result (ForSome (S.files shelf.old) (λ m. (capture : List (List ℕ)) → Records topology.now [] capture output.new (S.files shelf.new))) }
    ensures framed { OnOk result (Framed output.old.names (S.files shelf.old) (S.files shelf.new)) }
    ensures part { OnErr result (ForSome (S.files shelf.old) (λ m. (folder : List ℕ) (capture : List (List ℕ)) (entries : List JournalEntry) →
        output.old.names ≡ map (file_name folder topology.now) (files_of topology.now) → PartWritten (run_output folder topology.now capture entries) m (S.files shelf.new))) }
    ensures names { output.new.names ≡ output.old.names }
    ensures places { output.new.places ≡ output.old.places }
    ensures silent { S.files shelf.old ≡ None → S.files shelf.new ≡ None }
    ensures writes { Counted (S.write_faults shelf.old) (S.write_faults shelf.new) result }
    ensures reads { S.read_faults shelf.new ≡ S.read_faults shelf.old }
{
    begin_all(shelf, output.names())?;
    put_heads(topology, shelf, output)
}

impl Books {
    /// Begins all files of a run, and puts what each begins with. It ends at the first refusal.
    pub fn open<S: Shelf>(
        alloc: Global,
        shelf: &mut S,
        topology: &Topology,
        folder: &str,
    ) -> Result<Books, DeviceBad>
        ensures names { IfOk result (λ books. books.names ≡ map (file_name folder.now topology.now) (files_of topology.now)) }
        ensures files { IfOk result (λ books. IsFor books topology.now) }
        ensures held { IfOk result (λ books. ForSome (S.files shelf.old) (λ m. (capture : List (List ℕ)) → Records topology.now [] capture books (S.files shelf.new))) }
        ensures framed { IfOk result (λ books. Framed books.names (S.files shelf.old) (S.files shelf.new)) }
        ensures part { OnErr result (ForSome (S.files shelf.old) (λ m. (capture : List (List ℕ)) (entries : List JournalEntry) →
            PartWritten (run_output folder.now topology.now capture entries) m (S.files shelf.new))) }
        ensures silent { S.files shelf.old ≡ None → S.files shelf.new ≡ None }
        ensures writes { Counted (S.write_faults shelf.old) (S.write_faults shelf.new) result }
        ensures reads { S.read_faults shelf.new ≡ S.read_faults shelf.old }
    {
        let mut output = unbegun(alloc, topology, folder)?;
        begin(topology, shelf, &mut output)?;
        Ok(Books {
            output,
            fetched: Vec::new(alloc),
        })
    }

    /// Puts the labels that were given, and ends the files. A network that has run out of memory is answered by that.
    pub fn close<S: Shelf>(&mut self, shelf: &mut S, net: &Net) -> Result<(), DeviceBad>
        requires files { IsFor self.old net.now.topology }
        ensures whole { OnOk result ((base : Files) (all : List (List ℕ)) → Framed self.old.names (Some base) (S.files shelf.old) →
            StandsFor net.now (inputs_of all net.now.journal) → Records net.now.topology net.now.journal all self.old (S.files shelf.old) →
            S.files shelf.new ≡ Some (laid (named self.old.names (whole_at net.now.topology all net.now.journal)) base)) }
        ensures part { OnErr result ((base : Files) (all : List (List ℕ)) → Framed self.old.names (Some base) (S.files shelf.old) →
            StandsFor net.now (inputs_of all net.now.journal) → Records net.now.topology net.now.journal all self.old (S.files shelf.old) →
            PartWritten (named self.old.names (whole_at net.now.topology all net.now.journal)) base (S.files shelf.new)) }
        ensures names { self.new.names ≡ self.old.names }
        ensures framed { Framed self.old.names (S.files shelf.old) (S.files shelf.new) }
        ensures writes { CountedUnless (Lacking self.old.names (S.files shelf.old))
            (S.write_faults shelf.old) (S.write_faults shelf.new) result }
        ensures reads { S.read_faults shelf.new ≡ S.read_faults shelf.old }
    {
        if !net.works() {
            return Err(DeviceBad::NoMemory);
        }
        put_labels(net, shelf, &mut self.output)?;
        self.output.end(shelf)
    }
}
