//! The file of what comes out at sites that aren't joined.
ghost use Rattle.std.specs.Prelude.{◌≡◌, ◌++◌, ◌∷◌, [], ℕ, List, IfOk, OnOk, OnErr, Some, None};
ghost use Rattle.std.specs.List.{flat_map};
ghost use Rattle.std.specs.Option.{ForSome};
ghost use Rattle.mn_join_run.specs.Prelude.{Counted, CountedUnless, Files, Framed, Lacking, named, laid, texts, PartWritten, Exit, header};
ghost use Rattle.mn_join_run.specs.Report.{exit_record, exits_file};
ghost use Rattle.mn_pcap.specs.Format.{record_of};
ghost use Rattle.mn_join_run.specs.Answer.{exits_name};
ghost use Rattle.mn_join_run.specs.Outside.{Holding, Beginning};

use mn_edge::{DeviceBad, Gather, Shelf, begin_all};
use mn_join::Pair;
use mn_pcap::put_header;
use mn_perform::record_header;
use std::alloc::{AllocError, Global};
use std::marker::Model;

/// Link type 228: a record is an IPv4 packet.
const RAW_IPV4: u32 = 228;

/// The file of what comes out, by its name, and what waits for it: 64 KiB at most.
#[derive(Drop)]
pub(crate) struct ExitsFile {
    /// One name.
    names: Vec<String>,
    gather: Gather,
}

impl Model for ExitsFile {
    ghost use Rattle.std.specs.Prelude.{◌≡◌, length};
    ghost use Rattle.mn_edge.specs.Written.{texts};
    ghost use Rattle.mn_join_run.specs.Outside.{FileNow};

    ghost Value = { FileNow };

    ghost view = { λ f. record { names = texts f.names.items; held = f.gather } };

    ghost invariant = { λ f. (length f.names.items ≡ 1) × (length f.gather ≡ 1) };
}

/// The one name, of the file in a folder.
fn names_in(alloc: Global, folder: &str) -> Result<Vec<String>, AllocError>
    ensures { IfOk result (λ names. texts names.items ≡ exits_name folder.now ∷ []) }
{
    let name = format!(in alloc; "{folder}/delivered.pcap")?;
    let mut names = Vec::new(alloc);
    names.push(name)?;
    Ok(names)
}

/// The header of the file.
fn file_header(alloc: Global) -> Result<Vec<u8>, AllocError>
    ensures { IfOk result (λ bytes. bytes.items ≡ header RAW_IPV4) }
{
    let mut bytes = Vec::new(alloc);
    put_header(&mut bytes, RAW_IPV4)?;
    Ok(bytes)
}

impl ExitsFile {
    /// The file in a folder, before it is begun.
    fn unbegun(alloc: Global, folder: &str) -> Result<ExitsFile, AllocError>
        ensures { IfOk result (λ file. file ≡ record { names = exits_name folder.now ∷ []; held = [] ∷ [] }) }
    {
        Ok(ExitsFile {
            names: names_in(alloc, folder)?,
            gather: Gather::new(alloc, 1)?,
        })
    }

    /// The file grows by a piece.
    fn append<S: Shelf>(&mut self, shelf: &mut S, piece: &[u8]) -> Result<(), DeviceBad>
        ensures grown { OnOk result ((bytes : List ℕ) → Holding self.old.names bytes self.old.held (S.files shelf.old) →
            Holding self.old.names (bytes ++ piece.now) self.new.held (S.files shelf.new)) }
        ensures part { OnErr result ((bytes : List ℕ) → Holding self.old.names bytes self.old.held (S.files shelf.old) →
            Beginning self.old.names (bytes ++ piece.now) (S.files shelf.new)) }
        ensures names { self.new.names ≡ self.old.names }
        ensures framed { Framed self.old.names (S.files shelf.old) (S.files shelf.new) }
        ensures writes { CountedUnless (Lacking self.old.names (S.files shelf.old))
            (S.write_faults shelf.old) (S.write_faults shelf.new) result }
        ensures reads { S.read_faults shelf.new ≡ S.read_faults shelf.old }
    {
        self.gather.put(shelf, &self.names, 0, piece)
    }

    /// The file grows by the record of a packet that came out at this tick.
    fn put_exit<S: Shelf>(
        &mut self,
        shelf: &mut S,
        tick: u64,
        packet: &[u8],
    ) -> Result<(), DeviceBad>
        ensures grown { OnOk result ((bytes : List ℕ) → Holding self.old.names bytes self.old.held (S.files shelf.old) →
            Holding self.old.names (bytes ++ record_of tick packet.now) self.new.held (S.files shelf.new)) }
        ensures part { OnErr result ((bytes : List ℕ) → Holding self.old.names bytes self.old.held (S.files shelf.old) →
            Beginning self.old.names (bytes ++ record_of tick packet.now) (S.files shelf.new)) }
        ensures names { self.new.names ≡ self.old.names }
        ensures framed { Framed self.old.names (S.files shelf.old) (S.files shelf.new) }
        ensures writes { CountedUnless (Lacking self.old.names (S.files shelf.old))
            (S.write_faults shelf.old) (S.write_faults shelf.new) result }
        ensures reads { S.read_faults shelf.new ≡ S.read_faults shelf.old }
    {
        self.append(shelf, &record_header(tick, packet.len()))?;
        self.append(shelf, packet)
    }

    /// The file grows by what came out in the last line.
    pub fn put_exits<S: Shelf>(&mut self, shelf: &mut S, pair: &Pair) -> Result<(), DeviceBad>
        ensures grown { OnOk result ((bytes : List ℕ) → Holding self.old.names bytes self.old.held (S.files shelf.old) →
            Holding self.old.names (bytes ++ flat_map exit_record pair.now.exits) self.new.held (S.files shelf.new)) }
        ensures part { OnErr result ((bytes : List ℕ) → Holding self.old.names bytes self.old.held (S.files shelf.old) →
            Beginning self.old.names (bytes ++ flat_map exit_record pair.now.exits) (S.files shelf.new)) }
        ensures names { self.new.names ≡ self.old.names }
        ensures framed { Framed self.old.names (S.files shelf.old) (S.files shelf.new) }
        ensures writes { CountedUnless (Lacking self.old.names (S.files shelf.old))
            (S.write_faults shelf.old) (S.write_faults shelf.new) result }
        ensures reads { S.read_faults shelf.new ≡ S.read_faults shelf.old }
    {
        let mut k: u32 = 0;
        'exits: while let Some(exit) = pair.delivery(k) {
            self.put_exit(shelf, exit.tick, exit.bytes)?;
            k += 1;
        }
        Ok(())
    }

    /// Begins the file in a folder, with its header.
    pub fn open<S: Shelf>(
        alloc: Global,
        shelf: &mut S,
        folder: &str,
    ) -> Result<ExitsFile, DeviceBad>
        ensures names { IfOk result (λ file. file.names ≡ exits_name folder.now ∷ []) }
        ensures held { IfOk result (λ file. ForSome (S.files shelf.old) (λ m. Holding file.names (exits_file []) file.held (S.files shelf.new))) }
        ensures framed { IfOk result (λ file. Framed file.names (S.files shelf.old) (S.files shelf.new)) }
        ensures part { OnErr result (ForSome (S.files shelf.old) (λ m. (exits : List Exit) →
            PartWritten ((exits_name folder.now, exits_file exits) ∷ []) m (S.files shelf.new))) }
        ensures silent { S.files shelf.old ≡ None → S.files shelf.new ≡ None }
        ensures writes { Counted (S.write_faults shelf.old) (S.write_faults shelf.new) result }
        ensures reads { S.read_faults shelf.new ≡ S.read_faults shelf.old }
    {
        let mut file = ExitsFile::unbegun(alloc, folder)?;
        let head = file_header(alloc)?;
        begin_all(shelf, &file.names)?;
        file.append(shelf, &head)?;
        Ok(file)
    }

    /// Appends all that waits.
    pub fn end<S: Shelf>(&mut self, shelf: &mut S) -> Result<(), DeviceBad>
        ensures whole { OnOk result ((bytes : List ℕ) (m : Files) → Framed self.old.names (Some m) (S.files shelf.old) →
            Holding self.old.names bytes self.old.held (S.files shelf.old) →
            S.files shelf.new ≡ Some (laid (named self.old.names (λ _. bytes)) m)) }
        ensures part { OnErr result ((bytes : List ℕ) → Holding self.old.names bytes self.old.held (S.files shelf.old) →
            Beginning self.old.names bytes (S.files shelf.new)) }
        ensures names { self.new.names ≡ self.old.names }
        ensures framed { Framed self.old.names (S.files shelf.old) (S.files shelf.new) }
        ensures writes { CountedUnless (Lacking self.old.names (S.files shelf.old))
            (S.write_faults shelf.old) (S.write_faults shelf.new) result }
        ensures reads { S.read_faults shelf.new ≡ S.read_faults shelf.old }
    {
        self.gather.end(shelf, &self.names)
    }
}
