//! Inputs from their files.
ghost use Rattle.std.specs.Prelude.{◌≡◌, IfOk};
ghost use Rattle.std.specs.Option.{ForSome};
ghost use Rattle.mn_edge.specs.Faults.{CountedUnless};
ghost use Rattle.mn_edge.specs.Files.{Absent, file};
ghost use Rattle.mn_answer.specs.Inputs.{IsSound, TopologyIs, ScriptBytesAre, PassNoLimit, LinesAre, LinesFit, CaptureIs, CaptureOf, SecondIs, JointsAre, JointsFit};

use crate::outcome::{Limit, Outcome};
use crate::parse::{
    MOST_CAPTURE_BYTES, MOST_CAPTURE_RECORDS, MOST_JOINTS_BYTES, MOST_SCRIPT_BYTES,
    MOST_TOPOLOGY_BYTES, parse_joints, parse_second, parse_topology, script_limit, script_read,
    too_large,
};
use mn_base::SiteNo;
use mn_capture::{Capture, Scanned, scan};
use mn_edge::{Content, DeviceBad, Shelf, read_all};
use mn_script::{Language, read_lines};
use mn_topo::Topology;
use std::alloc::Global;

/// Reads the topology of this name, or its refusal.
pub fn load_topology<S: Shelf>(
    alloc: Global,
    name: &str,
    shelf: &mut S,
) -> Result<Result<Topology, Outcome>, DeviceBad>
    ensures answer { IfOk result (λ t. ForSome (S.files shelf.old) (λ files. TopologyIs (file files name.now) t)) }
    ensures sound { IfOk result IsSound }
    ensures same { S.files shelf.new ≡ S.files shelf.old }
    ensures reads { CountedUnless (Absent (S.files shelf.old) name.now)
        (S.read_faults shelf.old) (S.read_faults shelf.new) result }
    ensures writes { S.write_faults shelf.new ≡ S.write_faults shelf.old }
{
    match read_all(alloc, shelf, name, MOST_TOPOLOGY_BYTES)? {
        Content::TooLarge => Ok(Err(too_large(Limit::TopologyBytes, MOST_TOPOLOGY_BYTES))),
        Content::Whole(bytes) => match parse_topology(alloc, &bytes) {
            Ok(found) => Ok(found),
            Err(_) => Err(DeviceBad::NoMemory),
        },
    }
}

/// Reads the bytes of the script of this name, or its refusal by a limit that it passes.
pub fn load_script_bytes<S: Shelf>(
    alloc: Global,
    name: &str,
    shelf: &mut S,
) -> Result<Result<Vec<u8>, Outcome>, DeviceBad>
    ensures answer { IfOk result (λ s. ForSome (S.files shelf.old) (λ files. ScriptBytesAre (file files name.now) s)) }
    ensures fits { IfOk result PassNoLimit }
    ensures sound { IfOk result IsSound }
    ensures same { S.files shelf.new ≡ S.files shelf.old }
    ensures reads { CountedUnless (Absent (S.files shelf.old) name.now)
        (S.read_faults shelf.old) (S.read_faults shelf.new) result }
    ensures writes { S.write_faults shelf.new ≡ S.write_faults shelf.old }
{
    match read_all(alloc, shelf, name, MOST_SCRIPT_BYTES)? {
        Content::TooLarge => Ok(Err(too_large(Limit::ScriptBytes, MOST_SCRIPT_BYTES))),
        Content::Whole(bytes) => match script_limit(&bytes) {
            Some(outcome) => Ok(Err(outcome)),
            None => Ok(Ok(bytes)),
        },
    }
}

/// Reads the script of this name in a language of lines, or its refusal.
pub fn load_lines<L: Language, S: Shelf>(
    alloc: Global,
    name: &str,
    shelf: &mut S,
    language: &L,
) -> Result<Result<Vec<L::Line>, Outcome>, DeviceBad>
    ensures answer { IfOk result (λ s. ForSome (S.files shelf.old) (λ files. LinesAre (L.says language.now) (file files name.now) s)) }
    ensures fits { IfOk result (LinesFit (L.fits language.now)) }
    ensures sound { IfOk result IsSound }
    ensures same { S.files shelf.new ≡ S.files shelf.old }
    ensures reads { CountedUnless (Absent (S.files shelf.old) name.now)
        (S.read_faults shelf.old) (S.read_faults shelf.new) result }
    ensures writes { S.write_faults shelf.new ≡ S.write_faults shelf.old }
{
    match load_script_bytes(alloc, name, shelf)? {
        Ok(bytes) => Ok(script_read(read_lines(alloc, language, 1, &bytes))?),
        Err(outcome) => Ok(Err(outcome)),
    }
}

/// Finds the records of the capture of this name, or its refusal.
pub fn load_capture<S: Shelf>(
    alloc: Global,
    name: &str,
    shelf: &mut S,
) -> Result<Result<Capture, Outcome>, DeviceBad>
    ensures answer { IfOk result (λ c. ForSome (S.files shelf.old) (λ files. CaptureIs (file files name.now) c)) }
    ensures of { IfOk result (CaptureOf name.now) }
    ensures sound { IfOk result IsSound }
    ensures same { S.files shelf.new ≡ S.files shelf.old }
    ensures reads { CountedUnless (Absent (S.files shelf.old) name.now)
        (S.read_faults shelf.old) (S.read_faults shelf.new) result }
    ensures writes { S.write_faults shelf.new ≡ S.write_faults shelf.old }
{
    match scan(alloc, shelf, name, MOST_CAPTURE_BYTES, MOST_CAPTURE_RECORDS)? {
        Scanned::TooLong => Ok(Err(too_large(Limit::CaptureBytes, MOST_CAPTURE_BYTES))),
        Scanned::TooMany => Ok(Err(too_large(Limit::CaptureRecords, MOST_CAPTURE_RECORDS))),
        Scanned::Refused { rule, place } => Ok(Err(Outcome::BadCapture { rule, place })),
        Scanned::Read(capture) => Ok(Ok(capture)),
    }
}

/// Reads the topology of this name as the second of two, or its refusal.
pub fn load_second<S: Shelf>(
    alloc: Global,
    name: &str,
    shelf: &mut S,
) -> Result<Result<Topology, Outcome>, DeviceBad>
    ensures answer { IfOk result (λ t. ForSome (S.files shelf.old) (λ files. SecondIs (file files name.now) t)) }
    ensures sound { IfOk result IsSound }
    ensures same { S.files shelf.new ≡ S.files shelf.old }
    ensures reads { CountedUnless (Absent (S.files shelf.old) name.now)
        (S.read_faults shelf.old) (S.read_faults shelf.new) result }
    ensures writes { S.write_faults shelf.new ≡ S.write_faults shelf.old }
{
    match read_all(alloc, shelf, name, MOST_TOPOLOGY_BYTES)? {
        Content::TooLarge => Ok(Err(too_large(Limit::SecondBytes, MOST_TOPOLOGY_BYTES))),
        Content::Whole(bytes) => match parse_second(alloc, &bytes) {
            Ok(found) => Ok(found),
            Err(_) => Err(DeviceBad::NoMemory),
        },
    }
}

/// Reads the list of joints of this name, of two networks, or its refusal.
pub fn load_joints<S: Shelf>(
    alloc: Global,
    name: &str,
    shelf: &mut S,
    first: &Topology,
    second: &Topology,
) -> Result<Result<Vec<(SiteNo, SiteNo)>, Outcome>, DeviceBad>
    ensures answer { IfOk result (λ j. ForSome (S.files shelf.old) (λ files. JointsAre first.now second.now (file files name.now) j)) }
    ensures fits { IfOk result (JointsFit first.now second.now) }
    ensures sound { IfOk result IsSound }
    ensures same { S.files shelf.new ≡ S.files shelf.old }
    ensures reads { CountedUnless (Absent (S.files shelf.old) name.now)
        (S.read_faults shelf.old) (S.read_faults shelf.new) result }
    ensures writes { S.write_faults shelf.new ≡ S.write_faults shelf.old }
{
    match read_all(alloc, shelf, name, MOST_JOINTS_BYTES)? {
        Content::TooLarge => Ok(Err(too_large(Limit::JointsBytes, MOST_JOINTS_BYTES))),
        Content::Whole(bytes) => match parse_joints(alloc, first, second, &bytes) {
            Ok(found) => Ok(found),
            Err(_) => Err(DeviceBad::NoMemory),
        },
    }
}
