//! Inputs from their bytes, and their limits.
ghost use Rattle.std.specs.Prelude.{◌≡◌, IfOk, Some};
ghost use Rattle.mn_answer.specs.Answer.{script_limit};
ghost use Rattle.mn_answer.specs.Inputs.{IsSound, TopologyIs, LinesAre, LinesFit, SecondIs, JointsAre, JointsFit, script_read};

use crate::outcome::{Limit, Outcome};
use mn_base::{MOST_SCRIPT_LINES, SiteNo};
use mn_join_script::{JointsBad, read_joints};
use mn_script::{Language, ScriptBad, count_lines, read_lines};
use mn_topo::Topology;
use mn_topo_toml::{TopoBad, read_topology};
use std::alloc::{AllocError, Global};

/// The most bytes of a topology: 1 MiB.
pub(crate) const MOST_TOPOLOGY_BYTES: u64 = 1 << 20;

/// The most bytes of a script: 64 MiB.
pub(crate) const MOST_SCRIPT_BYTES: u64 = 1 << 26;

/// The most bytes of a capture: 64 MiB.
pub const MOST_CAPTURE_BYTES: u64 = 1 << 26;

/// The most whole records of a capture.
pub const MOST_CAPTURE_RECORDS: u64 = 100_000;

/// The most bytes of a list of joints: 1 MiB.
pub(crate) const MOST_JOINTS_BYTES: u64 = 1 << 20;

/// The refusal of what passes a limit.
pub fn too_large(which: Limit, limit: u64) -> Outcome
    ensures { result ≡ Outcome.TooLarge which limit }
{
    Outcome::TooLarge { which, limit }
}

/// Reads the bytes of a topology, at most 1 MiB, or its refusal.
pub fn parse_topology(alloc: Global, bytes: &[u8]) -> Result<Result<Topology, Outcome>, AllocError>
    ensures answer { IfOk result (TopologyIs (Some bytes.now)) }
    ensures sound { IfOk result IsSound }
{
    if bytes.len() as u64 > MOST_TOPOLOGY_BYTES {
        return Ok(Err(too_large(Limit::TopologyBytes, MOST_TOPOLOGY_BYTES)));
    }
    match read_topology(alloc, bytes) {
        Ok(topology) => Ok(Ok(topology)),
        Err(TopoBad::Refused { rule, place }) => Ok(Err(Outcome::BadTopology { rule, place })),
        Err(TopoBad::NoMemory) => Err(AllocError),
    }
}

/// The limit that a script passes, if it does: of its bytes, 64 MiB, or else of its lines, 3,000,000.
pub(crate) fn script_limit(bytes: &[u8]) -> Option<Outcome>
    ensures { result ≡ script_limit bytes.now }
{
    if bytes.len() as u64 > MOST_SCRIPT_BYTES {
        Some(too_large(Limit::ScriptBytes, MOST_SCRIPT_BYTES))
    } else if count_lines(bytes) > MOST_SCRIPT_LINES {
        Some(too_large(Limit::ScriptLines, MOST_SCRIPT_LINES))
    } else {
        None
    }
}

/// The script that its reader has read, or its refusal by the first rule that it breaks.
pub fn script_read<T>(read: Result<T, ScriptBad>) -> Result<Result<T, Outcome>, AllocError>
    ensures read { result ≡ script_read read }
    ensures sound { IfOk result IsSound }
{
    match read {
        Ok(script) => Ok(Ok(script)),
        Err(ScriptBad::Refused { rule, line }) => Ok(Err(Outcome::BadScript { rule, line })),
        Err(ScriptBad::NoMemory) => Err(AllocError),
    }
}

/// Reads the bytes of a script in a language of lines, at most 64 MiB and 3,000,000 lines, or its refusal.
pub fn parse_lines<L: Language>(
    alloc: Global,
    language: &L,
    bytes: &[u8],
) -> Result<Result<Vec<L::Line>, Outcome>, AllocError>
    ensures answer { IfOk result (LinesAre (L.says language.now) (Some bytes.now)) }
    ensures fits { IfOk result (LinesFit (L.fits language.now)) }
    ensures sound { IfOk result IsSound }
{
    match script_limit(bytes) {
        Some(outcome) => Ok(Err(outcome)),
        None => script_read(read_lines(alloc, language, 1, bytes)),
    }
}

/// Reads the bytes of the second topology of two, at most 1 MiB, or its refusal.
pub fn parse_second(alloc: Global, bytes: &[u8]) -> Result<Result<Topology, Outcome>, AllocError>
    ensures answer { IfOk result (SecondIs (Some bytes.now)) }
    ensures sound { IfOk result IsSound }
{
    if bytes.len() as u64 > MOST_TOPOLOGY_BYTES {
        return Ok(Err(too_large(Limit::SecondBytes, MOST_TOPOLOGY_BYTES)));
    }
    match read_topology(alloc, bytes) {
        Ok(topology) => Ok(Ok(topology)),
        Err(TopoBad::Refused { rule, place }) => Ok(Err(Outcome::BadSecond { rule, place })),
        Err(TopoBad::NoMemory) => Err(AllocError),
    }
}

/// Reads the bytes of a list of joints of two networks, at most 1 MiB, or its refusal.
pub fn parse_joints(
    alloc: Global,
    first: &Topology,
    second: &Topology,
    bytes: &[u8],
) -> Result<Result<Vec<(SiteNo, SiteNo)>, Outcome>, AllocError>
    ensures answer { IfOk result (JointsAre first.now second.now (Some bytes.now)) }
    ensures fits { IfOk result (JointsFit first.now second.now) }
    ensures sound { IfOk result IsSound }
{
    if bytes.len() as u64 > MOST_JOINTS_BYTES {
        return Ok(Err(too_large(Limit::JointsBytes, MOST_JOINTS_BYTES)));
    }
    match read_joints(alloc, first, second, bytes) {
        Ok(joints) => Ok(Ok(joints)),
        Err(JointsBad::Refused { rule, line }) => Ok(Err(Outcome::BadJoints { rule, line })),
        Err(JointsBad::NoMemory) => Err(AllocError),
    }
}
