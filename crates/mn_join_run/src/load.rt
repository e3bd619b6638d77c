//! The inputs of a run from their files.
ghost use Rattle.std.specs.Prelude.{◌≡◌, IfOk};
ghost use Rattle.std.specs.Option.{ForSome};
ghost use Rattle.mn_join_run.specs.Prelude.{CountedUnless, Absent, file, HasNone, IsSound, LinesAre, LinesFit, join_says, line_fits};

use mn_answer::{
    Outcome, load_capture, load_joints, load_script_bytes, load_second, load_topology, script_read,
};
use mn_base::SiteNo;
use mn_capture::Capture;
use mn_edge::{DeviceBad, Shelf};
use mn_join_script::{JoinLine, read_join_lines};
use mn_topo::Topology;
use std::alloc::Global;

/// The names of the inputs of `join`, and the folder into which it writes.
#[derive(Clone, Copy)]
pub struct JoinNames<'w> {
    pub first: &'w str,
    pub second: &'w str,
    pub joints: &'w str,
    pub script: &'w str,
    pub capture: &'w str,
    pub folder: &'w str,
}

/// The inputs of a run of two joined networks.
#[derive(Drop)]
pub(crate) struct Inputs {
    pub first: Topology,
    pub second: Topology,
    pub joints: Vec<(SiteNo, SiteNo)>,
    pub lines: Vec<JoinLine>,
    pub capture: Capture,
}

ghost use Rattle.mn_join_run.specs.Answer.{answer_for};
ghost use Rattle.mn_join_run.specs.Loading.{LoadedIs, InputsFit};

/// Reads the script of this name for two networks, at most 64 MiB and 3,000,000 lines, or its refusal.
fn load_join_lines<S: Shelf>(
    alloc: Global,
    name: &str,
    shelf: &mut S,
    first: &Topology,
    second: &Topology,
) -> Result<Result<Vec<JoinLine>, Outcome>, DeviceBad>
    ensures answer { IfOk result (λ s. ForSome (S.files shelf.old) (λ files. LinesAre (join_says first.now second.now) (file files name.now) s)) }
    ensures fits { IfOk result (LinesFit (line_fits first.now second.now)) }
    ensures sound { IfOk result IsSound }
    ensures same { S.files shelf.new ≡ S.files shelf.old }
    ensures reads { CountedUnless (Absent (S.files shelf.old) name.now)
        (S.read_faults shelf.old) (S.read_faults shelf.new) result }
    ensures writes { S.write_faults shelf.new ≡ S.write_faults shelf.old }
{
    match load_script_bytes(alloc, name, shelf)? {
        Ok(bytes) => Ok(script_read(read_join_lines(alloc, first, second, &bytes))?),
        Err(outcome) => Ok(Err(outcome)),
    }
}

/// Reads the inputs of these names, or the first refusal: both topologies, their joints, the script and the capture.
pub(crate) fn load<S: Shelf>(
    alloc: Global,
    names: &JoinNames<'_>,
    shelf: &mut S,
) -> Result<Result<Inputs, Outcome>, DeviceBad>
    ensures answer { IfOk result (λ l. ForSome (S.files shelf.old) (λ files. LoadedIs names.now files l)) }
    ensures fits { IfOk result (InputsFit names.now) }
    ensures sound { IfOk result IsSound }
    ensures same { S.files shelf.new ≡ S.files shelf.old }
    ensures reads { CountedUnless (HasNone (answer_for names.now) (S.files shelf.old))
        (S.read_faults shelf.old) (S.read_faults shelf.new) result }
    ensures writes { S.write_faults shelf.new ≡ S.write_faults shelf.old }
{
    let first = match load_topology(alloc, names.first, shelf)? {
        Ok(first) => first,
        Err(outcome) => return Ok(Err(outcome)),
    };
    let second = match load_second(alloc, names.second, shelf)? {
        Ok(second) => second,
        Err(outcome) => return Ok(Err(outcome)),
    };
    let joints = match load_joints(alloc, names.joints, shelf, &first, &second)? {
        Ok(joints) => joints,
        Err(outcome) => return Ok(Err(outcome)),
    };
    let lines = match load_join_lines(alloc, names.script, shelf, &first, &second)? {
        Ok(lines) => lines,
        Err(outcome) => return Ok(Err(outcome)),
    };
    match load_capture(alloc, names.capture, shelf)? {
        Ok(capture) => Ok(Ok(Inputs {
            first,
            second,
            joints,
            lines,
            capture,
        })),
        Err(outcome) => Ok(Err(outcome)),
    }
}
