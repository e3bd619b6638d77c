//! The inputs of a run from their files.
ghost use Rattle.std.specs.Prelude.{◌≡◌, List, ℕ, IfOk};
ghost use Rattle.std.specs.Option.{ForSome};
ghost use Rattle.mn_run.specs.Prelude.{CountedUnless, HasNone, IsSound};

use mn_answer::{Outcome, load_capture, load_lines, load_topology};
use mn_capture::Capture;
use mn_edge::{DeviceBad, Shelf};
use mn_script::{Commands, Line};
use mn_topo::Topology;
use std::alloc::Global;

/// The inputs of a run.
#[derive(Drop)]
pub(crate) struct Inputs {
    pub topology: Topology,
    pub lines: Vec<Line>,
    pub capture: Capture,
}

ghost use Rattle.mn_run.specs.Answer.{answer_over, run_over};
ghost use Rattle.mn_run.specs.Jobs.{OverIs, LoadedIs, InputsFit};

/// Reads the inputs of a run, the topology first and the capture last, or the first refusal.
pub(crate) fn load<S: Shelf>(
    alloc: Global,
    topology: &str,
    script: &str,
    capture: &str,
    shelf: &mut S,
) -> Result<Result<Inputs, Outcome>, DeviceBad>
    ensures answer { IfOk result (λ l. ForSome (S.files shelf.old) (λ files. LoadedIs topology.now script.now capture.now files l)) }
    ensures fits { IfOk result (InputsFit capture.now) }
    ensures sound { IfOk result IsSound }
    ensures same { S.files shelf.new ≡ S.files shelf.old }
    ensures reads { CountedUnless ((folder : List ℕ) → HasNone (run_over topology.now script.now capture.now folder) (S.files shelf.old))
        (S.read_faults shelf.old) (S.read_faults shelf.new) result }
    ensures writes { S.write_faults shelf.new ≡ S.write_faults shelf.old }
{
    match load_topology(alloc, topology, shelf)? {
        Ok(topology) => load_over(alloc, topology, script, capture, shelf),
        Err(outcome) => Ok(Err(outcome)),
    }
}

/// Reads script and capture of a run over a topology.
fn load_over<S: Shelf>(
    alloc: Global,
    topology: Topology,
    script: &str,
    capture: &str,
    shelf: &mut S,
) -> Result<Result<Inputs, Outcome>, DeviceBad>
    ensures answer { IfOk result (λ l. ForSome (S.files shelf.old) (λ files. OverIs topology script.now capture.now files l)) }
    ensures fits { IfOk result (InputsFit capture.now) }
    ensures sound { IfOk result IsSound }
    ensures same { S.files shelf.new ≡ S.files shelf.old }
    ensures reads { CountedUnless ((folder : List ℕ) → HasNone (λ files. answer_over folder files script.now capture.now topology) (S.files shelf.old))
        (S.read_faults shelf.old) (S.read_faults shelf.new) result }
    ensures writes { S.write_faults shelf.new ≡ S.write_faults shelf.old }
{
    let lines = match load_lines(alloc, script, shelf, &Commands(&topology))? {
        Ok(lines) => lines,
        Err(outcome) => return Ok(Err(outcome)),
    };
    match load_capture(alloc, capture, shelf)? {
        Ok(capture) => Ok(Ok(Inputs {
            topology,
            lines,
            capture,
        })),
        Err(outcome) => Ok(Err(outcome)),
    }
}
