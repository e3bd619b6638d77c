//! The runs that the generator makes.
ghost use Rattle.std.specs.Prelude.{◌≡◌, ◌≢◌, ◌≤◌, IfOk, Some, length, string_bytes};
ghost use Rattle.std.specs.Option.{ForSome};
ghost use Rattle.mn_run.specs.Prelude.{most_script_lines, AllFit, packets_at, OutcomeIs, TextIs, SinkCausedBy, IsSound};
ghost use Rattle.mn_run.specs.Answer.{generated_line, generated_done, generated};
ghost use Rattle.mn_run.specs.Headline.{IsGenerated};

use crate::parse::parse_capture;
use crate::top::outcome_of;
use mn_answer::{Outcome, parse_lines, parse_topology, refuse};
use mn_edge::Sink;
use mn_gen::{capture_bytes, script_text, topology_text};
use mn_join_run::{MemoryCapture, tally};
use mn_script::{Commands, Line};
use mn_topo::Topology;
use std::alloc::{AllocError, Global};

/// The inputs of a run that the generator made.
#[derive(Drop)]
pub(crate) struct Made {
    pub topology: Topology,
    pub lines: Vec<Line>,
    pub capture: MemoryCapture,
}

ghost use Rattle.mn_run.specs.Jobs.{MadeIs, MadeOverIs};

/// Makes the inputs of a number, and plays them. No file is written; its number is put, and what all came to.
pub(crate) fn generate<O: Sink>(alloc: Global, number: u32, out: &mut O) -> Outcome
    requires { number ≤ 99 }
    ensures outcome { OutcomeIs (generated number) result }
    ensures text { ForSome (O.written out.old) (λ before. TextIs (generated number) before (O.written out.new) result) }
    ensures cause { SinkCausedBy (O.faults out.old) (O.faults out.new) result }
    ensures usage { result ≢ Outcome.Usage }
    ensures told { ForSome (O.written out.old) (λ before. IsGenerated number before (O.written out.new) result) }
{
    match make(alloc, number) {
        Ok(Ok(made)) => {
            made.topology.laws();
            run_made(alloc, number, made, out)
        }
        Ok(Err(outcome)) => refuse(alloc, out, outcome),
        Err(_) => Outcome::NoMemory,
    }
}

/// Makes the inputs of a number and reads them, or the first refusal.
fn make(alloc: Global, number: u32) -> Result<Result<Made, Outcome>, AllocError>
    requires { number ≤ 99 }
    ensures answer { IfOk result (MadeIs number) }
    ensures sound { IfOk result IsSound }
{
    let bytes = topology_text(alloc, number)?;
    match parse_topology(alloc, &bytes)? {
        Ok(topology) => make_over(alloc, number, topology),
        Err(outcome) => Ok(Err(outcome)),
    }
}

/// Makes script and capture of a number and reads them over its topology.
fn make_over(
    alloc: Global,
    number: u32,
    topology: Topology,
) -> Result<Result<Made, Outcome>, AllocError>
    requires { number ≤ 99 }
    ensures answer { IfOk result (MadeOverIs number topology) }
    ensures sound { IfOk result IsSound }
{
    let bytes = script_text(alloc, number)?;
    let lines = match parse_lines(alloc, &Commands(&topology), &bytes)? {
        Ok(lines) => lines,
        Err(outcome) => return Ok(Err(outcome)),
    };
    match parse_capture(alloc, capture_bytes(alloc, number)?)? {
        Ok(capture) => Ok(Ok(Made {
            topology,
            lines,
            capture,
        })),
        Err(outcome) => Ok(Err(outcome)),
    }
}

fn generated_line(alloc: Global, number: u32) -> Result<String, AllocError>
    ensures { IfOk result (λ line. string_bytes line ≡ generated_line number) }
{
    format!(in alloc; "generated {number}\n")
}

/// Plays the script of inputs that were made.
fn run_made<O: Sink>(alloc: Global, number: u32, made: Made, out: &mut O) -> Outcome
    requires fit { AllFit made.topology made.lines.items }
    requires few { length made.lines.items ≤ most_script_lines }
    ensures outcome { OutcomeIs (Some (generated_done number made.topology made.lines.items (packets_at made.capture))) result }
    ensures text { ForSome (O.written out.old) (λ before.
        TextIs (Some (generated_done number made.topology made.lines.items (packets_at made.capture))) before (O.written out.new) result) }
    ensures cause { SinkCausedBy (O.faults out.old) (O.faults out.new) result }
    ensures usage { result ≢ Outcome.Usage }
{
    let Made {
        topology,
        lines,
        capture,
    } = made;
    let Ok(heading) = generated_line(alloc, number) else {
        return Outcome::NoMemory;
    };
    let ended = tally(
        alloc,
        out,
        topology,
        lines.as_slice(),
        &capture,
        heading.as_bytes(),
    );
    outcome_of(ended)
}
