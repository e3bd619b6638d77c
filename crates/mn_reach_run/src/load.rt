//! The failures from their file.
ghost use Rattle.std.specs.Prelude.{◌≡◌, IfOk};
ghost use Rattle.std.specs.Option.{ForSome};
ghost use Rattle.mn_edge.specs.Faults.{CountedUnless};
ghost use Rattle.mn_edge.specs.Files.{Absent, file};
ghost use Rattle.mn_answer.specs.Inputs.{IsSound, LinesAre, LinesFit};
ghost use Rattle.mn_failures.specs.declared.command.FailureLine.{FailureLine};
ghost use Rattle.mn_failures.specs.Language.{failure_says};
ghost use Rattle.mn_failures.specs.Meaning.{command_fits};

use mn_answer::{Outcome, load_script_bytes, script_read};
use mn_edge::{DeviceBad, Shelf};
use mn_failures::{FailureLine, read_failures};
use mn_topo::Topology;
use std::alloc::Global;

/// Reads the file of failures of this name, at most 64 MiB and 3,000,000 lines, or its refusal.
pub(crate) fn load_failures<S: Shelf>(
    alloc: Global,
    name: &str,
    shelf: &mut S,
    topology: &Topology,
) -> Result<Result<Vec<FailureLine>, Outcome>, DeviceBad>
    ensures answer { IfOk result (λ s. ForSome (S.files shelf.old) (λ files. LinesAre (failure_says topology.now) (file files name.now) s)) }
    ensures fits { IfOk result (LinesFit (λ (line : FailureLine). command_fits topology.now line.command)) }
    ensures sound { IfOk result IsSound }
    ensures same { S.files shelf.new ≡ S.files shelf.old }
    ensures reads { CountedUnless (Absent (S.files shelf.old) name.now)
        (S.read_faults shelf.old) (S.read_faults shelf.new) result }
    ensures writes { S.write_faults shelf.new ≡ S.write_faults shelf.old }
{
    match load_script_bytes(alloc, name, shelf)? {
        Ok(bytes) => Ok(script_read(read_failures(alloc, topology, &bytes))?),
        Err(outcome) => Ok(Err(outcome)),
    }
}
