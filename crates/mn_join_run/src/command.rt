//! The whole command, over a shelf of files and a sink.
ghost use Rattle.std.specs.Prelude.{◌≡◌, ◌≢◌, false};
ghost use Rattle.std.specs.Option.{ForSome};
ghost use Rattle.mn_join_run.specs.Prelude.{Answers, CausedBy, HasNone, is_inside};
ghost use Rattle.mn_join_run.specs.Answer.{join_answer};
ghost use Rattle.mn_join_run.specs.Headline.{IsJoinTold};

use crate::load::{JoinNames, load};
use crate::run::join_networks;
use mn_answer::{Outcome, refuse};
use mn_edge::{DeviceBad, Shelf, Sink};
use std::alloc::Global;

/// Plays a script on two networks that are joined site to site, every link and session down at the start, over the packets of a
/// capture, all read by name. Writes what comes out at sites that aren't joined into the folder, as `delivered.pcap`, and puts the
/// report. The capture doesn't lie in the folder.
pub fn join<S: Shelf, O: Sink>(
    alloc: Global,
    names: &JoinNames<'_>,
    shelf: &mut S,
    out: &mut O,
) -> Outcome
    requires apart { is_inside names.now.capture.now names.now.folder.now ≡ false }
    // The outcome, the file and the text are the answer's; a fault, or running out of memory, may come in its place, and then first parts stand.
    ensures answers { ForSome (S.files shelf.old) (λ m. Answers (join_answer names.now.first.now names.now.second.now names.now.joints.now
        names.now.script.now names.now.capture.now names.now.folder.now m) m (S.files shelf.new) (O.written out.old) (O.written out.new) result) }
    // Where all was done, the report and the file are those of the script's course over both networks; each packet's legs are its
    // injections, each at the site to which the leg before was handed on; each leg is accounted for and arrives as in a run of its network
    // alone; and what is reported as delivered has crossed the networks of all its legs.
    ensures told { ForSome (S.files shelf.old) (λ m. ForSome (O.written out.old) (λ before.
        IsJoinTold names.now.first.now names.now.second.now names.now.joints.now names.now.script.now names.now.capture.now names.now.folder.now
        m before (S.files shelf.new) (O.written out.new) result)) }
    // A fault comes only where its count rose, or a read's over a sound shelf where an input isn't there; every other count is as
    // before.
    ensures cause { CausedBy (HasNone (join_answer names.now.first.now names.now.second.now names.now.joints.now
        names.now.script.now names.now.capture.now names.now.folder.now) (S.files shelf.old))
        (S.read_faults shelf.old, S.write_faults shelf.old, O.faults out.old)
        (S.read_faults shelf.new, S.write_faults shelf.new, O.faults out.new) result }
    ensures usage { result ≢ Outcome.Usage }
{
    match load(alloc, names, shelf) {
        Ok(Ok(inputs)) => {
            inputs.first.laws();
            inputs.second.laws();
            join_networks(alloc, inputs, names.folder, shelf, out)
        }
        Ok(Err(outcome)) => refuse(alloc, out, outcome),
        Err(DeviceBad::Failed) => Outcome::ReadFault,
        Err(DeviceBad::NoMemory) => Outcome::NoMemory,
    }
}
