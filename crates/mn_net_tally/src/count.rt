//! What a step changes of the counts.
ghost use Rattle.std.specs.Prelude.{◌≡◌, ◌<◌, ◌≤◌, ◌+◌, ◌*◌, ℕ, length, slice_index};
ghost use Rattle.mn_base.specs.Limits.{most_steps};
ghost use Rattle.mn_flight.specs.Flying.{IsFlight};
ghost use Rattle.mn_net_tally.specs.Tallies.{frame_of, after_frame, after_static, HasStatic};

use crate::tally::Tally;
use mn_topo::{Step, Topology};
use mn_transit::Transit;

/// Counts the frame of a number, if it flies: the frame that a step sent.
pub fn count_frame(tally: &mut Tally, topology: &Topology, transit: &Transit, number: u64)
    requires flight { IsFlight (2 * length topology.now.links) transit.now.flying }
    requires each { length tally.old.sent ≡ 2 * length topology.now.links }
    requires few { (c : ℕ) → c < 2 * length topology.now.links → slice_index tally.old.sent c < most_steps }
    requires room { 0 < tally.old.spare }
    ensures counted { tally.new ≡ record (after_frame topology.now (frame_of number transit.now.flying) tally.old) { spare = tally.new.spare } }
    ensures spare { tally.old.spare ≤ tally.new.spare + 1 }
{
    let Some(item) = transit.frame(number) else {
        return;
    };
    let loss = topology.links()[(item.channel / 2) as usize].loss;
    tally.send(loss, item.channel, item.number);
}

/// Counts a static route that a step brings, or one that it takes away.
pub fn count_static(tally: &mut Tally, step: &Step)
    requires { HasStatic step.now tally.old }
    ensures { tally.new ≡ after_static step.now tally.old }
{
    match *step {
        Step::AddRoute(_, _) => tally.add_static(),
        Step::DelRoute(_, _) => tally.del_static(),
        _ => {}
    }
}
