//! As time goes on, frames that are too old end.
ghost use Rattle.std.specs.Prelude.{◌≡◌, ◌<◌, ◌≤◌, ◌^◌, ℕ, not, filter, length, IfSome};
ghost use Rattle.mn_transit.specs.Prelude.{channel, IsFlight, on_channel, without, Labelling, key_of, keys_in, is_past, keys_in_time, FlyInOrder};
ghost use Rattle.mn_ledger.specs.Prelude.{Packets, expire, expire_on};
ghost use Rattle.mn_transit.specs.Aging.{DueAsSent, limit_on, first_before, ends_on};
ghost use Rattle.mn_transit.specs.Moving.{CountsOn};
ghost use Rattle.mn_transit.specs.Stands.{StandsFor};

use crate::flown::Flown;
use crate::transit::Transit;
use mn_base::LinkNo;
use mn_drops::Rule;
use mn_flight::{Flight, Item};
use mn_ledger::Verdict;
use mn_topo::Topology;
use mn_wiring::{Dir, channel_of};

/// The tick before which a frame is due that was sent on a link longer ago than the link's life: it is due the link's delay
/// after it was sent.
fn limit_on(topology: &Topology, link: LinkNo, clock: u64) -> u64
    requires link { link.0 < length topology.now.links }
    requires clock { clock ≤ 2 ^ 63 }
    ensures { result ≡ limit_on topology.now clock link.0 }
{
    let ends = &topology.links()[usize::from(link.0)];
    (clock + u64::from(ends.delay)).saturating_sub(u64::from(ends.life))
}

impl Transit {
    /// Takes the first frame of a channel out of flight, where it is due before a tick.
    fn take_before(&mut self, at: u32, limit: u64) -> Option<Item<Flown>>
        ensures taken { result ≡ first_before limit (on_channel at self.old.flying) }
        ensures left { self.new ≡ record self.old { flying = without result self.old.flying; spare = self.new.spare } }
        ensures flight { IsFlight self.old.channels self.old.flying }
        ensures injected { IfSome result (λ item. item.item.packet < length self.new.verdicts) }
    {
        let due = self.frames.first(at)?.due;
        if due >= limit {
            return None;
        }
        self.take(at, 0)
    }

    /// Ends the frames of a direction of a link that were sent longer ago than the link's life, at the node that sent them.
    fn expire_on(&mut self, topology: &Topology, link: LinkNo, dir: Dir, clock: u64)
        requires link { link.0 < length topology.now.links }
        requires clock { clock ≤ 2 ^ 63 }
        requires order { FlyInOrder (keys_in self.old.flying) }
        ensures moved { (given : Labelling) (packets : Packets) → StandsFor topology.now given self.old packets → DueAsSent topology.now self.old.flying packets →
            StandsFor topology.now given self.new (expire_on topology.now clock link.0 dir packets) × DueAsSent topology.now self.new.flying (expire_on topology.now clock link.0 dir packets) }
        ensures left { self.new.flying ≡ filter (λ item. not (ends_on topology.now clock (channel link.0 dir) (key_of item))) self.old.flying }
        ensures order { FlyInOrder (keys_in self.new.flying) }
        ensures counts { CountsOn self.old self.new 0 0 0 }
    {
        let from = topology.sender(link, dir);
        let at = channel_of(link, dir);
        let limit = limit_on(topology, link, clock);
        'frames: while let Some(taken) = self.take_before(at, limit) {
            let rule = Rule::Overdue;
            self.judge(taken.item.packet, Verdict::Dropped { rule, node: from });
        }
    }

    /// Ends the frames of each direction that were sent longer ago than their link's life.
    ///
    /// Of the frames that fly on it looks at the first of each direction alone: where none is due before one that was sent
    /// earlier on its link, those that end come first.
    fn expire_each(&mut self, topology: &Topology, clock: u64)
        requires clock { clock ≤ 2 ^ 63 }
        requires order { FlyInOrder (keys_in self.old.flying) }
        ensures moved { (given : Labelling) (packets : Packets) → StandsFor topology.now given self.old packets → DueAsSent topology.now self.old.flying packets →
            StandsFor topology.now given self.new (expire topology.now clock (record packets { clock = clock })) }
        ensures left { keys_in self.new.flying ≡ keys_in_time topology.now clock (keys_in self.old.flying) }
        ensures stay { self.new.flying ≡ filter (λ item. not (is_past topology.now clock (key_of item))) self.old.flying }
        ensures counts { CountsOn self.old self.new 0 0 0 }
    {
        topology.laws();
        'directions: for number in 0..topology.links().len() {
            let link = LinkNo(number as u16);
            self.expire_on(topology, link, Dir::Forth, clock);
            self.expire_on(topology, link, Dir::Back, clock);
        }
    }

    /// Time has gone on to a tick: each frame that was sent on its link longer ago than the link's life ends, at the node that
    /// sent it, and the others fly on.
    ///
    /// It takes no memory, and where nothing flies no look at a link.
    pub fn expire(&mut self, topology: &Topology, clock: u64)
        requires clock { clock ≤ 2 ^ 63 }
        requires order { FlyInOrder (keys_in self.old.flying) }
        ensures moved { (given : Labelling) (packets : Packets) → StandsFor topology.now given self.old packets → DueAsSent topology.now self.old.flying packets →
            StandsFor topology.now given self.new (expire topology.now clock (record packets { clock = clock })) }
        ensures left { keys_in self.new.flying ≡ keys_in_time topology.now clock (keys_in self.old.flying) }
        ensures stay { self.new.flying ≡ filter (λ item. not (is_past topology.now clock (key_of item))) self.old.flying }
        ensures counts { CountsOn self.old self.new 0 0 0 }
    {
        if self.in_flight() > 0 {
            self.expire_each(topology, clock);
        }
    }
}
