//! A frame comes to a node, which forwards it by its table.
ghost use Rattle.std.specs.Prelude.{◌≡◌, ◌≢◌, ◌<◌, ◌≤◌, ◌+◌, ◌*◌, ◌^◌, ℕ, List, true, length, slice_get, is_some, IsSome, IfSome};
ghost use Rattle.std.specs.List.{All};
ghost use Rattle.mn_ledger.specs.Prelude.{receiver, Dir, are_joined, Leads, wiring_of, channel, Token, Packets, arrive, packets_after, World};
ghost use Rattle.mn_transit.specs.Prelude.{on_channel, without, carried_ttl, sent, Labelling, AreMapped, TableStands, path_of};
ghost use Rattle.mn_topo.specs.declared.steps.Step.TheVariants as Step;
ghost use Rattle.mn_transit.specs.Moving.{bytes_in, HasPlace, MayFly, CountsOn};
ghost use Rattle.mn_transit.specs.Stands.{IsFlown, StandsFor, Makes};

use crate::flown::Flown;
use crate::transit::Transit;
use mn_base::{LinkNo, NodeNo};
use mn_drops::Rule;
use mn_flight::Clock;
use mn_ledger::Verdict;
use mn_lfib::{Forwarded, Lfib};
use mn_topo::Topology;
use mn_wiring::{Dir, channel_of};

/// The direction in which a link leads from one node to another, if it does.
fn direction_along(topology: &Topology, link: LinkNo, from: NodeNo, to: NodeNo) -> Option<Dir>
    ensures leads { IfSome result (λ dir. Leads topology.now from.0 to.0 link.0 dir) }
    ensures found { (dir : Dir) → Leads topology.now from.0 to.0 link.0 dir → IsSome result }
{
    let ends = topology.links().get(usize::from(link.0))?;
    if ends.a == from && ends.b == to {
        Some(Dir::Forth)
    } else if ends.b == from && ends.a == to {
        Some(Dir::Back)
    } else {
        None
    }
}

impl Transit {
    /// The link that joins two nodes, and the direction from the first: the one over which a packet went on from there last, where it is
    /// that one, so that few packets ask the topology.
    fn way(&mut self, topology: &Topology, node: NodeNo, next: NodeNo) -> Option<(LinkNo, Dir)>
        ensures leads { IfSome result (λ found. Leads topology.now node.0 next.0 found.0.0 found.1) }
        ensures found { is_some result ≡ are_joined topology.now.links node.0 next.0 }
        ensures same { self.new ≡ self.old }
    {
        let at = usize::from(node.0);
        if let Some(last) = self.ways.get(at) {
            if let Some(dir) = direction_along(topology, *last, node, next) {
                return Some((*last, dir));
            }
        }
        let found = topology.link_of(node, next)?;
        if let Some(last) = self.ways.get_mut(at) {
            *last = found.0;
        }
        Some(found)
    }

    /// A packet of which no frame flies goes on to a neighbour. True where there is a link to it.
    pub(crate) fn hop(
        &mut self,
        topology: &Topology,
        node: NodeNo,
        next: NodeNo,
        flown: Flown,
        clock: Clock,
    ) -> bool
        requires may { MayFly topology.now clock.tick clock.number flown self.old }
        ensures stands { (given : Labelling) (packets : Packets) (token : Token) →
            StandsFor topology.now given self.old packets → IsFlown topology.now given next.0 flown token → are_joined topology.now.links node.0 next.0 ≡ true →
            (link : ℕ) × (dir : Dir) × Leads topology.now node.0 next.0 link dir × StandsFor topology.now given self.new (sent packets token link dir) }
        ensures made { Makes topology.now clock.tick clock.number self.old.flying self.new.flying result }
        ensures counts { CountsOn self.old self.new 0 0 (length flown.frame.packet) }
    {
        let Some((link, dir)) = self.way(topology, node, next) else {
            return false;
        };
        self.send(topology, link, dir, flown, clock);
        true
    }

    /// A packet of which no frame flies comes to a node, which forwards its frame by its table. True where it flies on.
    pub(crate) fn arrive(
        &mut self,
        topology: &Topology,
        table: &Lfib,
        node: NodeNo,
        flown: Flown,
        clock: Clock,
    ) -> bool
        requires node { node.0 < length topology.now.loopbacks }
        requires place { HasPlace topology.now clock.tick clock.number flown.packet self.old }
        requires hops { carried_ttl flown.frame ≤ (path_of self.old.paths flown.packet).room + 1 }
        requires entry { 0 < length flown.frame.entries }
        requires copies { self.old.copies + 1 < 2 ^ 32 }
        ensures stands { (given : Labelling) (world : World) (packets : Packets) (token : Token) →
            AreMapped topology.now given world → TableStands topology.now given world node.0 table.now → StandsFor topology.now given self.old packets →
            IsFlown topology.now given node.0 flown token →
            StandsFor topology.now given self.new (arrive topology.now world packets token node.0) }
        ensures made { Makes topology.now clock.tick clock.number self.old.flying self.new.flying result }
        ensures counts { CountsOn self.old self.new 0 1 (length flown.frame.packet) }
    {
        topology.laws();
        let Flown { packet, mut frame } = flown;
        let ttl = frame.top().ttl.saturating_sub(1);
        match table.forward(&mut frame) {
            Forwarded::Drop(rule) => {
                self.judge(packet, Verdict::Dropped { rule, node });
                false
            }
            Forwarded::Site(site) => {
                self.deliver(packet, site, ttl, frame);
                false
            }
            Forwarded::Next(next) => {
                self.hop(topology, node, next, Flown { packet, frame }, clock)
            }
        }
    }

    /// Takes the packet at a place of a direction of a link to the node that it leads to, which forwards its frame by its
    /// table. It takes no memory, and changes the frame in place.
    ///
    /// True where the packet flies on, with the clock's number.
    pub fn carry(
        &mut self,
        topology: &Topology,
        table: &Lfib,
        link: LinkNo,
        dir: Dir,
        place: u32,
        clock: Clock,
    ) -> bool
        requires link { link.0 < length topology.now.links }
        requires there { place < length (on_channel (channel link.0 dir) self.old.flying) }
        requires channels { self.old.channels ≡ 2 * length topology.now.links }
        requires clock { clock.tick ≤ 2 ^ 63 }
        requires number { All (λ item. item.number < clock.number) self.old.flying }
        requires bytes { bytes_in self.old.flying < 2 ^ 32 }
        requires copies { self.old.copies + 1 < 2 ^ 32 }
        ensures moved { (given : Labelling) (world : World) (packets : Packets) (bytes : List ℕ) →
            AreMapped topology.now given world → TableStands topology.now given world (receiver (wiring_of topology.now) link.0 dir) table.now →
            StandsFor topology.now given self.old packets → StandsFor topology.now given self.new (packets_after topology.now world packets (Step.Carry link dir place) bytes) }
        ensures made { Makes topology.now clock.tick clock.number (without (slice_get (on_channel (channel link.0 dir) self.old.flying) place) self.old.flying) self.new.flying result }
        ensures counts { CountsOn self.old self.new 0 1 0 }
    {
        let node = topology.receiver(link, dir);
        let at = channel_of(link, dir);
        self.begin();
        let Some(taken) = self.take(at, place) else {
            return false;
        };
        let flown = taken.item;
        self.visit(flown.packet, node);
        self.arrive(topology, table, node, flown, clock)
    }
}
