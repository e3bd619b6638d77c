//! A packet enters.
ghost use Rattle.std.specs.Prelude.{◌≡◌, ◌≢◌, ◌<◌, ◌≤◌, ◌+◌, ◌*◌, ◌^◌, ℕ, List, true, length, max, IsTrue, IfOk, OnOk, OnErr, IsErr};
ghost use Rattle.std.specs.List.{All};
ghost use Rattle.mn_ledger.specs.Prelude.{most_steps, ttl_of, Packets, bound, hop_on, packets_after, home_of, HeldRoute, World};
ghost use Rattle.mn_transit.specs.Prelude.{is_packet, carried_ttl, with_outer, IsPushed, outer_for, Labelling, AreMapped, IsItsFate, path_of};
ghost use Rattle.mn_drops.specs.declared.drops.Rule.TheVariants as Rule;
ghost use Rattle.mn_topo.specs.declared.steps.Step.TheVariants as Step;
ghost use Rattle.mn_transit.specs.Entering.{IsWayOut, HasRoom, IsLabel, OuterFits, IfTunnel, size_of};
ghost use Rattle.mn_transit.specs.Moving.{bytes_in, HoldsHops, MayFly, CountsOn};
ghost use Rattle.mn_transit.specs.Stands.{StandsFor, Makes};

use crate::flown::Flown;
use crate::transit::Transit;
use mn_base::{NodeNo, SiteNo};
use mn_drops::Rule;
use mn_flight::Clock;
use mn_ipv4::check;
use mn_ledger::Verdict;
use mn_pe::Entered;
use mn_stack::Frame;
use mn_topo::Topology;
use std::alloc::AllocError;

/// Pushes the label of the way out, if there is one, with the TTL of the entry below it.
fn push_outer(frame: &mut Frame, label: Option<u32>)
    requires entry { 0 < length frame.old.entries }
    requires room { 0 < frame.old.room }
    requires label { IsLabel label }
    ensures entries { frame.new.entries ≡ with_outer label frame.old.entries }
    ensures packet { frame.new.packet ≡ frame.old.packet }
    ensures entry { 0 < length frame.new.entries }
    ensures ttl { carried_ttl frame.new ≡ carried_ttl frame.old }
{
    if let Some(label) = label {
        let ttl = frame.top().ttl;
        frame.push(label, ttl);
    }
}

/// The TTL of a packet.
fn ttl_of(packet: &[u8]) -> u8
    requires { IsTrue (is_packet packet.now) }
    ensures { result ≡ ttl_of packet.now }
{
    match check(packet) {
        Ok(head) => head.ttl,
        Err(_) => 0,
    }
}

/// To how many more nodes at most the packet comes: one for each hop that its TTL leaves, and one at least where it flies.
fn nodes_ahead(entered: &Entered) -> u8
    requires { HasRoom entered.now }
    ensures { IfTunnel entered.now (λ frame. HoldsHops result frame) }
{
    match entered {
        Entered::Tunnel { frame, .. } => frame.top().ttl.max(1),
        Entered::Drop(_) | Entered::Local(_, _) => 0,
    }
}

impl Transit {
    /// A packet of which no frame flies leaves its edge for another, by the way out that the edge's node knows. True where
    /// it flies.
    fn depart(
        &mut self,
        topology: &Topology,
        node: NodeNo,
        outer: Option<(NodeNo, Option<u32>)>,
        flown: Flown,
        clock: Clock,
    ) -> bool
        requires may { MayFly topology.now clock.tick clock.number flown self.old }
        requires push { 0 < flown.frame.room }
        requires label { OuterFits outer }
        ensures stands { (given : Labelling) (world : World) (packets : Packets) (route : HeldRoute) (bytes : List ℕ) →
            node.0 < length topology.now.loopbacks → node.0 ≢ route.edge → AreMapped topology.now given world → outer ≡ outer_for topology.now given world node.0 route.edge → IsPushed topology.now given route bytes flown.frame →
            StandsFor topology.now given self.old packets →
            StandsFor topology.now given self.new (hop_on topology.now world packets (bound flown.packet route bytes) node.0 Rule.NoLsp) }
        ensures made { Makes topology.now clock.tick clock.number self.old.flying self.new.flying result }
        ensures counts { CountsOn self.old self.new 0 0 (length flown.frame.packet) }
    {
        topology.laws();
        let Flown { packet, mut frame } = flown;
        let Some((next, label)) = outer else {
            let rule = Rule::NoLsp;
            self.judge(packet, Verdict::Dropped { rule, node });
            return false;
        };
        push_outer(&mut frame, label);
        self.hop(topology, node, next, Flown { packet, frame }, clock)
    }

    /// A packet enters at a node, by what the edge there says of it and what the node says of the way out. This alone takes
    /// memory, also for the nodes to which the packet may come later. After an `Err` the packets are as before.
    ///
    /// True where the packet flies, with the clock's number.
    pub fn inject(
        &mut self,
        topology: &Topology,
        node: NodeNo,
        entered: Entered,
        outer: Option<(NodeNo, Option<u32>)>,
        clock: Clock,
    ) -> Result<bool, AllocError>
        requires node { node.0 < length topology.now.loopbacks }
        requires channels { self.old.channels ≡ 2 * length topology.now.links }
        requires clock { clock.tick ≤ 2 ^ 63 }
        requires number { All (λ item. item.number < clock.number) self.old.flying }
        requires bytes { bytes_in self.old.flying < 2 ^ 32 }
        requires few { length self.old.verdicts < most_steps }
        requires copies { self.old.copies + 1 < 2 ^ 32 }
        requires room { HasRoom entered }
        requires label { OuterFits outer }
        ensures moved { OnOk result ((given : Labelling) (world : World) (packets : Packets) (site : SiteNo) (number : ℕ) (bytes : List ℕ) →
            node.0 ≡ home_of topology.now site.0 → AreMapped topology.now given world → IsItsFate topology.now given world site.0 bytes entered → IsWayOut topology.now given world node.0 entered outer →
            StandsFor topology.now given self.old packets →
            StandsFor topology.now given self.new (packets_after topology.now world packets (Step.Inject site number) bytes)) }
        ensures made { IfOk result (λ made. Makes topology.now clock.tick clock.number self.old.flying self.new.flying made) }
        ensures counts { OnOk result (CountsOn self.old self.new 1 1 (size_of entered)) }
        ensures unmoved { OnErr result (self.new ≡ record self.old { spare = self.new.spare }) }
    {
        let room = nodes_ahead(&entered);
        let packet = self.one_more(node, room)?;
        self.begin();
        match entered {
            Entered::Drop(rule) => {
                self.judge(packet, Verdict::Dropped { rule, node });
                Ok(false)
            }
            Entered::Local(site, frame) => {
                let ttl = ttl_of(frame.packet());
                self.deliver(packet, site, ttl, frame);
                Ok(false)
            }
            Entered::Tunnel { frame, .. } => {
                Ok(self.depart(topology, node, outer, Flown { packet, frame }, clock))
            }
        }
    }
}
