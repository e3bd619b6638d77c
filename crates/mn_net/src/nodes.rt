//! What is told of links, and of the transport of nodes.
ghost use Rattle.std.specs.Prelude.{◌≡◌, ◌≢◌, ◌<◌, ◌≤◌, ℕ, List, false, not, length, map, option_map};
ghost use Rattle.mn_ledger.specs.Prelude.{most_steps, links_of, sender, wiring_of, world_of, packets_of, GoesForward, view_of, tick_from, IsSettled};
ghost use Rattle.mn_linkdb.specs.Trees.{IsTree};
ghost use Rattle.mn_labels.specs.Labels.{IsTold};
ghost use Rattle.mn_frame_laws.specs.Resting.{rested_of};
ghost use Rattle.mn_transport_laws.specs.Stands.{IsNode};
ghost use Rattle.mn_net_laws.specs.Told.{hop_to, state_at, ChangedOnceFree};
ghost use Rattle.mn_net.specs.Prelude.{given, StandsFor};
ghost use Rattle.mn_net.specs.Settled.{IsByLinks};

use crate::net::Net;
use mn_base::{LinkNo, NodeNo};
use mn_labels::Given;
use mn_linkdb::{Tree, View};
use mn_lsr::Lsr;
use mn_states::LdpState;
use mn_wiring::Dir;

/// The node that a way leads to next.
fn next_hop(way: Option<(NodeNo, Option<u32>)>) -> Option<NodeNo>
    ensures { result ≡ option_map (λ hop. hop.0) way }
{
    match way {
        Some((hop, _)) => Some(hop),
        None => None,
    }
}

impl Net {
    /// Whether no step has run out of memory. What follows is told of a network that works.
    pub fn works(&self) -> bool
        ensures { result ≡ not self.now.failed }
    {
        !self.failed
    }

    /// What holds of every network that works: at most 4,000,000 steps were done, and so no more packets were injected, and the
    /// clock isn't behind the last step, and went on from it past no frame that was due.
    pub fn laws(&self)
        ensures steps { self.now.failed ≡ false → length self.now.journal ≤ most_steps }
        ensures packets { self.now.failed ≡ false → length self.now.moving.verdicts ≤ most_steps }
        ensures late { self.now.failed ≡ false → tick_from 0 self.now.journal ≤ self.now.tick }
        ensures forward { (inputs : List (List ℕ)) → StandsFor self.now inputs → GoesForward self.now.topology (tick_from 0 self.now.journal) (packets_of self.now.topology self.now.journal inputs) self.now.tick }
    {
        self.topology.laws();
    }

    /// A node's transport: what it has learned and received, the labels that it gave and received, and where its labels lead.
    pub fn transport(&self, node: NodeNo) -> &Lsr
        requires works { self.now.failed ≡ false }
        requires node { node.0 < length self.now.topology.loopbacks }
        ensures told { IsNode self.now.topology (given self.now.topology self.now.journal) (rested_of self.now.topology self.now.journal) (world_of self.now.topology self.now.journal) node.0 result.now }
    {
        self.transport.node(node)
    }

    /// How often a link came up or went down.
    pub fn link_changes(&self, link: LinkNo) -> u32
        requires works { self.now.failed ≡ false }
        requires link { link.0 < length self.now.topology.links }
        ensures told { result ≡ (world_of self.now.topology self.now.journal).views.changes link.0 }
    {
        self.transport.link_changes(link)
    }

    /// Whether a link is up.
    pub fn link_up(&self, link: LinkNo) -> bool
        requires works { self.now.failed ≡ false }
        requires link { link.0 < length self.now.topology.links }
        ensures told { result ≡ (world_of self.now.topology self.now.journal).config.is_up link.0 }
    {
        self.transport.is_link_up(link)
    }

    /// How many changes of each link a node has learned.
    pub fn view(&self, node: NodeNo) -> &View
        requires works { self.now.failed ≡ false }
        requires node { node.0 < length self.now.topology.loopbacks }
        ensures ends { result.now.ends ≡ self.now.topology.links }
        ensures told { result.now.counts ≡ map ((world_of self.now.topology self.now.journal).views.learned node.0) (links_of (wiring_of self.now.topology)) }
    {
        self.transport.node(node).view()
    }

    /// The least walks from a node over the links that are up in its view.
    pub fn tree(&self, node: NodeNo) -> &Tree
        requires works { self.now.failed ≡ false }
        requires node { node.0 < length self.now.topology.loopbacks }
        ensures told { IsTree (wiring_of self.now.topology) (view_of (wiring_of self.now.topology) (world_of self.now.topology self.now.journal).views node.0) node.0 result.now }
    {
        self.transport.node(node).tree()
    }

    /// The next hop from a node towards another where it can send there, and none to itself: in a settled network exactly where
    /// a walk over links that are up leads there, by one of least cost.
    pub fn hop(&self, node: NodeNo, edge: NodeNo) -> Option<NodeNo>
        requires works { self.now.failed ≡ false }
        requires node { node.0 < length self.now.topology.loopbacks }
        requires edge { edge.0 < length self.now.topology.loopbacks }
        ensures told { result ≡ hop_to self.now.topology (world_of self.now.topology self.now.journal) node.0 edge.0 }
        // In a settled network it is what the present links give, whatever happened before.
        ensures settled { node.0 ≢ edge.0 → IsSettled self.now.topology (world_of self.now.topology self.now.journal) →
            IsByLinks self.now.topology (world_of self.now.topology self.now.journal) node.0 edge.0 result }
    {
        self.topology.laws();
        next_hop(self.transport.outer(&self.topology, node, edge))
    }

    /// The labels that a node gave, in the order of giving. An attachment keeps its label for good, a FEC until it gives it up.
    pub fn labels(&self, node: NodeNo) -> &[Given]
        requires works { self.now.failed ≡ false }
        requires node { node.0 < length self.now.topology.loopbacks }
        ensures told { result.now ≡ (given self.now.topology self.now.journal node.0).given }
        // No label means two things, neither two FECs nor a FEC and an attachment.
        ensures one { IsTold (given self.now.topology self.now.journal node.0) }
        // And what a label means has changed in the last step only where it was free before it.
        ensures free { ChangedOnceFree self.now.topology self.now.journal node.0 }
    {
        self.topology.laws();
        self.transport.node(node).labels().given()
    }

    /// The state of the end of a link's LDP session that sends in a direction, and none where no session lives.
    pub fn ldp_state(&self, link: LinkNo, dir: Dir) -> Option<LdpState>
        requires works { self.now.failed ≡ false }
        requires link { link.0 < length self.now.topology.links }
        ensures told { result ≡ state_at self.now.topology (world_of self.now.topology self.now.journal) link.0 (sender (wiring_of self.now.topology) link.0 dir) }
    {
        let end = self.topology.sender(link, dir);
        self.transport.node(end).session_state(link)
    }
}
