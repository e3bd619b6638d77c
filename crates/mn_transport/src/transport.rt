//! The transport, and what its nodes and sessions are.
ghost use Rattle.std.specs.Prelude.{◌≡◌, ◌≢◌, ◌<◌, ◌^◌, List, length, slice_get, slice_index, Some};
ghost use Rattle.mn_transport.specs.Prelude.{greatest, is_link_up, outer_for, AreWays, given, FitsOuter, IsTransport};
ghost use Rattle.mn_ledger.specs.Prelude.{JournalEntry, world_of, wiring_of, known, offers};

use crate::flying::{Messages, Notices};
use mn_base::{LinkNo, NodeNo};
use mn_linkdb::LinkDb;
use mn_lsr::Lsr;
use mn_topo::Topology;
use std::marker::Model;

/// The most nodes of a topology.
pub const MOST_NODES: usize = 256;

/// The transport of all nodes.
///
/// Contracts see each node, how often each link was changed, the switches of LDP, the labels of the sites, and what is in flight with
/// numbers and due ticks.
#[derive(Drop)]
pub struct Transport {
    pub(crate) nodes: Vec<Lsr>,
    pub(crate) changes: LinkDb,
    /// By link, whether LDP is switched on for it.
    pub(crate) switches: Vec<bool>,
    /// By site, the label of its last attachment.
    pub(crate) labels: Vec<u32>,
    pub(crate) notices: Notices,
    pub(crate) messages: Messages,
}

impl Model for Transport {
    ghost use Rattle.mn_transport_laws.specs.Carried.{Carried, HasChannels};

    ghost Value = { Carried };

    ghost use Rattle.mn_transport.specs.Inside.{carried_in};

    ghost view = { carried_in };

    ghost invariant = { λ t. HasChannels (carried_in t) t.notices.channels t.messages.channels };
}

/// A node's labels have 20 bits each. It does nothing.
pub(crate) fn labels_fit(node: &Lsr)
    ensures { greatest node.now.labels.given < 2 ^ 20 }
{
    let _given = node.labels().given();
}

impl Transport {
    /// A node's transport.
    pub fn node(&self, node: NodeNo) -> &Lsr
        requires { node.0 < length self.now.nodes }
        ensures { slice_get self.now.nodes node.0 ≡ Some result.now }
    {
        &self.nodes[usize::from(node.0)]
    }

    /// How often a link came up or went down.
    pub fn link_changes(&self, link: LinkNo) -> u32
        requires { link.0 < length self.now.changes }
        ensures { result ≡ slice_index self.now.changes link.0 }
    {
        self.changes.changes(link)
    }

    /// Whether a link is up.
    pub fn is_link_up(&self, link: LinkNo) -> bool
        requires { link.0 < length self.now.changes }
        ensures { result ≡ is_link_up self.now.changes link.0 }
    {
        self.changes.changes(link) % 2 == 1
    }

    /// Whether LDP is switched on for a link.
    pub fn ldp_on(&self, link: LinkNo) -> bool
        requires { link.0 < length self.now.switches }
        ensures { slice_get self.now.switches link.0 ≡ Some result }
    {
        self.switches[usize::from(link.0)]
    }

    /// The next hop of a node towards another, and the label to be sent there, none for implicit null.
    pub fn outer(
        &self,
        topology: &Topology,
        node: NodeNo,
        edge: NodeNo,
    ) -> Option<(NodeNo, Option<u32>)>
        requires node { node.0 < length topology.now.loopbacks }
        requires edge { edge.0 < length topology.now.loopbacks }
        requires stands { (journal : List JournalEntry) × IsTransport topology.now journal self.now }
        ensures told { (journal : List JournalEntry) → IsTransport topology.now journal self.now →
            result ≡ outer_for topology.now (given topology.now journal) (world_of topology.now journal) node.0 edge.0 }
        ensures fits { FitsOuter result }
    {
        topology.laws();
        self.nodes[usize::from(node.0)].outer(edge)
    }

    /// Whether a node can send towards another, or is that node: it offers its FEC.
    fn offers(&self, topology: &Topology, node: NodeNo, to: NodeNo) -> bool
        requires node { node.0 < length topology.now.loopbacks }
        requires to { to.0 < length topology.now.loopbacks }
        requires stands { (journal : List JournalEntry) × IsTransport topology.now journal self.now }
        ensures { (journal : List JournalEntry) → IsTransport topology.now journal self.now →
            result ≡ offers (wiring_of topology.now) (known topology.now (world_of topology.now journal) node.0) node.0 to.0 }
    {
        let way = self.outer(topology, node, to);
        node.0 == to.0 || way.is_some()
    }

    /// Of each node, by number, whether a node can send towards it. It takes no memory.
    pub fn ways(&self, topology: &Topology, node: NodeNo) -> [bool; MOST_NODES]
        requires node { node.0 < length topology.now.loopbacks }
        requires stands { (journal : List JournalEntry) × IsTransport topology.now journal self.now }
        ensures { (journal : List JournalEntry) → IsTransport topology.now journal self.now →
            AreWays topology.now (world_of topology.now journal) node.0 result }
    {
        topology.laws();
        let mut ways = [false; MOST_NODES];
        for to in 0..topology.nodes().len() {
            ways[to] = self.offers(topology, node, NodeNo(to as u16));
        }
        ways
    }

    /// The notices in flight.
    pub fn notices(&self) -> &Notices
        ensures { result.now.items ≡ self.now.notices }
    {
        &self.notices
    }

    /// The PDUs in flight.
    pub fn messages(&self) -> &Messages
        ensures { result.now.items ≡ self.now.messages }
    {
        &self.messages
    }
}
