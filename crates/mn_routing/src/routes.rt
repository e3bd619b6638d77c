//! The routes, and what its edges and sessions are.
ghost use Rattle.std.specs.Prelude.{◌≡◌, ◌<◌, ℕ, true, List, None, Some, [], length, is_some, option_map, slice_index, slice_index_or, IfOk};
ghost use Rattle.mn_ledger.specs.Prelude.{Network, World, JournalEntry, edge_of, home_of, held, best, world_of, IsLawfulJournal, eligible};
ghost use Rattle.mn_routing.specs.Prelude.{Labelling, given, AreWays, destination_of, labels_of, Edge, IsItsFate, StandsAtEntry, IsWayOpen, IsBoundBelow, route_for, route_among, entered_at, entered_among, as_held, IsRoutes, bgp_state_by};

use crate::flying::Messages;
use mn_base::{NodeNo, SiteNo, VrfNo};
use mn_bgp_session::BgpSession;
use mn_pe::{Entered, Pe};
use mn_prefix::Prefix;
use mn_states::BgpState;
use mn_topo::Topology;
use mn_vrf::Source;
use std::alloc::{AllocError, Global};
use std::marker::Model;

/// The edges of a network, and their sessions.
///
/// Contracts see what each edge was told, each end of a session, and what is in flight with numbers and due ticks.
#[derive(Drop)]
pub struct Routes {
    pub(crate) alloc: Global,
    /// By node, none of a node that is no edge.
    pub(crate) edges: Vec<Option<Pe>>,
    /// By node and peer, none where no session lives.
    pub(crate) sessions: Vec<Vec<Option<BgpSession>>>,
    pub(crate) messages: Messages,
}

impl Model for Routes {
    ghost use Rattle.mn_routing_laws.specs.Routed.{Routed, HasChannels};

    ghost Value = { Routed };

    ghost use Rattle.mn_routing.specs.Inside.{routed_in};

    ghost view = { routed_in };

    ghost invariant = { λ r. HasChannels (routed_in r) r.messages.channels };
}

/// What becomes of a packet that a site of an edge sends.
fn enter_at(pe: &Pe, site: SiteNo, packet: &[u8]) -> Result<Entered, AllocError>
    ensures fate { IfOk result (λ entered. (topology : Network) (given : Labelling) (world : World) →
        StandsAtEntry pe.now.edge (route_for pe.now.edge site.0 (destination_of packet.now)) topology given world site.0 packet.now → IsItsFate topology given world site.0 packet.now entered) }
    ensures answer { IfOk result (λ entered. entered ≡ entered_at pe.now.edge site.0 packet.now) }
    ensures bytes { (i : ℕ) → slice_index packet.now i < 256 }
{
    match pe.enter(site, packet) {
        Ok(entered) => Ok(entered),
        Err(_) => Err(AllocError),
    }
}

/// The same by the routes that are open first.
fn enter_among_at(
    pe: &Pe,
    site: SiteNo,
    packet: &[u8],
    ways: &[bool],
) -> Result<Entered, AllocError>
    ensures fate { IfOk result (λ entered. (topology : Network) (given : Labelling) (world : World) →
        StandsAtEntry pe.now.edge (route_among pe.now.edge ways.now site.0 (destination_of packet.now)) topology given world site.0 packet.now → IsItsFate topology given world site.0 packet.now entered) }
    ensures answer { IfOk result (λ entered. entered ≡ entered_among pe.now.edge ways.now site.0 packet.now) }
    ensures bytes { (i : ℕ) → slice_index packet.now i < 256 }
{
    match pe.enter_among(site, packet, ways) {
        Ok(entered) => Ok(entered),
        Err(_) => Err(AllocError),
    }
}

impl Routes {
    /// BGP's messages in flight.
    pub fn messages(&self) -> &Messages
        ensures { result.now.items ≡ self.now.messages }
    {
        &self.messages
    }

    /// The edge at a node, none where the node is no edge.
    pub fn edge(&self, node: NodeNo) -> Option<&Pe>
        requires { node.0 < length self.now.edges }
        ensures { option_map (λ pe. pe.now) result ≡ slice_index_or self.now.edges node.0 None }
    {
        match &self.edges[usize::from(node.0)] {
            None => None,
            Some(pe) => Some(pe),
        }
    }

    /// The edge of a VRF, which is there.
    fn pe_of(&self, topology: &Topology, vrf: VrfNo) -> &Pe
        requires vrf { vrf.0 < length topology.now.vrfs }
        requires stands { (journal : List JournalEntry) × IsRoutes topology.now journal self.now }
        ensures { slice_index_or self.now.edges (edge_of topology.now vrf.0) None ≡ Some result.now }
    {
        topology.laws();
        let edge = topology.edge_of(vrf);
        let Some(pe) = self.edge(edge) else {
            unreachable!()
        };
        pe
    }

    /// How far an edge's session with a peer has come: Idle where none lives.
    pub fn bgp_state(&self, edge: NodeNo, peer: NodeNo) -> BgpState
        requires edge { edge.0 < length self.now.sessions }
        requires peer { peer.0 < length (slice_index_or self.now.sessions edge.0 []) }
        ensures { result ≡ bgp_state_by (slice_index_or (slice_index_or self.now.sessions edge.0 []) peer.0 None) }
    {
        match &self.sessions[usize::from(edge.0)][usize::from(peer.0)] {
            None => BgpState::Idle,
            Some(session) => session.state(),
        }
    }

    /// Whether an edge's session with a peer lives.
    pub fn lives(&self, edge: NodeNo, peer: NodeNo) -> bool
        requires edge { edge.0 < length self.now.sessions }
        requires peer { peer.0 < length (slice_index_or self.now.sessions edge.0 []) }
        ensures { result ≡ is_some (slice_index_or (slice_index_or self.now.sessions edge.0 []) peer.0 None) }
    {
        self.sessions[usize::from(edge.0)][usize::from(peer.0)].is_some()
    }

    /// The best route that a VRF holds for an address.
    pub fn lookup(&self, topology: &Topology, vrf: VrfNo, address: u32) -> Option<(Prefix, Source)>
        requires vrf { vrf.0 < length topology.now.vrfs }
        requires stands { (journal : List JournalEntry) × IsRoutes topology.now journal self.now }
        ensures best { (journal : List JournalEntry) (inputs : List (List ℕ)) → IsLawfulJournal topology.now journal inputs → IsRoutes topology.now journal self.now →
            result ≡ option_map (as_held (labels_of topology.now journal)) (best (held topology.now (world_of topology.now journal).config (world_of topology.now journal).peerings (edge_of topology.now vrf.0) vrf.0) address) }
    {
        topology.laws();
        self.pe_of(topology, vrf).lookup(vrf, address)
    }

    /// The best of the routes that take part where the topology resolves next hops, by the nodes towards which the VRF's edge can send.
    pub fn lookup_among(
        &self,
        topology: &Topology,
        vrf: VrfNo,
        address: u32,
        ways: &[bool],
    ) -> Option<(Prefix, Source)>
        requires vrf { vrf.0 < length topology.now.vrfs }
        requires stands { (journal : List JournalEntry) × IsRoutes topology.now journal self.now }
        ensures best { topology.now.resolve ≡ true → (journal : List JournalEntry) (inputs : List (List ℕ)) → IsLawfulJournal topology.now journal inputs → IsRoutes topology.now journal self.now →
            AreWays topology.now (world_of topology.now journal) (edge_of topology.now vrf.0) ways.now →
            result ≡ option_map (as_held (labels_of topology.now journal)) (best (eligible topology.now (world_of topology.now journal) (edge_of topology.now vrf.0) vrf.0 address) address) }
    {
        topology.laws();
        self.pe_of(topology, vrf).lookup_among(vrf, address, ways)
    }

    /// What becomes of a packet that a site sends, by the best route of all: it is the packet's fate where the way there is open, or the
    /// topology doesn't resolve next hops. The packet is copied once, cut to its total length.
    pub fn enter(
        &self,
        topology: &Topology,
        site: SiteNo,
        packet: &[u8],
    ) -> Result<Entered, AllocError>
        requires site { site.0 < length topology.now.sites }
        requires stands { (journal : List JournalEntry) × IsRoutes topology.now journal self.now }
        ensures fate { IfOk result (λ entered. (journal : List JournalEntry) (inputs : List (List ℕ)) → IsLawfulJournal topology.now journal inputs → IsRoutes topology.now journal self.now →
            IsWayOpen topology.now (world_of topology.now journal) (home_of topology.now site.0) entered →
            IsItsFate topology.now (given topology.now journal) (world_of topology.now journal) site.0 packet.now entered) }
        ensures node { (journal : List JournalEntry) (inputs : List (List ℕ)) → IsLawfulJournal topology.now journal inputs → IsRoutes topology.now journal self.now →
            IfOk result (λ entered. IsBoundBelow (length topology.now.loopbacks) entered) }
        ensures answer { IfOk result (λ entered. (edge : Edge) × (entered ≡ entered_at edge site.0 packet.now)) }
    {
        topology.laws();
        let pe = self.pe_of(topology, topology.vrf_of(site));
        enter_at(pe, site, packet)
    }

    /// The same where the topology resolves next hops, by the best of the routes that take part: it is the packet's fate where `ways` are
    /// the nodes towards which its edge can send.
    pub fn enter_among(
        &self,
        topology: &Topology,
        site: SiteNo,
        packet: &[u8],
        ways: &[bool],
    ) -> Result<Entered, AllocError>
        requires site { site.0 < length topology.now.sites }
        requires stands { (journal : List JournalEntry) × IsRoutes topology.now journal self.now }
        ensures fate { topology.now.resolve ≡ true → IfOk result (λ entered. (journal : List JournalEntry) (inputs : List (List ℕ)) → IsLawfulJournal topology.now journal inputs → IsRoutes topology.now journal self.now →
            AreWays topology.now (world_of topology.now journal) (home_of topology.now site.0) ways.now →
            IsItsFate topology.now (given topology.now journal) (world_of topology.now journal) site.0 packet.now entered) }
        ensures answer { IfOk result (λ entered. (edge : Edge) × (entered ≡ entered_among edge ways.now site.0 packet.now)) }
    {
        topology.laws();
        let pe = self.pe_of(topology, topology.vrf_of(site));
        enter_among_at(pe, site, packet, ways)
    }
}
