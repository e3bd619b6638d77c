//! What is told of edges: the states of their sessions, and the routes that their VRFs hold.
ghost use Rattle.std.specs.Prelude.{◌≡◌, ◌+◌, ◌<◌, ℕ, false, filter, length, option_map};
ghost use Rattle.mn_ledger.specs.Prelude.{world_of, edge_of, bgp_state_of, HeldRoute, held, best, eligible, is_resolved, IsSettled, best_for, held_at};
ghost use Rattle.mn_vrf.specs.Vrf.{IsHeldAt};
ghost use Rattle.mn_settled_laws.specs.Routes.{eligible_of};
ghost use Rattle.mn_frame_laws.specs.Entries.{AreWays};
ghost use Rattle.mn_frame_laws.specs.Numbers.{labels_of};
ghost use Rattle.mn_pe.specs.Entries.{source_of, as_held as given_held};
ghost use Rattle.mn_routing_laws.specs.Sources.{as_held};
ghost use Rattle.mn_net.specs.Prelude.{given};

use crate::net::Net;
use mn_base::{NodeNo, VrfNo};
use mn_prefix::Prefix;
use mn_states::BgpState;
use mn_transport::MOST_NODES;
use mn_vrf::Source;

impl Net {
    /// How far an edge's session with a peer has come: Idle where none lives.
    pub fn bgp_state(&self, at: NodeNo, peer: NodeNo) -> BgpState
        requires works { self.now.failed ≡ false }
        requires at { at.0 < length self.now.topology.loopbacks }
        requires peer { peer.0 < length self.now.topology.loopbacks }
        ensures told { result ≡ bgp_state_of (world_of self.now.topology self.now.journal).config (world_of self.now.topology self.now.journal).peerings at.0 peer.0 }
    {
        self.routes.bgp_state(at, peer)
    }

    /// The best route of a VRF for an address, with its prefix: of those that take part, and of the longest prefix that contains it, the
    /// preferred one. In a settled network it is the best of those that the present configuration gives, whatever happened before.
    pub fn lookup(&self, vrf: VrfNo, address: u32) -> Option<(Prefix, Source)>
        requires works { self.now.failed ≡ false }
        requires vrf { vrf.0 < length self.now.topology.vrfs }
        ensures told { result ≡ option_map (as_held (labels_of self.now.topology self.now.journal))
            (best (eligible self.now.topology (world_of self.now.topology self.now.journal) (edge_of self.now.topology vrf.0) vrf.0 address) address) }
        ensures settled { IsSettled self.now.topology (world_of self.now.topology self.now.journal) →
            result ≡ option_map (as_held (labels_of self.now.topology self.now.journal))
            (best (eligible_of self.now.topology (world_of self.now.topology self.now.journal) (edge_of self.now.topology vrf.0) vrf.0 address) address) }
    {
        self.topology.laws();
        if !self.topology.resolve() {
            return self.routes.lookup(&self.topology, vrf, address);
        }
        let ways = self.ways_of(vrf);
        self.routes
            .lookup_among(&self.topology, vrf, address, &ways)
    }

    /// Of each node, by number, whether the edge of a VRF can send towards it.
    pub fn ways_of(&self, vrf: VrfNo) -> [bool; MOST_NODES]
        requires works { self.now.failed ≡ false }
        requires vrf { vrf.0 < length self.now.topology.vrfs }
        ensures { AreWays self.now.topology (world_of self.now.topology self.now.journal) (edge_of self.now.topology vrf.0) result }
    {
        self.topology.laws();
        let edge = self.topology.edge_of(vrf);
        self.transport.ways(&self.topology, edge)
    }

    /// Where the best of the resolved routes of a prefix comes from, of those that a VRF holds; `ways` are those of its edge.
    pub fn resolved_at(&self, vrf: VrfNo, prefix: Prefix, ways: &[bool]) -> Option<Source>
        requires works { self.now.failed ≡ false }
        requires vrf { vrf.0 < length self.now.topology.vrfs }
        ensures { AreWays self.now.topology (world_of self.now.topology self.now.journal) (edge_of self.now.topology vrf.0) ways.now →
            result ≡ option_map (λ (route : HeldRoute). source_of (given self.now.topology self.now.journal) route route.source)
            (best_for (filter (is_resolved self.now.topology (world_of self.now.topology self.now.journal) (edge_of self.now.topology vrf.0))
            (held self.now.topology (world_of self.now.topology self.now.journal).config (world_of self.now.topology self.now.journal).peerings (edge_of self.now.topology vrf.0) vrf.0)) prefix) }
    {
        self.topology.laws();
        let node = self.topology.edge_of(vrf);
        match self.routes.edge(node) {
            Some(edge) => edge.open_at(vrf, prefix, ways),
            None => None,
        }
    }

    /// The prefix at a place, from 0, among those that a VRF holds, with the best of its routes; prefixes go by address and
    /// then by length.
    pub fn held(&self, vrf: VrfNo, place: u32) -> Option<(Prefix, Source)>
        requires works { self.now.failed ≡ false }
        requires vrf { vrf.0 < length self.now.topology.vrfs }
        ensures told { result ≡ option_map (as_held (labels_of self.now.topology self.now.journal))
            (held_at (held self.now.topology (world_of self.now.topology self.now.journal).config (world_of self.now.topology self.now.journal).peerings (edge_of self.now.topology vrf.0) vrf.0) place) }
        ensures labels { result ≡ option_map (given_held (given self.now.topology self.now.journal))
            (held_at (held self.now.topology (world_of self.now.topology self.now.journal).config (world_of self.now.topology self.now.journal).peerings (edge_of self.now.topology vrf.0) vrf.0) place) }
    {
        self.topology.laws();
        let node = self.topology.edge_of(vrf);
        match self.routes.edge(node) {
            Some(edge) => edge.held(vrf, place),
            None => None,
        }
    }

    /// The prefix after one that a VRF holds, with the best of its routes.
    pub fn held_after(&self, vrf: VrfNo, last: Prefix) -> Option<(Prefix, Source)>
        requires works { self.now.failed ≡ false }
        requires vrf { vrf.0 < length self.now.topology.vrfs }
        ensures told { (place : ℕ) →
            IsHeldAt last (option_map (as_held (labels_of self.now.topology self.now.journal))
            (held_at (held self.now.topology (world_of self.now.topology self.now.journal).config (world_of self.now.topology self.now.journal).peerings (edge_of self.now.topology vrf.0) vrf.0) place)) →
            result ≡ option_map (as_held (labels_of self.now.topology self.now.journal))
            (held_at (held self.now.topology (world_of self.now.topology self.now.journal).config (world_of self.now.topology self.now.journal).peerings (edge_of self.now.topology vrf.0) vrf.0) (place + 1)) }
        ensures labels { (place : ℕ) →
            IsHeldAt last (option_map (given_held (given self.now.topology self.now.journal))
            (held_at (held self.now.topology (world_of self.now.topology self.now.journal).config (world_of self.now.topology self.now.journal).peerings (edge_of self.now.topology vrf.0) vrf.0) place)) →
            result ≡ option_map (given_held (given self.now.topology self.now.journal))
            (held_at (held self.now.topology (world_of self.now.topology self.now.journal).config (world_of self.now.topology self.now.journal).peerings (edge_of self.now.topology vrf.0) vrf.0) (place + 1)) }
    {
        self.topology.laws();
        let node = self.topology.edge_of(vrf);
        match self.routes.edge(node) {
            Some(edge) => edge.held_after(vrf, last),
            None => None,
        }
    }
}
