//! What becomes of a packet that a site sends, and the way out for it.
ghost use Rattle.std.specs.Prelude.{◌≡◌, ◌<◌, ◌&&◌, ℕ, List, length, IfOk};
ghost use Rattle.mn_ledger.specs.Prelude.{JournalEntry, world_of, IsLawfulJournal, home_of};
ghost use Rattle.mn_pe.specs.Entries.{IsItsFate, IsBoundBelow};
ghost use Rattle.mn_transit.specs.Entering.{IsWayOut, OuterFits, HasRoom};
ghost use Rattle.mn_transport_laws.specs.Stands.{IsTransport};
ghost use Rattle.mn_routing_laws.specs.Routed.{IsRoutes};
ghost use Rattle.mn_net_laws.specs.Bound.{is_cut_off};
ghost use Rattle.mn_net.specs.Prelude.{given};

use mn_base::{NodeNo, SiteNo};
use mn_pe::Entered;
use mn_routing::Routes;
use mn_topo::Topology;
use mn_transport::Transport;
use std::alloc::AllocError;

/// A packet that enters, and what its node knows of the way out for it: the next hop, and the label to be sent there, none for implicit
/// null.
#[derive(Drop)]
pub(crate) struct Entry {
    pub(crate) entered: Entered,
    pub(crate) outer: Option<(NodeNo, Option<u32>)>,
}

/// What a node knows of the way out for a packet that enters there.
fn way_out(
    transport: &Transport,
    topology: &Topology,
    node: NodeNo,
    entered: &Entered,
) -> Option<(NodeNo, Option<u32>)>
    requires node { node.0 < length topology.now.loopbacks }
    requires edge { IsBoundBelow (length topology.now.loopbacks) entered.now }
    requires stands { (journal : List JournalEntry) × IsTransport topology.now journal transport.now }
    ensures told { (journal : List JournalEntry) → IsTransport topology.now journal transport.now →
        IsWayOut topology.now (given topology.now journal) (world_of topology.now journal) node.0 entered.now result }
    ensures fits { OuterFits result }
{
    match entered {
        Entered::Tunnel { edge, .. } => transport.outer(topology, node, *edge),
        Entered::Drop(_) | Entered::Local(_, _) => None,
    }
}

/// Whether a packet is bound to another edge, its node has no way there, and the topology resolves next hops.
fn looks_again(topology: &Topology, entered: &Entered, outer: Option<(NodeNo, Option<u32>)>) -> bool
    ensures { result ≡ (is_cut_off entered.now outer && topology.now.resolve) }
{
    match entered {
        Entered::Tunnel { .. } => outer.is_none() && topology.resolve(),
        Entered::Drop(_) | Entered::Local(_, _) => false,
    }
}

/// By the best route of all; only where a packet would be cut off, and the topology resolves next hops, by the best of those that take
/// part.
pub(crate) fn enter(
    routes: &Routes,
    transport: &Transport,
    topology: &Topology,
    site: SiteNo,
    packet: &[u8],
) -> Result<Entry, AllocError>
    requires site { site.0 < length topology.now.sites }
    requires stands { (journal : List JournalEntry) × (inputs : List (List ℕ)) × IsLawfulJournal topology.now journal inputs ×
        IsRoutes topology.now journal routes.now × IsTransport topology.now journal transport.now }
    ensures fate { IfOk result (λ entry. (journal : List JournalEntry) (inputs : List (List ℕ)) → IsLawfulJournal topology.now journal inputs →
        IsRoutes topology.now journal routes.now → IsTransport topology.now journal transport.now →
        IsItsFate topology.now (given topology.now journal) (world_of topology.now journal) site.0 packet.now entry.entered) }
    ensures way { IfOk result (λ entry. (journal : List JournalEntry) → IsTransport topology.now journal transport.now →
        IsWayOut topology.now (given topology.now journal) (world_of topology.now journal) (home_of topology.now site.0) entry.entered entry.outer) }
    ensures room { IfOk result (λ entry. HasRoom entry.entered) }
    ensures label { IfOk result (λ entry. OuterFits entry.outer) }
{
    topology.laws();
    let node = topology.home_of(site);
    let entered = routes.enter(topology, site, packet)?;
    let outer = way_out(transport, topology, node, &entered);
    if !looks_again(topology, &entered, outer) {
        return Ok(Entry { entered, outer });
    }
    let ways = transport.ways(topology, node);
    let resolved = routes.enter_among(topology, site, packet, &ways)?;
    let way = way_out(transport, topology, node, &resolved);
    Ok(Entry {
        entered: resolved,
        outer: way,
    })
}
