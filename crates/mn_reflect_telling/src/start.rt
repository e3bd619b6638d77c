//! What there is at the start, when no session lives and nothing was received.
ghost use Rattle.std.specs.Prelude.{◌≡◌, ◌<◌, ◌≤◌, ◌++◌, ◌∷◌, [], length, map, take, drop, replicate, option_map, IfOk};
ghost use Rattle.mn_ledger.specs.Prelude.{nodes_of, wiring_of, sites_at, first_config};
ghost use Rattle.mn_edges.specs.Changes.{working};
ghost use Rattle.mn_reflect_ledger_laws.specs.Picks.{placed_by, by_address};
ghost use Rattle.mn_reflect_telling.specs.Mentions.{AreNodes, numbers_of};
ghost use Rattle.mn_reflect_telling.specs.Starting.{first_edge_or_none};

use mn_base::{NodeNo, SiteNo};
use mn_edges::loopback_of;
use mn_offers::Offers;
use mn_pe::Pe;
use mn_topo::Topology;
use std::alloc::{AllocError, Global};

/// Nothing received, from each of so many peers.
fn no_offers(alloc: Global, peers: usize) -> Result<Vec<Offers>, AllocError>
    ensures { IfOk result (λ row. row.items ≡ replicate peers []) }
{
    let mut row = Vec::new(alloc);
    for _peer in 0..peers {
        row.push(Offers::new(alloc))?;
    }
    Ok(row)
}

/// Nothing received, at any of so many nodes.
pub fn nothing_heard(alloc: Global, nodes: usize) -> Result<Vec<Vec<Offers>>, AllocError>
    ensures { IfOk result (λ rows. map (λ row. row.items) rows.items ≡ replicate nodes (replicate nodes [])) }
{
    let mut rows = Vec::new(alloc);
    for _node in 0..nodes {
        let row = no_offers(alloc, nodes)?;
        rows.push(row)?;
    }
    Ok(rows)
}

/// How many sites a node has.
fn sites_at(topology: &Topology, node: NodeNo) -> u32
    ensures { result ≡ length (sites_at topology.now node.0) }
{
    topology.laws();
    let mut count = 0;
    for number in 0..topology.sites().len() {
        if topology.home_of(SiteNo(number as u16)).0 == node.0 {
            count += 1;
        }
    }
    count
}

/// How many attachments each node's sites have had.
pub fn first_attachments(alloc: Global, topology: &Topology) -> Result<Vec<u32>, AllocError>
    ensures { IfOk result (λ counts. counts.items ≡ map (λ node. length (sites_at topology.now node)) (nodes_of (wiring_of topology.now))) }
{
    topology.laws();
    let mut counts = Vec::new(alloc);
    for number in 0..topology.nodes().len() {
        counts.push(sites_at(topology, NodeNo(number as u16)))?;
    }
    Ok(counts)
}

/// The edges, by node.
pub fn first_edges(alloc: Global, topology: &Topology) -> Result<Vec<Option<Pe>>, AllocError>
    ensures { IfOk result (λ edges. edges.items ≡ map (λ node. option_map working (first_edge_or_none topology.now node)) (nodes_of (wiring_of topology.now))) }
{
    topology.laws();
    mn_edges::first_edges(alloc, topology)
}

/// How many routes there are over sites.
pub fn statics_of(topology: &Topology) -> u32
    ensures { result ≡ length (first_config topology.now).statics }
{
    topology.laws();
    let mut count = 0;
    for site in topology.sites() {
        count += site.prefixes.as_slice().len() as u32;
    }
    count
}

/// Where a reflector stands among others by address: before the first of greater address.
fn place_of(topology: &Topology, node: NodeNo, others: &[NodeNo]) -> usize
    requires node { node.0 < length topology.now.loopbacks }
    requires others { AreNodes topology.now others.now }
    ensures within { result ≤ length others.now }
    ensures place { take result (numbers_of others.now) ++ node.0 ∷ drop result (numbers_of others.now) ≡ placed_by topology.now node.0 (numbers_of others.now) }
{
    let address = loopback_of(topology, node);
    for at in 0..others.len() {
        if address < loopback_of(topology, others[at]) {
            return at;
        }
    }
    others.len()
}

/// Reflectors by address, the least first. They are put from the last one on.
pub fn by_address(
    alloc: Global,
    topology: &Topology,
    reflectors: &[NodeNo],
) -> Result<Vec<NodeNo>, AllocError>
    requires { AreNodes topology.now reflectors.now }
    ensures { IfOk result (λ nodes. numbers_of nodes.items ≡ by_address topology.now (numbers_of reflectors.now)) }
{
    let mut nodes: Vec<NodeNo> = Vec::new(alloc);
    for done in 0..reflectors.len() {
        let node = reflectors[reflectors.len() - 1 - done];
        let place = place_of(topology, node, &nodes);
        nodes.insert(place, node)?;
    }
    Ok(nodes)
}
