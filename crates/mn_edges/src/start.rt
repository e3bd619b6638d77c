//! The edges and sessions at the start.
ghost use Rattle.std.specs.Prelude.{◌≡◌, ◌<◌, ◌+◌, None, length, map, replicate, option_map, IfOk, OnOk};
ghost use Rattle.mn_ledger.specs.Prelude.{nodes_of, wiring_of};
ghost use Rattle.mn_edges.specs.Changes.{working};
ghost use Rattle.mn_edges.specs.Start.{sites_before, edge_below, first_edge, first_edge_or_none};

use mn_base::{NodeNo, SiteNo};
use mn_bgp_session::BgpSession;
use mn_pe::Pe;
use mn_topo::Topology;
use std::alloc::{AllocError, Global};

/// The least label that isn't reserved: RFC 3032, section 2.1.
const FIRST_LABEL: u32 = 16;

/// Attaches a site, if it is the node's, behind those before it. It answers the label of the node's next site.
fn attach_next(
    pe: &mut Pe,
    topology: &Topology,
    node: NodeNo,
    site: SiteNo,
    label: u32,
) -> Result<u32, AllocError>
    requires site { site.0 < length topology.now.sites }
    requires label { label ≡ 16 + sites_before topology.now node.0 site.0 }
    requires edge { pe.old ≡ working (edge_below topology.now node.0 site.0) }
    ensures edge { OnOk result (pe.new ≡ working (edge_below topology.now node.0 (site.0 + 1))) }
    ensures next { IfOk result (λ next. next ≡ 16 + sites_before topology.now node.0 (site.0 + 1)) }
{
    if topology.home_of(site).0 != node.0 {
        return Ok(label);
    }
    match pe.attach(site, label) {
        Ok(()) => Ok(label + 1),
        Err(_) => Err(AllocError),
    }
}

/// An edge whose sites have labels from 16 on, in site order.
fn first_edge(alloc: Global, topology: &Topology, node: NodeNo) -> Result<Pe, AllocError>
    ensures { IfOk result (λ pe. pe ≡ working (first_edge topology.now node.0)) }
{
    topology.laws();
    let Ok(mut pe) = Pe::new(alloc, topology, node) else {
        return Err(AllocError);
    };
    let mut label = FIRST_LABEL;
    for number in 0..topology.sites().len() {
        label = attach_next(&mut pe, topology, node, SiteNo(number as u16), label)?;
    }
    Ok(pe)
}

/// The edge at a node, none where the node is no edge.
fn edge_if_any(alloc: Global, topology: &Topology, node: NodeNo) -> Result<Option<Pe>, AllocError>
    ensures { IfOk result (λ edge. edge ≡ option_map working (first_edge_or_none topology.now node.0)) }
{
    if !topology.is_edge(node) {
        return Ok(None);
    }
    match first_edge(alloc, topology, node) {
        Ok(pe) => Ok(Some(pe)),
        Err(_) => Err(AllocError),
    }
}

/// The edges, by node.
pub fn first_edges(alloc: Global, topology: &Topology) -> Result<Vec<Option<Pe>>, AllocError>
    ensures { IfOk result (λ edges. edges.items ≡ map (λ node. option_map working (first_edge_or_none topology.now node)) (nodes_of (wiring_of topology.now))) }
{
    topology.laws();
    let mut edges = Vec::new(alloc);
    for number in 0..topology.nodes().len() {
        edges.push(edge_if_any(alloc, topology, NodeNo(number as u16))?)?;
    }
    Ok(edges)
}

/// No session, for each of so many peers.
fn no_row(alloc: Global, peers: usize) -> Result<Vec<Option<BgpSession>>, AllocError>
    ensures { IfOk result (λ row. row.items ≡ replicate peers None) }
{
    let mut row = Vec::new(alloc);
    for _peer in 0..peers {
        row.push(None)?;
    }
    Ok(row)
}

/// No session, between any of so many nodes.
pub fn no_sessions(alloc: Global, nodes: usize) -> Result<Vec<Vec<Option<BgpSession>>>, AllocError>
    ensures { IfOk result (λ rows. map (λ row. row.items) rows.items ≡ replicate nodes (replicate nodes None)) }
{
    let mut rows = Vec::new(alloc);
    for _node in 0..nodes {
        let row = no_row(alloc, nodes)?;
        rows.push(row)?;
    }
    Ok(rows)
}
