//! What a topology answers, by number and by name.
use crate::escapes::{escaped, word_at};
use crate::steps::step_from;
use mn_rows::{Answer, Call, done, shown};
use mn_topo::{Topology, link_again, name_again};
use std::alloc::{AllocError, Global};
use std::fmt::Write;

fn head(alloc: Global, topology: &Topology) -> Answer {
    let asn = topology.asn();
    let notice = topology.notice_delay();
    let bgp = topology.bgp_delay();
    let resolve = topology.resolve();
    Ok(Some(format!(in alloc;
        "as {asn}, notice_delay {notice}, bgp_delay {bgp}, resolve {resolve}"
    )?))
}

/// An entry by its kind and its number from 0.
fn entry(alloc: Global, topology: &Topology, call: Call<'_>) -> Result<Option<String>, AllocError> {
    let Some(number) = call.number(2, 65_535) else {
        return Ok(None);
    };
    let at = number as usize;
    match call.verb() {
        b"node" => match topology.nodes().get(at) {
            Some(node) => shown(alloc, node),
            None => Ok(None),
        },
        b"link" => link(alloc, topology, at),
        b"vrf" => vrf(alloc, topology, at),
        b"site" => site(alloc, topology, at),
        _ => Ok(None),
    }
}

fn link(alloc: Global, topology: &Topology, at: usize) -> Answer {
    let Some(link) = topology.links().get(at) else {
        return Ok(None);
    };
    let (a, b) = (link.a.0, link.b.0);
    let cost = link.cost;
    let delay = link.delay;
    let loss = link.loss;
    let life = link.life;
    Ok(Some(format!(in alloc; "{a} to {b}, cost {cost}, delay {delay}, loss {loss}, life {life}")?))
}

fn vrf(alloc: Global, topology: &Topology, at: usize) -> Answer {
    let Some(vrf) = topology.vrfs().get(at) else {
        return Ok(None);
    };
    let node = vrf.node.0;
    let rd = vrf.rd.0;
    let mut text = format!(in alloc; "node {node}, rd {rd:016X}")?;
    for target in vrf.import.as_slice() {
        let target = target.0;
        write!(text, ", import {target:016X}")?;
    }
    for target in vrf.export.as_slice() {
        let target = target.0;
        write!(text, ", export {target:016X}")?;
    }
    Ok(Some(text))
}

fn site(alloc: Global, topology: &Topology, at: usize) -> Answer {
    let Some(site) = topology.sites().get(at) else {
        return Ok(None);
    };
    let vrf = site.vrf.0;
    let prefixes = site.prefixes.as_slice().len();
    Ok(Some(format!(in alloc; "vrf {vrf}, {prefixes} prefixes")?))
}

/// The node, the VRF and the site of a name.
fn named(alloc: Global, topology: &Topology, call: Call<'_>) -> Answer {
    let Some(name) = word_at(alloc, call, 2)? else {
        return Ok(None);
    };
    let node = topology.node_named(&name);
    let vrf = topology.vrf_named(&name);
    let site = topology.site_named(&name);
    Ok(Some(format!(in alloc; "{node:?} {vrf:?} {site:?}")?))
}

/// The name of the node, VRF or site that has this name.
fn name_of(alloc: Global, topology: &Topology, call: Call<'_>) -> Answer {
    let Some(name) = word_at(alloc, call, 2)? else {
        return Ok(None);
    };
    if let Some(node) = topology.node_named(&name) {
        return Ok(Some(escaped(alloc, topology.node_name(node))?));
    }
    if let Some(vrf) = topology.vrf_named(&name) {
        return Ok(Some(escaped(alloc, topology.vrf_name(vrf))?));
    }
    match topology.site_named(&name) {
        Some(site) => Ok(Some(escaped(alloc, topology.site_name(site))?)),
        None => Ok(None),
    }
}

/// What is asked of two nodes.
fn between(alloc: Global, topology: &Topology, call: Call<'_>) -> Answer {
    let (Some(a), Some(b)) = (call.node(2), call.node(3)) else {
        return Ok(None);
    };
    match call.verb() {
        b"link_of" => shown(alloc, &topology.link_of(a, b)),
        b"are_linked" => shown(alloc, &topology.link_of(a, b).is_some()),
        _ => Ok(None),
    }
}

fn is_edge(alloc: Global, topology: &Topology, call: Call<'_>) -> Answer {
    match call.node(2) {
        Some(node) => shown(alloc, &topology.is_edge(node)),
        None => Ok(None),
    }
}

fn fits(alloc: Global, topology: &Topology, call: Call<'_>) -> Answer {
    match step_from(call, 2) {
        Some(step) => shown(alloc, &topology.fits(&step)),
        None => Ok(None),
    }
}

/// What is told of every topology, and of names and links.
fn laws(alloc: Global, topology: &Topology) -> Answer {
    topology.laws();
    name_again();
    link_again();
    done(alloc)
}

pub(crate) fn network_row(alloc: Global, topology: &Topology, call: Call<'_>) -> Answer {
    match call.verb() {
        b"head" => head(alloc, topology),
        b"node" | b"link" | b"vrf" | b"site" => entry(alloc, topology, call),
        b"named" => named(alloc, topology, call),
        b"name_of" => name_of(alloc, topology, call),
        b"link_of" | b"are_linked" => between(alloc, topology, call),
        b"is_edge" => is_edge(alloc, topology, call),
        b"fits" => fits(alloc, topology, call),
        b"laws" => laws(alloc, topology),
        _ => Ok(None),
    }
}
