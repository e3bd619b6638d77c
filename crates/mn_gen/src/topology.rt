// The topology of a number.
ghost use Rattle.std.specs.Prelude.{◌≡◌, ◌≤◌, ◌++◌, IfOk, OnOk, string_bytes};
ghost use Rattle.std.specs.List.{flat_map};
ghost use Rattle.mn_gen.specs.Topology.{node_text, link_text, ring_text, chord_text, vrf_text, vrfs_text, site_text, sites_text, topology_text};

use crate::shape::{after, below, edges, half, node_count};
use std::alloc::{AllocError, Global};

#[tactic(auto, unfolding(crate::specs::Topology::node_text))]
fn node_text(alloc: Global, node: u32) -> Result<String, AllocError>
    ensures { IfOk result (λ words. string_bytes words ≡ node_text node) }
{
    let host = node as u64 + 1;
    format!(in alloc; "[[node]]\nname = \"n{node}\"\nloopback = \"172.16.0.{host}\"\n")
}

#[tactic(auto, unfolding(crate::specs::Topology::link_text))]
fn link_text(alloc: Global, a: u32, b: u64, cost: u32, delay: u32) -> Result<String, AllocError>
    ensures { IfOk result (λ words. string_bytes words ≡ link_text a b cost delay) }
{
    format!(in alloc; "[[link]]\na = \"n{a}\"\nb = \"n{b}\"\ncost = {cost}\ndelay = {delay}\n")
}

#[tactic(auto, unfolding(crate::specs::Topology::vrf_text))]
fn vrf_text(alloc: Global, colour: &str, edge: u32, vpn: u32) -> Result<String, AllocError>
    ensures { IfOk result (λ words. string_bytes words ≡ vrf_text colour.now edge vpn) }
{
    let rd = 2 * edge as u64 + vpn as u64;
    format!(in alloc;
        "[[vrf]]\nname = \"{colour}{edge}\"\nnode = \"n{edge}\"\nrd = \"65000:{rd}\"\nimport = [\"65000:{vpn}\"]\nexport = [\"65000:{vpn}\"]\n"
    )
}

#[tactic(auto, unfolding(crate::specs::Topology::site_text))]
fn site_text(alloc: Global, letter: &str, colour: &str, edge: u32) -> Result<String, AllocError>
    ensures { IfOk result (λ words. string_bytes words ≡ site_text letter.now colour.now edge) }
{
    format!(in alloc;
        "[[site]]\nname = \"{letter}{edge}\"\nvrf = \"{colour}{edge}\"\nprefixes = [\"10.{edge}.0.0/16\"]\n"
    )
}

fn put_nodes(alloc: Global, out: &mut Vec<u8>, nodes: &[u32]) -> Result<(), AllocError>
    ensures { OnOk result (out.new.items ≡ out.old.items ++ flat_map node_text nodes.now) }
{
    for node in nodes {
        let words = node_text(alloc, *node)?;
        out.extend_from_slice(words.as_bytes())?;
    }
    Ok(())
}

fn put_ring(alloc: Global, out: &mut Vec<u8>, number: u32, nodes: &[u32]) -> Result<(), AllocError>
    requires { number ≤ 99 }
    ensures { OnOk result (out.new.items ≡ out.old.items ++ flat_map (ring_text number) nodes.now) }
{
    for node in nodes {
        let words = link_text(alloc, *node, after(number, *node), 10, 1 + *node % 3)?;
        out.extend_from_slice(words.as_bytes())?;
    }
    Ok(())
}

fn put_chords(
    alloc: Global,
    out: &mut Vec<u8>,
    number: u32,
    nodes: &[u32],
) -> Result<(), AllocError>
    requires { number ≤ 99 }
    ensures { OnOk result (out.new.items ≡ out.old.items ++ flat_map (chord_text number) nodes.now) }
{
    let across = u64::from(half(number));
    for node in nodes {
        let words = link_text(alloc, *node, u64::from(*node) + across, 15, 1)?;
        out.extend_from_slice(words.as_bytes())?;
    }
    Ok(())
}

fn put_vrfs(alloc: Global, out: &mut Vec<u8>, edges: &[u32]) -> Result<(), AllocError>
    ensures { OnOk result (out.new.items ≡ out.old.items ++ flat_map vrfs_text edges.now) }
{
    for edge in edges {
        let red = vrf_text(alloc, "red", *edge, 1)?;
        out.extend_from_slice(red.as_bytes())?;
        let blue = vrf_text(alloc, "blue", *edge, 2)?;
        out.extend_from_slice(blue.as_bytes())?;
    }
    Ok(())
}

fn put_sites(alloc: Global, out: &mut Vec<u8>, edges: &[u32]) -> Result<(), AllocError>
    ensures { OnOk result (out.new.items ≡ out.old.items ++ flat_map sites_text edges.now) }
{
    for edge in edges {
        let red = site_text(alloc, "r", "red", *edge)?;
        out.extend_from_slice(red.as_bytes())?;
        let blue = site_text(alloc, "b", "blue", *edge)?;
        out.extend_from_slice(blue.as_bytes())?;
    }
    Ok(())
}

/// The topology of a number, 0 to 99: a ring of `8 + number` nodes with chords, and on each fourth node a VRF of each VPN with
/// one site.
#[tactic(auto, unfolding(crate::specs::Topology::topology_text))]
pub fn topology_text(alloc: Global, number: u32) -> Result<Vec<u8>, AllocError>
    requires { number ≤ 99 }
    ensures { IfOk result (λ text. text.items ≡ topology_text number) }
{
    let nodes = below(alloc, node_count(number))?;
    let chords = below(alloc, half(number))?;
    let edges = edges(alloc, number)?;
    let mut out = Vec::new(alloc);
    put_nodes(alloc, &mut out, &nodes)?;
    put_ring(alloc, &mut out, number, &nodes)?;
    put_chords(alloc, &mut out, number, &chords)?;
    put_vrfs(alloc, &mut out, &edges)?;
    put_sites(alloc, &mut out, &edges)?;
    Ok(out)
}
