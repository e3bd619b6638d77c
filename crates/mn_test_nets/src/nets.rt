//! The three networks.
ghost use Rattle.std.specs.Prelude.{◌≡◌, IfOk};
ghost use Rattle.mn_topo.specs.Lawful.{IsLawful};
ghost use Rattle.mn_test_nets.specs.Nets.{network_with, row_nodes, row_links, row_vrfs, row_sites, row_net, pair_nodes, pair_links, pair_vrfs, pair_sites, pair_net, star_nodes, star_links, star_vrfs, star_net};

use crate::entries::{apart, bare, joined, link, of_one};
use mn_topo::{Links, Nodes, Parts, Sites, Topology, Vrfs};
use std::alloc::{AllocError, Global};

/// 192.0.2.0.
const LOOPBACKS: u32 = 0xC000_0200;

/// 10.1.0.0 and 10.2.0.0.
const SITE_A: u32 = 0x0A01_0000;

const SITE_B: u32 = 0x0A02_0000;

/// The topology of lawful tables, with the numbers that a file's has by default.
fn made(nodes: Nodes, links: Links, vrfs: Vrfs, sites: Sites) -> Topology
    requires { IsLawful (network_with nodes links vrfs sites) }
    ensures { result ≡ network_with nodes links vrfs sites }
{
    Topology::of(Parts {
        asn: 65000,
        notice_delay: 1,
        bgp_delay: 1,
        nodes,
        links,
        vrfs,
        sites,
        resolve: false,
    })
}

fn row_nodes(alloc: Global) -> Result<Nodes, AllocError>
    ensures { IfOk result (λ nodes. nodes ≡ row_nodes) }
{
    let mut nodes = Nodes::new(alloc);
    nodes.put(alloc, b"pe1", LOOPBACKS + 1)?;
    nodes.put(alloc, b"p", LOOPBACKS + 2)?;
    nodes.put(alloc, b"pe2", LOOPBACKS + 3)?;
    Ok(nodes)
}

fn row_links(alloc: Global) -> Result<Links, AllocError>
    ensures { IfOk result (λ links. links ≡ row_links) }
{
    let mut links = Links::new(alloc);
    links.put(link(0, 1, 10))?;
    links.put(link(1, 2, 20))?;
    Ok(links)
}

fn row_vrfs(alloc: Global) -> Result<Vrfs, AllocError>
    ensures { IfOk result (λ vrfs. vrfs ≡ row_vrfs) }
{
    let mut vrfs = Vrfs::new(alloc);
    vrfs.put(alloc, b"red1", joined(alloc, 0, 1)?)?;
    vrfs.put(alloc, b"red2", joined(alloc, 2, 2)?)?;
    Ok(vrfs)
}

fn row_sites(alloc: Global) -> Result<Sites, AllocError>
    ensures { IfOk result (λ sites. sites ≡ row_sites) }
{
    let mut sites = Sites::new(alloc);
    sites.put(alloc, b"a", of_one(alloc, 0, SITE_A)?)?;
    sites.put(alloc, b"b", of_one(alloc, 1, SITE_B)?)?;
    Ok(sites)
}

/// Three nodes in a row, with a VRF and a site at either end that reach each other.
pub fn row(alloc: Global) -> Result<Topology, AllocError>
    ensures { IfOk result (λ topology. topology ≡ row_net) }
{
    let nodes = row_nodes(alloc)?;
    let links = row_links(alloc)?;
    let vrfs = row_vrfs(alloc)?;
    let sites = row_sites(alloc)?;
    Ok(made(nodes, links, vrfs, sites))
}

fn pair_nodes(alloc: Global) -> Result<Nodes, AllocError>
    ensures { IfOk result (λ nodes. nodes ≡ pair_nodes) }
{
    let mut nodes = Nodes::new(alloc);
    nodes.put(alloc, b"pe1", LOOPBACKS + 1)?;
    nodes.put(alloc, b"pe2", LOOPBACKS + 2)?;
    Ok(nodes)
}

fn pair_links(alloc: Global) -> Result<Links, AllocError>
    ensures { IfOk result (λ links. links ≡ pair_links) }
{
    let mut links = Links::new(alloc);
    links.put(link(0, 1, 10))?;
    Ok(links)
}

fn pair_vrfs(alloc: Global) -> Result<Vrfs, AllocError>
    ensures { IfOk result (λ vrfs. vrfs ≡ pair_vrfs) }
{
    let mut vrfs = Vrfs::new(alloc);
    vrfs.put(alloc, b"red1", apart(alloc, 0, 1))?;
    vrfs.put(alloc, b"red2", apart(alloc, 1, 2))?;
    Ok(vrfs)
}

fn pair_sites(alloc: Global) -> Result<Sites, AllocError>
    ensures { IfOk result (λ sites. sites ≡ pair_sites) }
{
    let mut sites = Sites::new(alloc);
    sites.put(alloc, b"a", bare(alloc, 0))?;
    sites.put(alloc, b"b", bare(alloc, 1))?;
    Ok(sites)
}

/// Two nodes and a link, with a VRF and a site at either end that don't know of each other.
pub fn pair(alloc: Global) -> Result<Topology, AllocError>
    ensures { IfOk result (λ topology. topology ≡ pair_net) }
{
    let nodes = pair_nodes(alloc)?;
    let links = pair_links(alloc)?;
    let vrfs = pair_vrfs(alloc)?;
    let sites = pair_sites(alloc)?;
    Ok(made(nodes, links, vrfs, sites))
}

fn star_nodes(alloc: Global) -> Result<Nodes, AllocError>
    ensures { IfOk result (λ nodes. nodes ≡ star_nodes) }
{
    let mut nodes = Nodes::new(alloc);
    nodes.put(alloc, b"a.bgp", LOOPBACKS + 1)?;
    nodes.put(alloc, b"p.pcap", LOOPBACKS + 2)?;
    nodes.put(alloc, b"b", LOOPBACKS + 3)?;
    nodes.put(alloc, b"c", LOOPBACKS + 4)?;
    Ok(nodes)
}

fn star_links(alloc: Global) -> Result<Links, AllocError>
    ensures { IfOk result (λ links. links ≡ star_links) }
{
    let mut links = Links::new(alloc);
    links.put(link(1, 0, 10))?;
    links.put(link(2, 1, 10))?;
    links.put(link(3, 1, 10))?;
    Ok(links)
}

fn star_vrfs(alloc: Global) -> Result<Vrfs, AllocError>
    ensures { IfOk result (λ vrfs. vrfs ≡ star_vrfs) }
{
    let mut vrfs = Vrfs::new(alloc);
    vrfs.put(alloc, b"v1", apart(alloc, 3, 1))?;
    vrfs.put(alloc, b"v2", apart(alloc, 0, 2))?;
    vrfs.put(alloc, b"v3", apart(alloc, 2, 3))?;
    vrfs.put(alloc, b"v4", apart(alloc, 3, 4))?;
    Ok(vrfs)
}

/// Three edges around one node, whose names look like endings of files; the edge `c` has two VRFs. It has no site.
pub fn star(alloc: Global) -> Result<Topology, AllocError>
    ensures { IfOk result (λ topology. topology ≡ star_net) }
{
    let nodes = star_nodes(alloc)?;
    let links = star_links(alloc)?;
    let vrfs = star_vrfs(alloc)?;
    Ok(made(nodes, links, vrfs, Sites::new(alloc)))
}
