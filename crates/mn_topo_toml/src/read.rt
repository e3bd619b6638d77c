//! From the bytes of a file to the topology.
ghost use Rattle.std.specs.Prelude.{◌≡◌, MatchOption, true, false};
ghost use Rattle.std.specs.Str.{is_utf8};
ghost use Rattle.toml.specs.View.{table_view};
ghost use Rattle.mn_topo_toml.specs.Rules.{Reads};
ghost use Rattle.mn_topo_toml.specs.Topology.{network_of, topology_of};

use crate::links::read_links;
use crate::nodes::read_nodes;
use crate::sites::read_sites;
use crate::top::head_of;
use crate::vrfs::read_vrfs;
use crate::{Place, TopoBad, TopoRule};
use mn_topo::{Parts, Topology};
use std::alloc::Global;
use toml::Table;

/// The topology that a document is.
#[tactic(auto, unfolding(crate::specs::Topology::network_of))]
fn read_network(alloc: Global, top: &Table) -> Result<Topology, TopoBad>
    ensures { Reads result (network_of (table_view top.now)) }
{
    let head = match head_of(top) {
        Ok(head) => head,
        Err(rule) => {
            return Err(TopoBad::Refused {
                rule,
                place: Place::Top,
            });
        }
    };
    let nodes = read_nodes(alloc, head.arrays.nodes)?;
    let links = read_links(alloc, &nodes, head.arrays.links)?;
    let vrfs = read_vrfs(alloc, &nodes, head.arrays.vrfs)?;
    let sites = read_sites(alloc, &vrfs, head.arrays.sites)?;
    Ok(Topology::of(Parts {
        asn: head.figures.asn,
        notice_delay: head.figures.notice_delay,
        bgp_delay: head.figures.bgp_delay,
        nodes,
        links,
        vrfs,
        sites,
        resolve: head.figures.resolve,
    }))
}

fn text_of(bytes: &[u8]) -> Option<&str>
    ensures { MatchOption result (is_utf8 bytes.now ≡ false) (λ s. (s.now ≡ bytes.now) × (is_utf8 bytes.now ≡ true)) }
{
    match std::str::from_utf8(bytes) {
        Ok(text) => Some(text),
        Err(_) => None,
    }
}

/// The topology of a file.
///
/// It is refused by the first rule that is broken: first that the bytes are a TOML document, then those of the
/// top table, then those of nodes, links, VRFs and sites, entry by entry, and in an entry the first by number.
#[tactic(auto, unfolding(crate::specs::Topology::topology_of))]
pub fn read_topology(alloc: Global, bytes: &[u8]) -> Result<Topology, TopoBad>
    ensures { Reads result (topology_of bytes.now) }
{
    let not_toml = TopoBad::Refused {
        rule: TopoRule::NotToml,
        place: Place::Top,
    };
    let Some(text) = text_of(bytes) else {
        return Err(not_toml);
    };
    match toml::table_from_str(alloc, text) {
        Ok(top) => read_network(alloc, &top),
        Err(bad) if bad.is_memory() => Err(TopoBad::NoMemory),
        Err(_) => Err(not_toml),
    }
}
