//! The top table.
ghost use Rattle.std.specs.Prelude.{◌≡◌, ◌≤◌, false, length};
ghost use Rattle.toml.specs.View.{table_view};

use crate::TopoRule;
use crate::tables::{boolean_at, has_unknown_key, number_at, tables_at};
use toml::{Table, Value};

const MOST_ASN: u32 = 65_535;

const DEFAULT_ASN: u32 = 65_000;

/// Ticks.
const MOST_DELAY: u32 = 1000;

const DEFAULT_DELAY: u32 = 1;

/// The most entries of each array.
const MOST_NODES: usize = 256;

const MOST_LINKS: usize = 1024;

const MOST_VRFS: usize = 512;

const MOST_SITES: usize = 4096;

/// The numbers of the top table, and whether its next hops have to resolve.
#[derive(Drop)]
pub(crate) struct Figures {
    pub(crate) asn: u16,
    pub(crate) notice_delay: u32,
    pub(crate) bgp_delay: u32,
    pub(crate) resolve: bool,
}

/// The arrays of the top table.
#[derive(Drop)]
pub(crate) struct Arrays<'a> {
    pub(crate) nodes: &'a [Value],
    pub(crate) links: &'a [Value],
    pub(crate) vrfs: &'a [Value],
    pub(crate) sites: &'a [Value],
}

/// What the top table has.
#[derive(Drop)]
pub(crate) struct Head<'a> {
    pub(crate) figures: Figures,
    pub(crate) arrays: Arrays<'a>,
}

ghost use Rattle.mn_topo_toml.specs.Topology.{are_too_many, AreFew, ReadsArrays, ReadsFigures, ReadsHead};

/// The numbers and the boolean, if none of them is wrong.
fn figures_of(top: &Table) -> Option<Figures>
    ensures { ReadsFigures (table_view top.now) result }
{
    let asn = number_at("as", 1, MOST_ASN, DEFAULT_ASN, top)?;
    let notice_delay = number_at("notice_delay", 1, MOST_DELAY, DEFAULT_DELAY, top)?;
    let bgp_delay = number_at("bgp_delay", 1, MOST_DELAY, DEFAULT_DELAY, top)?;
    let resolve = boolean_at("resolve", top)?;
    Some(Figures {
        asn: asn as u16,
        notice_delay,
        bgp_delay,
        resolve,
    })
}

/// The arrays, if each is one of tables.
fn arrays_of(top: &Table) -> Option<Arrays<'_>>
    ensures { ReadsArrays (table_view top.now) result }
{
    let nodes = tables_at("node", top)?;
    let links = tables_at("link", top)?;
    let vrfs = tables_at("vrf", top)?;
    let sites = tables_at("site", top)?;
    Some(Arrays {
        nodes,
        links,
        vrfs,
        sites,
    })
}

/// Whether an array has more entries than it may.
fn has_too_many(arrays: &Arrays<'_>) -> bool
    ensures value { result ≡ are_too_many (length arrays.now.nodes.now) (length arrays.now.links.now) (length arrays.now.vrfs.now) (length arrays.now.sites.now) }
    ensures few { result ≡ false → AreFew arrays.now }
{
    arrays.nodes.len() > MOST_NODES
        || arrays.links.len() > MOST_LINKS
        || arrays.vrfs.len() > MOST_VRFS
        || arrays.sites.len() > MOST_SITES
}

/// The numbers, the boolean and the arrays of the top table.
#[tactic(auto, unfolding(crate::specs::Topology::top_rule))]
pub(crate) fn head_of(top: &Table) -> Result<Head<'_>, TopoRule>
    ensures { ReadsHead (table_view top.now) result }
{
    if has_unknown_key(
        &[
            "as",
            "notice_delay",
            "bgp_delay",
            "resolve",
            "node",
            "link",
            "vrf",
            "site",
        ],
        top,
    ) {
        return Err(TopoRule::UnknownKey);
    }
    let Some(figures) = figures_of(top) else {
        return Err(TopoRule::WrongKind);
    };
    let Some(arrays) = arrays_of(top) else {
        return Err(TopoRule::WrongKind);
    };
    if has_too_many(&arrays) {
        return Err(TopoRule::TooMany);
    }
    Ok(Head { figures, arrays })
}
