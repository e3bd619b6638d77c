//! The pairs of which is told.
ghost use Rattle.std.specs.Prelude.{◌≡◌, ◌<◌, ◌≤◌, ◌++◌, ◌∷◌, [], length, IfOk, OnOk, MatchOption};
ghost use Rattle.std.specs.List.{list_any};
ghost use Rattle.mn_prefix.specs.Prefix.{same_prefix};
ghost use Rattle.mn_ledger.specs.Entry.{is_unicast};
ghost use Rattle.mn_candidates.specs.Pairs.{has_target, share, takes_from, host_of, address_in, pair_to, Adds, prefixes_of, pairs_from, pairs_of, most_pairs};

use mn_base::{Rt, SiteNo, VrfNo};
use mn_prefix::Prefix;
use mn_topo::Topology;
use std::alloc::{AllocError, Global};

/// How many pairs may be told of.
pub const MOST_PAIRS: usize = 100_000;

/// Packets from a site to an address of a prefix.
#[derive(Clone, Copy)]
pub struct Pair {
    pub site: SiteNo,
    pub prefix: Prefix,
    pub address: u32,
}

/// Whether the target is one of these.
fn has_target(targets: &[Rt], target: Rt) -> bool
    ensures { result ≡ has_target targets.now target }
{
    targets.iter().any(|other| other.0 == target.0)
}

/// Whether two sets of targets share one.
fn share(export: &[Rt], imports: &[Rt]) -> bool
    ensures { result ≡ share export.now imports.now }
{
    export.iter().any(|target| has_target(imports, *target))
}

/// Whether a VRF has the routes of another: its own, and those of one that exports a target which it imports.
pub(crate) fn takes_from(topology: &Topology, vrf: VrfNo, other: VrfNo) -> bool
    requires vrf { vrf.0 < length topology.now.vrfs }
    requires other { other.0 < length topology.now.vrfs }
    ensures { result ≡ takes_from topology.now vrf.0 other.0 }
{
    let vrfs = topology.vrfs();
    let (exporting, importing) = (&vrfs[usize::from(other.0)], &vrfs[usize::from(vrf.0)]);
    other.0 == vrf.0 || share(exporting.export.as_slice(), importing.import.as_slice())
}

/// Whether a packet may go to the address.
fn is_unicast(address: u64) -> bool
    ensures { result ≡ is_unicast address }
{
    let first = address / 16_777_216;
    !(first == 0 || first == 127) && address < 3_758_096_384
}

/// The first host of a prefix.
fn host_of(prefix: Prefix) -> u64
    ensures { result ≡ host_of prefix }
{
    let address = u64::from(prefix.address());
    if prefix.length() < 31 {
        address + 1
    } else {
        address
    }
}

/// 1.0.0.1, the first host of all.
const FIRST_HOST: u32 = 16_777_217;

/// The first host of a prefix to which a packet may go.
fn address_in(prefix: Prefix) -> Option<u32>
    ensures { result ≡ address_in prefix }
{
    let host = host_of(prefix);
    if is_unicast(host) {
        Some(host as u32)
    } else if prefix.contains(FIRST_HOST) {
        Some(FIRST_HOST)
    } else {
        None
    }
}

/// Whether the prefix is one of these.
fn is_among(prefix: Prefix, seen: &[Prefix]) -> bool
    ensures { result ≡ list_any (same_prefix prefix) seen.now }
{
    seen.iter().any(|other| {
        prefix.address() == other.address() && prefix.length() == other.length()
    })
}

/// Pushes the pair of a site and a prefix, where the prefix has an address for it.
fn push_pair(site: SiteNo, prefix: Prefix, pairs: &mut Vec<Pair>) -> Result<(), AllocError>
    ensures { OnOk result (pairs.new.items ≡ pairs.old.items ++ pair_to site.0 prefix) }
{
    if let Some(address) = address_in(prefix) {
        pairs.push(Pair {
            site,
            prefix,
            address,
        })?;
    }
    Ok(())
}

/// Pushes the pair of a site and a prefix that wasn't seen yet.
fn push_first(
    site: SiteNo,
    prefix: Prefix,
    seen: &mut Vec<Prefix>,
    pairs: &mut Vec<Pair>,
) -> Result<(), AllocError>
    ensures { OnOk result (Adds site.0 (prefix ∷ []) seen.old.items seen.new.items pairs.old.items pairs.new.items) }
{
    if is_among(prefix, seen.as_slice()) {
        return Ok(());
    }
    seen.push(prefix)?;
    push_pair(site, prefix, pairs)?;
    Ok(())
}

/// Pushes the pairs of a site and some prefixes.
fn push_prefixes(
    site: SiteNo,
    prefixes: &[Prefix],
    seen: &mut Vec<Prefix>,
    pairs: &mut Vec<Pair>,
) -> Result<(), AllocError>
    ensures { OnOk result (Adds site.0 prefixes.now seen.old.items seen.new.items pairs.old.items pairs.new.items) }
{
    for prefix in prefixes {
        push_first(site, *prefix, seen, pairs)?;
    }
    Ok(())
}

/// Pushes the pairs of a site and another one, where it takes routes of its VRF.
fn push_towards(
    topology: &Topology,
    site: SiteNo,
    other: SiteNo,
    seen: &mut Vec<Prefix>,
    pairs: &mut Vec<Pair>,
) -> Result<(), AllocError>
    requires site { site.0 < length topology.now.sites }
    requires other { other.0 < length topology.now.sites }
    ensures { OnOk result (Adds site.0 (prefixes_of topology.now site.0 other.0) seen.old.items seen.new.items pairs.old.items pairs.new.items) }
{
    if other.0 != site.0 && takes_from(topology, topology.vrf_of(site), topology.vrf_of(other)) {
        let there = &topology.sites()[usize::from(other.0)];
        push_prefixes(site, there.prefixes.as_slice(), seen, pairs)?;
    }
    Ok(())
}

/// How many sites there are: at most 4,096.
fn site_count(topology: &Topology) -> u16
    ensures { result ≡ length topology.now.sites }
{
    topology.laws();
    topology.sites().len() as u16
}

/// Pushes the pairs of a site.
fn push_pairs(
    alloc: Global,
    topology: &Topology,
    site: SiteNo,
    pairs: &mut Vec<Pair>,
) -> Result<(), AllocError>
    requires { site.0 < length topology.now.sites }
    ensures { OnOk result (pairs.new.items ≡ pairs.old.items ++ pairs_from topology.now site.0) }
{
    let own = &topology.sites()[usize::from(site.0)];
    let mut seen = Vec::from_slice(alloc, own.prefixes.as_slice())?;
    for other in 0..site_count(topology) {
        push_towards(topology, site, SiteNo(other), &mut seen, pairs)?;
    }
    Ok(())
}

/// The pairs of a topology, by site; none where they are more than 100,000.
pub fn pairs_of(alloc: Global, topology: &Topology) -> Result<Option<Vec<Pair>>, AllocError>
    ensures { IfOk result (λ found. MatchOption found (most_pairs < length (pairs_of topology.now)) (λ pairs. (pairs.items ≡ pairs_of topology.now) × (length pairs.items ≤ most_pairs))) }
{
    let mut pairs = Vec::new(alloc);
    for site in 0..site_count(topology) {
        push_pairs(alloc, topology, SiteNo(site), &mut pairs)?;
        if pairs.len() > MOST_PAIRS {
            return Ok(None);
        }
    }
    Ok(Some(pairs))
}
