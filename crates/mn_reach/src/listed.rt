//! By link and by node, the pairs that what fails there may touch.
ghost use Rattle.std.specs.Prelude.{◌≡◌, ◌<◌, ◌++◌, ◌∷◌, [], All, length, replicate, slice_set, IfOk, OnOk};
ghost use Rattle.std.specs.List.{Contains};
ghost use Rattle.mn_base.specs.declared.numbers.LinkNo.{LinkNo};
ghost use Rattle.mn_reach.specs.Plans.{pairs_at};
ghost use Rattle.mn_reach.specs.Finding.{KeepMembers, AreByLink, AreByHome};

use crate::plan::Prospect;
use mn_base::{LinkNo, ListOf};
use mn_candidates::Pair;
use mn_topo::Topology;
use std::alloc::{AllocError, Global};

/// So many lists without pairs.
fn empty_lists(alloc: Global, count: usize) -> Result<Vec<ListOf<usize>>, AllocError>
    ensures { IfOk result (λ lists. lists.items ≡ replicate count []) }
{
    let mut lists = Vec::with_capacity(alloc, count)?;
    for _list in 0..count {
        lists.push(ListOf::from_vec(Vec::new(alloc)))?;
    }
    Ok(lists)
}

/// Appends a pair to one list.
fn add(lists: &mut Vec<ListOf<usize>>, at: usize, pair: usize) -> Result<(), AllocError>
    requires { at < length lists.old.items }
    ensures { OnOk result (lists.new.items ≡ slice_set lists.old.items at (pairs_at lists.old.items at ++ pair ∷ [])) }
{
    let list = &mut lists[at];
    list.push(pair)
}

/// Appends a pair to the list of each of these links.
fn add_to_each(
    lists: &mut Vec<ListOf<usize>>,
    links: &[LinkNo],
    pair: usize,
) -> Result<(), AllocError>
    requires { All (λ link. link.0 < length lists.old.items) links.now }
    ensures keep { OnOk result (KeepMembers lists.old.items lists.new.items) }
    ensures added { OnOk result ((link : LinkNo) → Contains links.now link → Contains (pairs_at lists.new.items link.0) pair) }
{
    for link in links {
        add(lists, usize::from(link.0), pair)?;
    }
    Ok(())
}

/// By link the pairs on whose ways it is, of so many links.
pub(crate) fn pairs_by_link(
    alloc: Global,
    links: usize,
    prospects: &[Prospect],
) -> Result<Vec<ListOf<usize>>, AllocError>
    requires { All (λ prospect. All (λ link. link.0 < links) prospect.links) prospects.now }
    ensures { IfOk result (λ lists. AreByLink links prospects.now (length prospects.now) lists.items) }
{
    let mut lists = empty_lists(alloc, links)?;
    for pair in 0..prospects.len() {
        add_to_each(&mut lists, prospects[pair].links.as_slice(), pair)?;
    }
    Ok(lists)
}

/// By node the pairs of its sites.
pub(crate) fn pairs_by_home(
    alloc: Global,
    topology: &Topology,
    pairs: &[Pair],
) -> Result<Vec<ListOf<usize>>, AllocError>
    requires { All (λ pair. pair.site.0 < length topology.now.sites) pairs.now }
    ensures { IfOk result (λ lists. AreByHome topology.now pairs.now (length pairs.now) lists.items) }
{
    topology.laws();
    let mut lists = empty_lists(alloc, topology.nodes().len())?;
    for number in 0..pairs.len() {
        let home = topology.home_of(pairs[number].site);
        add(&mut lists, usize::from(home.0), number)?;
    }
    Ok(lists)
}
