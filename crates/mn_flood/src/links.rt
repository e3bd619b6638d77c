//! The links of a network, by number and by node.
ghost use Rattle.std.specs.Prelude.{◌≡◌, ◌<◌, ◌≤◌, ◌++◌, ◌∷◌, [], All, length, map, replicate, slice_set, slice_index_or, IfOk, OnOk};
ghost use Rattle.mn_wiring.specs.Wiring.{links_at, receiver};
ghost use Rattle.mn_topo.specs.Network.{wiring_of};
ghost use Rattle.mn_flood_laws.specs.Flood.{away};
ghost use Rattle.mn_flood.specs.Links.{numbers_of, AreLinks, IsWired};

use mn_base::{LinkNo, ListOf, NodeNo};
use mn_topo::{Node, Topology};
use mn_wiring::{Dir, LinkEnds};
use std::alloc::{AllocError, Global};
use std::marker::Model;

/// The nodes and links of a topology, with the links at each node. Contracts see its wiring.
#[derive(Drop)]
pub(crate) struct Links {
    loopbacks: Vec<u32>,
    ends: Vec<LinkEnds>,
    at: Vec<ListOf<LinkNo>>,
}

impl Model for Links {
    ghost use Rattle.mn_wiring.specs.Wiring.{Wiring};
    ghost use Rattle.mn_flood.specs.Links.{AreLinks};

    ghost Value = { Wiring };

    ghost view = { λ l. record { loopbacks = l.loopbacks.items; ends = l.ends.items } };

    ghost invariant = { λ l. AreLinks (record { loopbacks = l.loopbacks.items; ends = l.ends.items }) l.at.items };
}

/// The loopbacks of nodes.
fn loopbacks_of(alloc: Global, nodes: &[Node]) -> Result<Vec<u32>, AllocError>
    ensures { IfOk result (λ loopbacks. loopbacks.items ≡ map (λ node. node.loopback) nodes.now) }
{
    let mut loopbacks = Vec::with_capacity(alloc, nodes.len())?;
    for node in nodes {
        loopbacks.push(node.loopback)?;
    }
    Ok(loopbacks)
}

/// An empty list for each node.
fn empty_lists(alloc: Global, nodes: usize) -> Result<Vec<ListOf<LinkNo>>, AllocError>
    ensures { IfOk result (λ lists. lists.items ≡ replicate nodes []) }
{
    let mut lists = Vec::with_capacity(alloc, nodes)?;
    for _node in 0..nodes {
        lists.push(ListOf::from_vec(Vec::new(alloc)))?;
    }
    Ok(lists)
}

/// Appends a link to the list of one node.
fn add(lists: &mut Vec<ListOf<LinkNo>>, node: NodeNo, link: LinkNo) -> Result<(), AllocError>
    requires { node.0 < length lists.old.items }
    ensures { OnOk result (lists.new.items ≡ slice_set lists.old.items node.0 (slice_index_or lists.old.items node.0 [] ++ link ∷ [])) }
{
    let list = &mut lists[usize::from(node.0)];
    list.push(link)
}

/// By node, the links at it.
fn links_by_node(
    alloc: Global,
    loopbacks: &[u32],
    ends: &[LinkEnds],
) -> Result<Vec<ListOf<LinkNo>>, AllocError>
    requires { IsWired (record { loopbacks = loopbacks.now; ends = ends.now }) }
    ensures { IfOk result (λ lists. AreLinks (record { loopbacks = loopbacks.now; ends = ends.now }) lists.items) }
{
    let mut lists = empty_lists(alloc, loopbacks.len())?;
    for number in 0..ends.len() {
        let link = LinkNo(number as u16);
        add(&mut lists, ends[number].a, link)?;
        add(&mut lists, ends[number].b, link)?;
    }
    Ok(lists)
}

impl Links {
    /// The nodes and links of a topology.
    pub(crate) fn new(alloc: Global, topology: &Topology) -> Result<Links, AllocError>
        ensures { IfOk result (λ links. links ≡ wiring_of topology.now) }
    {
        topology.laws();
        let loopbacks = loopbacks_of(alloc, topology.nodes())?;
        let ends = Vec::from_slice(alloc, topology.links())?;
        let at = links_by_node(alloc, &loopbacks, &ends)?;
        Ok(Links {
            loopbacks,
            ends,
            at,
        })
    }

    /// What holds of every topology's links.
    pub(crate) fn laws(&self)
        ensures { IsWired self.now }
    {
        let _ = &self.at;
    }

    /// How many nodes there are.
    pub(crate) fn nodes(&self) -> u32
        ensures { result ≡ length self.now.loopbacks }
    {
        self.laws();
        self.loopbacks.len() as u32
    }

    /// The links by number.
    pub(crate) fn ends(&self) -> &[LinkEnds]
        ensures { result.now ≡ self.now.ends }
    {
        &self.ends
    }

    /// The links at a node, in order, as they are kept.
    fn kept_at(&self, node: NodeNo) -> &[LinkNo]
        requires { node.0 < length self.now.loopbacks }
        ensures { numbers_of result.now ≡ links_at self.now node.0 }
    {
        self.at[usize::from(node.0)].as_slice()
    }

    /// The links at a node, in order.
    pub(crate) fn at(&self, node: NodeNo) -> &[LinkNo]
        requires { node.0 < length self.now.loopbacks }
        ensures links { numbers_of result.now ≡ links_at self.now node.0 }
        ensures within { All (λ link. link.0 < length self.now.ends) result.now }
        ensures few { length result.now ≤ length self.now.ends }
    {
        self.kept_at(node)
    }

    /// The end of a link that receives in a direction.
    pub(crate) fn receiver(&self, link: LinkNo, dir: Dir) -> NodeNo
        requires { link.0 < length self.now.ends }
        ensures end { result.0 ≡ receiver self.now link.0 dir }
        ensures there { result.0 < length self.now.loopbacks }
    {
        self.laws();
        let ends = self.ends[usize::from(link.0)];
        match dir {
            Dir::Forth => ends.b,
            Dir::Back => ends.a,
        }
    }

    /// The direction of a link away from one of its ends.
    pub(crate) fn away(&self, link: LinkNo, node: NodeNo) -> Dir
        requires { link.0 < length self.now.ends }
        ensures { result ≡ away self.now link.0 node.0 }
    {
        if self.ends[usize::from(link.0)].a.0 == node.0 {
            Dir::Forth
        } else {
            Dir::Back
        }
    }
}
