ghost use Rattle.std.specs.Prelude.{◌≡◌, ◌+◌, ◌<◌, ◌++◌, ◌∷◌, [], length, replicate, slice_set, slice_index_or, IfOk, OnOk};
ghost use Rattle.mn_wiring.specs.Wiring.{link, is_up};
ghost use Rattle.mn_linkdb.specs.Network.{IsNetwork};
ghost use Rattle.mn_linkdb.specs.Learned.{IsView, links_up};
ghost use Rattle.mn_spf.specs.Ways.{wiring_of, AreLinks, AreLinksAt};
ghost use Rattle.mn_spf_inc.specs.Nets.{all_up, all_down, with_link};

use mn_base::{LinkNo, ListOf, NodeNo};
use mn_linkdb::SharedList;
use mn_wiring::LinkEnds;
use std::alloc::{AllocError, Global};
use std::marker::Model;

/// The links of a network by number and by node, which the trees of all nodes own together.
///
/// Contracts see them as links that are all down.
#[derive(Drop)]
pub struct SharedLinks {
    ends: SharedList<LinkEnds>,
    /// By node, the links at it.
    at: SharedList<ListOf<LinkNo>>,
}

impl Model for SharedLinks {
    ghost use Rattle.std.specs.Prelude.{length};
    ghost use Rattle.mn_linkdb.specs.Learned.{Learned};
    ghost use Rattle.mn_spf_inc.specs.Nets.{all_down, AreByNode};

    ghost Value = { Learned };

    ghost view = { λ l. all_down (length l.at) l.ends };

    ghost invariant = { λ l. AreByNode l.ends l.at };
}

/// The links by number and by node, and which of them are up.
#[derive(Drop)]
pub(crate) struct Net {
    ends: SharedList<LinkEnds>,
    up: Vec<bool>,
    /// By node, the links at it, whether they are up or not.
    at: SharedList<ListOf<LinkNo>>,
}

impl Model for Net {
    ghost use Rattle.std.specs.Prelude.{length};
    ghost use Rattle.mn_linkdb.specs.Learned.{Learned};
    ghost use Rattle.mn_spf_inc.specs.Nets.{seen_as, IsNet};

    ghost Value = { Learned };

    ghost view = { λ n. seen_as (length n.at) n.ends n.up.items };

    ghost invariant = { λ n. IsNet n.ends n.up.items n.at };
}

/// An empty list for each node.
fn empty_lists(alloc: Global, nodes: u32) -> Result<Vec<ListOf<LinkNo>>, AllocError>
    ensures { IfOk result (λ lists. lists.items ≡ replicate nodes []) }
{
    let mut lists = Vec::with_capacity(alloc, nodes as usize)?;
    for _node in 0..nodes {
        lists.push(ListOf::from_vec(Vec::new(alloc)))?;
    }
    Ok(lists)
}

/// Appends a link to the list of one node.
fn add(lists: &mut Vec<ListOf<LinkNo>>, node: NodeNo, link: LinkNo) -> Result<(), AllocError>
    requires { node.0 < length lists.old.items }
    ensures { OnOk result (lists.new.items ≡ slice_set lists.old.items node.0 (slice_index_or lists.old.items node.0 [] ++ link ∷ [])) }
{
    let list = &mut lists[usize::from(node.0)];
    list.push(link)
}

/// By node, the links at it.
fn links_by_node(
    alloc: Global,
    nodes: u32,
    ends: &[LinkEnds],
) -> Result<Vec<ListOf<LinkNo>>, AllocError>
    requires { IsNetwork nodes ends.now }
    ensures { IfOk result (λ lists. AreLinks (all_up nodes ends.now) lists.items) }
{
    let mut lists = empty_lists(alloc, nodes)?;
    for number in 0..ends.len() {
        let link = LinkNo(number as u16);
        add(&mut lists, ends[number].a, link)?;
        add(&mut lists, ends[number].b, link)?;
    }
    Ok(lists)
}

impl SharedLinks {
    /// The links of so many nodes, in a network that `is_network` accepts.
    pub fn new(alloc: Global, nodes: u32, ends: &[LinkEnds]) -> Result<SharedLinks, AllocError>
        requires { IsNetwork nodes ends.now }
        ensures { IfOk result (λ links. links ≡ all_down nodes ends.now) }
    {
        let at = links_by_node(alloc, nodes, ends)?;
        let at = SharedList::from_vec(alloc, at)?;
        let ends = Vec::from_slice(alloc, ends)?;
        let ends = SharedList::from_vec(alloc, ends)?;
        Ok(SharedLinks { ends, at })
    }

    /// The ends and figures of each link.
    pub fn ends(&self) -> &SharedList<LinkEnds>
        ensures { result.now ≡ self.now.ends }
    {
        &self.ends
    }
}

impl Net {
    /// These links, all down.
    pub(crate) fn over(alloc: Global, links: &SharedLinks) -> Result<Net, AllocError>
        ensures net { IfOk result (λ net. net ≡ links.now) }
        ensures form { IsView links.now }
        ensures down { links.now ≡ all_down links.now.nodes links.now.ends }
    {
        let up = vec![in alloc; false; links.ends.as_slice().len()]?;
        let ends = links.ends.share()?;
        let at = links.at.share()?;
        Ok(Net { ends, up, at })
    }

    /// How many nodes there are.
    pub(crate) fn nodes(&self) -> u32
        ensures { result ≡ self.now.nodes }
    {
        self.at.as_slice().len() as u32
    }

    /// The ends and figures of each link.
    pub(crate) fn ends(&self) -> &[LinkEnds]
        ensures { result.now ≡ self.now.ends }
    {
        self.ends.as_slice()
    }

    /// The ends and figures of a link.
    pub(crate) fn link(&self, number: LinkNo) -> LinkEnds
        requires { number.0 < length self.now.ends }
        ensures value { result ≡ link (wiring_of self.now) number.0 }
        ensures form { IsView self.now }
    {
        self.ends.as_slice()[usize::from(number.0)]
    }

    /// Whether a link is up.
    pub(crate) fn up(&self, number: LinkNo) -> bool
        requires { number.0 < length self.now.ends }
        ensures { result ≡ is_up (links_up self.now) number.0 }
    {
        self.up[usize::from(number.0)]
    }

    /// The links at a node, whether they are up or not.
    pub(crate) fn links_at(&self, node: NodeNo) -> &[LinkNo]
        requires { node.0 < self.now.nodes }
        ensures links { AreLinksAt (all_up self.now.nodes self.now.ends) node.0 result.now }
        ensures form { IsView self.now }
    {
        self.at.as_slice()[usize::from(node.0)].as_slice()
    }

    /// Makes a link up or down.
    pub(crate) fn set(&mut self, number: LinkNo, up: bool)
        requires { number.0 < length self.old.ends }
        ensures { self.new ≡ with_link self.old number.0 up }
    {
        self.up[usize::from(number.0)] = up;
    }
}
