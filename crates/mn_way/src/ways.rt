ghost use Rattle.std.specs.Prelude.{◌≡◌, ◌<◌, All, length, map, replicate, slice_index_or, slice_set, false, true, IfOk, OnOk, OnErr};
ghost use Rattle.mn_linkdb.specs.Network.{IsNetwork};

use crate::links::links_by_node;
use crate::trees::{EdgeTree, trees_of, turn_all};
use mn_base::{LinkNo, ListOf, NodeNo};
use mn_spf_inc::SharedLinks;
use mn_wiring::LinkEnds;
use std::alloc::{AllocError, Global};
use std::marker::Model;

/// The ways to some nodes of a network, its edges, over the links that are up.
#[derive(Drop)]
pub struct Ways {
    pub(crate) links: SharedLinks,
    /// By node, the links at it, whether they are up or not.
    pub(crate) at: Vec<ListOf<LinkNo>>,
    pub(crate) trees: Vec<EdgeTree>,
    pub(crate) up: Vec<bool>,
    ldp: Vec<bool>,
    failed: bool,
}

impl Model for Ways {
    ghost use Rattle.mn_way.specs.Switched.{Switched, IsKept, roots_of};

    ghost Value = { Switched };

    ghost view = { λ w. record { nodes = w.links.nodes; ends = w.links.ends; edges = roots_of w.trees.items; up = w.up.items; ldp = w.ldp.items; failed = w.failed } };

    ghost invariant = { λ w. IsKept w.links w.at.items w.trees.items w.up.items w.ldp.items w.failed };
}

impl Ways {
    /// The ways to these edges, in a network that `is_network` accepts: all links are up, with LDP.
    pub fn new(
        alloc: Global,
        nodes: u32,
        ends: &[LinkEnds],
        edges: &[NodeNo],
    ) -> Result<Ways, AllocError>
        requires network { IsNetwork nodes ends.now }
        requires edges { All (λ edge. edge.0 < nodes) edges.now }
        ensures { IfOk result (λ ways. ways ≡ record { nodes = nodes; ends = ends.now; edges = map (λ edge. edge.0) edges.now; up = replicate (length ends.now) true; ldp = replicate (length ends.now) true; failed = false }) }
    {
        let at = links_by_node(alloc, nodes, ends)?;
        let up = vec![in alloc; true; ends.len()]?;
        let ldp = vec![in alloc; true; ends.len()]?;
        let links = SharedLinks::new(alloc, nodes, ends)?;
        let trees = trees_of(alloc, &links, edges)?;
        Ok(Ways {
            links,
            at,
            trees,
            up,
            ldp,
            failed: false,
        })
    }

    /// Makes a link up or down, and mends each tree. A link that is so already takes nothing.
    ///
    /// An `Err` means out of memory. The ways have then failed, and are of no use.
    pub fn set_up(&mut self, link: LinkNo, up: bool) -> Result<(), AllocError>
        requires sound { self.old.failed ≡ false }
        requires there { link.0 < length self.old.ends }
        ensures ok { OnOk result (self.new ≡ record self.old { up = slice_set self.old.up link.0 up }) }
        ensures err { OnErr result (self.new ≡ record self.old { failed = true }) }
    {
        let at = usize::from(link.0);
        if self.up[at] == up {
            return Ok(());
        }
        self.failed = true;
        turn_all(&mut self.trees, link, up)?;
        self.up[at] = up;
        self.failed = false;
        Ok(())
    }

    /// Switches LDP on a link.
    pub fn set_ldp(&mut self, link: LinkNo, on: bool)
        requires { link.0 < length self.old.ends }
        ensures { self.new ≡ record self.old { ldp = slice_set self.old.ldp link.0 on } }
    {
        self.ldp[usize::from(link.0)] = on;
    }

    /// Whether the link is up.
    pub fn is_up(&self, link: LinkNo) -> bool
        requires { link.0 < length self.now.ends }
        ensures { result ≡ slice_index_or self.now.up link.0 false }
    {
        self.up[usize::from(link.0)]
    }

    /// Whether LDP is on on the link.
    pub fn has_ldp(&self, link: LinkNo) -> bool
        requires { link.0 < length self.now.ends }
        ensures { result ≡ slice_index_or self.now.ldp link.0 false }
    {
        self.ldp[usize::from(link.0)]
    }

    /// Whether memory was wanting at a change: the ways are then of no use.
    pub fn failed(&self) -> bool
        ensures { result ≡ self.now.failed }
    {
        self.failed
    }
}
