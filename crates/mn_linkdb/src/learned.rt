ghost use Rattle.std.specs.Prelude.{◌≡◌, ◌≤◌, ◌<◌, ◌↔◌, length, replicate, slice_index, IsErr, IfOk, OnOk, OnErr};
ghost use Rattle.mn_wiring.specs.Wiring.{is_up};
ghost use Rattle.mn_linkdb.specs.Network.{IsNetwork};
ghost use Rattle.mn_linkdb.specs.Learned.{IsView, links_up, after_learn};

use crate::LinkDb;
use crate::changes::is_odd;
use crate::shared::SharedList;
use mn_base::LinkNo;
use mn_wiring::LinkEnds;
use std::alloc::{AllocError, Global};
use std::marker::Model;

/// Each change of the link is learned.
#[derive(Clone, Copy, Debug, PartialEq, Eq)]
pub struct Empty;

/// How many changes of each link a node has learned, and so which links are up in its view.
#[derive(Drop)]
pub struct View {
    nodes: u32,
    ends: SharedList<LinkEnds>,
    learned: Vec<u32>,
}

impl Model for View {
    ghost use Rattle.mn_linkdb.specs.Learned.{Learned, IsView};

    ghost Value = { Learned };

    ghost view = { λ v. record { nodes = v.nodes; ends = v.ends; counts = v.learned.items } };

    ghost invariant = { λ v. IsView (record { nodes = v.nodes; ends = v.ends; counts = v.learned.items }) };
}

impl View {
    /// The view of a node that has learned nothing yet, over a network that `is_network` accepts.
    pub fn new(alloc: Global, nodes: u32, ends: &[LinkEnds]) -> Result<View, AllocError>
        requires { IsNetwork nodes ends.now }
        ensures { IfOk result (λ view. view ≡ record { nodes = nodes; ends = ends.now; counts = replicate (length ends.now) 0 }) }
    {
        let ends = Vec::from_slice(alloc, ends)?;
        let ends = SharedList::from_vec(alloc, ends)?;
        View::over(alloc, nodes, &ends)
    }

    /// The same over links that the view shares with others.
    pub fn over(alloc: Global, nodes: u32, ends: &SharedList<LinkEnds>) -> Result<View, AllocError>
        requires { IsNetwork nodes ends.now }
        ensures { IfOk result (λ view. view ≡ record { nodes = nodes; ends = ends.now; counts = replicate (length ends.now) 0 }) }
    {
        let learned = vec![in alloc; 0; ends.as_slice().len()]?;
        let ends = ends.share()?;
        Ok(View {
            nodes,
            ends,
            learned,
        })
    }

    /// How many nodes the network has: at most 256.
    pub fn nodes(&self) -> u32
        ensures value { result ≡ self.now.nodes }
        ensures form { IsView self.now }
    {
        self.nodes
    }

    /// The ends and figures of each link: at most 1,024 links.
    pub fn ends(&self) -> &[LinkEnds]
        ensures value { result.now ≡ self.now.ends }
        ensures form { IsView self.now }
    {
        self.ends.as_slice()
    }

    /// How many changes of the link the node has learned.
    pub fn learned(&self, link: LinkNo) -> u32
        requires { link.0 < length self.now.ends }
        ensures { result ≡ slice_index self.now.counts link.0 }
    {
        self.learned[usize::from(link.0)]
    }

    /// Whether the link is up in the node's view.
    pub fn up(&self, link: LinkNo) -> bool
        requires { link.0 < length self.now.ends }
        ensures { result ≡ is_up (links_up self.now) link.0 }
    {
        is_odd(self.learned(link))
    }

    /// Learns the next change of the link. An `Err` changes nothing: each change is learned.
    pub fn learn(&mut self, db: &LinkDb, link: LinkNo) -> Result<(), Empty>
        requires there { link.0 < length self.old.ends }
        requires same_links { length db.now ≡ length self.old.ends }
        requires not_before { slice_index self.old.counts link.0 ≤ slice_index db.now link.0 }
        ensures learned { OnOk result (self.new ≡ after_learn self.old link.0) }
        ensures empty { IsErr result ↔ (slice_index self.old.counts link.0 ≡ slice_index db.now link.0) }
        ensures err { OnErr result (self.new ≡ self.old) }
    {
        let learned = self.learned(link);
        if learned == db.changes(link) {
            return Err(Empty);
        }
        self.learned[usize::from(link.0)] = learned + 1;
        Ok(())
    }
}
