//! The nodes.
ghost use Rattle.std.specs.Prelude.{◌≡◌, ◌==◌, ◌<◌, ◌^◌, ◌++◌, ◌∷◌, [], false, length, map, OnOk};
ghost use Rattle.std.specs.List.{list_any};
ghost use Rattle.mn_topo.specs.Names.{has_name};
ghost use Rattle.mn_topo.specs.Network.{nodes_with};
ghost use Rattle.mn_topo.specs.Nodes.{no_nodes, has_loopback};

use crate::names::Names;
use std::alloc::{AllocError, Global};
use std::marker::Model;

/// A node.
#[derive(Clone, Copy, Debug, PartialEq, Eq)]
pub struct Node {
    /// Its address, outside 0.0.0.0/8, 127.0.0.0/8, 224.0.0.0/4 and 240.0.0.0/4.
    pub loopback: u32,
}

/// The nodes in order, at most some hundreds.
pub struct Nodes {
    names: Names,
    nodes: Vec<Node>,
}

impl Model for Nodes {
    ghost use Rattle.std.specs.Prelude.{map};
    ghost use Rattle.mn_topo.specs.Nodes.{NodeTable};

    ghost Value = { NodeTable };

    ghost view = { λ a. record { names = a.names; loopbacks = map (λ node. node.loopback) a.nodes.items } };
}

/// By hand, so that whoever owns them drops them by one call.
impl Drop for Nodes {
    fn drop(self) {
        let Nodes { names: _, nodes: _ } = self;
    }
}

fn is_loopback_of(nodes: &[Node], loopback: u32) -> bool
    ensures { result ≡ list_any (λ node. loopback == node.loopback) nodes.now }
{
    nodes.iter().any(|node| loopback == node.loopback)
}

impl Nodes {
    /// No nodes.
    pub fn new(alloc: Global) -> Nodes
        ensures { result ≡ no_nodes }
    {
        Nodes {
            names: Names::new(alloc),
            nodes: Vec::new(alloc),
        }
    }

    /// Their names.
    pub fn names(&self) -> &Names
        ensures { result.now ≡ self.now.names }
    {
        &self.names
    }

    /// The nodes in order.
    #[tactic(auto, using(crate::proofs::NodeList::nodes_again))]
    pub fn as_slice(&self) -> &[Node]
        ensures { result.now ≡ nodes_with self.now.loopbacks }
    {
        &self.nodes
    }

    /// Whether one of them has the loopback.
    pub fn has_loopback(&self, loopback: u32) -> bool
        ensures { result ≡ has_loopback self.now loopback }
    {
        is_loopback_of(&self.nodes, loopback)
    }

    /// Adds a node, of a new name and a new loopback.
    pub fn put(&mut self, alloc: Global, name: &[u8], loopback: u32) -> Result<(), AllocError>
        requires room { length self.old.names < 2 ^ 16 }
        requires fresh { has_name self.old.names name.now ≡ false }
        requires free { has_loopback self.old loopback ≡ false }
        ensures { OnOk result (self.new ≡ record { names = self.old.names ++ name.now ∷ []; loopbacks = self.old.loopbacks ++ loopback ∷ [] }) }
    {
        self.nodes.reserve(1)?;
        self.names.put(alloc, name)?;
        self.nodes.push(Node { loopback })?;
        Ok(())
    }
}
