//! The VRFs.
ghost use Rattle.std.specs.Prelude.{◌≡◌, ◌==◌, ◌<◌, ◌^◌, ◌++◌, ◌∷◌, [], if◌then◌else◌, false, length, OnOk, OnErr};
ghost use Rattle.std.specs.List.{list_any};
ghost use Rattle.mn_topo.specs.Names.{has_name};

use crate::names::Names;
use mn_wiring::{ListOf, NodeNo, Rd, Rt};
use std::alloc::{AllocError, Global};
use std::marker::Model;

/// A VRF of a node (RFC 4364, section 3).
#[derive(Drop)]
pub struct VrfDef {
    pub node: NodeNo,
    pub rd: Rd,
    /// The targets of which a route that is imported has one, at most 16 and each once.
    pub import: ListOf<Rt>,
    /// The targets that an exported route has, at most 16 and each once.
    pub export: ListOf<Rt>,
}

/// The VRFs in order, and the nodes that have one to look among: at most some hundreds.
pub struct Vrfs {
    names: Names,
    vrfs: Vec<VrfDef>,
    edges: Vec<u16>,
}

impl Model for Vrfs {
    ghost use Rattle.std.specs.Prelude.{◌≡◌};
    ghost use Rattle.mn_topo.specs.VrfTable.{VrfTable, edges_of};

    ghost Value = { VrfTable };

    ghost view = { λ a. record { names = a.names; vrfs = a.vrfs.items } };

    ghost invariant = { λ a. a.edges.items ≡ edges_of a.vrfs.items };
}

/// By hand, so that whoever owns them drops them by one call.
impl Drop for Vrfs {
    fn drop(self) {
        let Vrfs {
            names: _,
            vrfs: _,
            edges: _,
        } = self;
    }
}

ghost use Rattle.mn_topo.specs.VrfTable.{no_vrfs, has_rd, is_edge, edges_of};

fn is_among(edges: &[u16], node: u16) -> bool
    ensures { result ≡ list_any (λ edge. node == edge) edges.now }
{
    edges.iter().any(|edge| node == *edge)
}

/// One more edge, unless it is among them.
fn add_edge(edges: &mut Vec<u16>, node: u16) -> Result<(), AllocError>
    ensures ok { OnOk result (edges.new.items ≡ (if list_any (λ edge. node == edge) edges.old.items then edges.old.items else edges.old.items ++ node ∷ [])) }
    ensures err { OnErr result (edges.new.items ≡ edges.old.items) }
{
    if !is_among(edges, node) {
        edges.push(node)?;
    }
    Ok(())
}

impl Vrfs {
    /// No VRFs.
    pub fn new(alloc: Global) -> Vrfs
        ensures { result ≡ no_vrfs }
    {
        Vrfs {
            names: Names::new(alloc),
            vrfs: Vec::new(alloc),
            edges: Vec::new(alloc),
        }
    }

    /// Their names.
    pub fn names(&self) -> &Names
        ensures { result.now ≡ self.now.names }
    {
        &self.names
    }

    /// The VRFs in order.
    pub fn as_slice(&self) -> &[VrfDef]
        ensures { result.now ≡ self.now.vrfs }
    {
        &self.vrfs
    }

    /// Whether one of them has the distinguisher.
    pub fn has_rd(&self, rd: Rd) -> bool
        ensures { result ≡ has_rd self.now.vrfs rd }
    {
        self.vrfs.iter().any(|vrf| rd.0 == vrf.rd.0)
    }

    /// Whether a VRF is at the node.
    pub fn is_edge(&self, node: u16) -> bool
        ensures { result ≡ is_edge self.now.vrfs node }
    {
        is_among(&self.edges, node)
    }

    /// How many nodes have a VRF.
    pub fn edge_count(&self) -> usize
        ensures { result ≡ length (edges_of self.now.vrfs) }
    {
        self.edges.len()
    }

    /// Adds a VRF, of a new name and a new distinguisher.
    pub fn put(&mut self, alloc: Global, name: &[u8], vrf: VrfDef) -> Result<(), AllocError>
        requires room { length self.old.names < 2 ^ 16 }
        requires fresh { has_name self.old.names name.now ≡ false }
        requires free { has_rd self.old.vrfs vrf.rd ≡ false }
        ensures { OnOk result (self.new ≡ record { names = self.old.names ++ name.now ∷ []; vrfs = self.old.vrfs ++ vrf ∷ [] }) }
    {
        self.vrfs.reserve(1)?;
        self.names.put(alloc, name)?;
        add_edge(&mut self.edges, vrf.node.0)?;
        self.vrfs.push(vrf)?;
        Ok(())
    }
}
