ghost use Rattle.std.specs.Prelude.{◌≡◌, ◌<◌, ◌+◌, ◌++◌, ℕ, length, map, take, true, false, is_some, option_map, unwrap_or, Option, Some, IfOk, IfSome, OnOk, []};
ghost use Rattle.std.specs.List.{list_all};
ghost use Rattle.mn_wiring.specs.Wiring.{Wiring};
ghost use Rattle.mn_wiring.specs.Paths.{dist_in, dists_to, next};
ghost use Rattle.mn_toward.specs.Toward.{as_hop};
ghost use Rattle.mn_way.specs.Switched.{IsOver, edge_at};
ghost use Rattle.mn_way.specs.Way.{has_ldp, hops_within, label_path, labelled, link_numbered, links_on, nodes_on, numbered, way};

use crate::ways::Ways;
use mn_base::{LinkNo, NodeNo};
use mn_toward::next_toward;
use std::alloc::AllocError;

impl Ways {
    /// The least cost of a walk from a node to the edge of this place in the list.
    fn cost(&self, node: NodeNo, edge: usize) -> Option<u32>
        requires sound { self.now.failed ≡ false }
        requires edge { edge < length self.now.edges }
        requires here { node.0 < self.now.nodes }
        ensures least { (wiring : Wiring) → IsOver wiring self.now → result ≡ dist_in (dists_to wiring self.now.up (edge_at self.now edge)) node.0 }
        ensures fits { IfSome result (λ cost. cost < 4294967295) }
    {
        self.trees[edge].tree().tree().dist(node)
    }

    /// The next hop of a node towards an edge: none at the edge itself, and where no links lead to it.
    fn hop(&self, node: NodeNo, edge: usize) -> Option<(NodeNo, LinkNo)>
        requires sound { self.now.failed ≡ false }
        requires edge { edge < length self.now.edges }
        requires here { node.0 < self.now.nodes }
        ensures hop { (wiring : Wiring) → IsOver wiring self.now → as_hop result ≡ next wiring self.now.up node.0 (edge_at self.now edge) }
        ensures there { IfSome result (λ hop. (hop.0.0 < self.now.nodes) × (hop.1.0 < length self.now.ends)) }
    {
        let tree = &self.trees[edge];
        if node.0 == tree.edge().0 {
            return None;
        }
        let links = self.at[usize::from(node.0)].as_slice();
        next_toward(
            self.links.ends().as_slice(),
            &self.up,
            tree.tree().tree(),
            node,
            links,
        )
    }

    /// Whether links that are up lead from the node to the edge.
    pub fn is_joined(&self, node: NodeNo, edge: usize) -> bool
        requires sound { self.now.failed ≡ false }
        requires edge { edge < length self.now.edges }
        requires here { node.0 < self.now.nodes }
        ensures { (wiring : Wiring) → IsOver wiring self.now → result ≡ is_some (dist_in (dists_to wiring self.now.up (edge_at self.now edge)) node.0) }
    {
        self.cost(node, edge).is_some()
    }

    /// How many nodes the label switched path from the node to the edge has, both included; none where none leads there.
    pub fn length(&self, node: NodeNo, edge: usize) -> Option<u32>
        requires sound { self.now.failed ≡ false }
        requires edge { edge < length self.now.edges }
        requires here { node.0 < self.now.nodes }
        ensures { (wiring : Wiring) → IsOver wiring self.now → result ≡ option_map length (label_path wiring self.now.up self.now.ldp node.0 (edge_at self.now edge)) }
    {
        match self.cost(node, edge) {
            Some(cost) => self.length_within(node, edge, cost),
            None => None,
        }
    }

    /// Appends the nodes of the label switched path from the node to the edge, both included; nothing where none leads there.
    ///
    /// An `Err` means out of memory: a part of them may then be appended.
    pub fn put_path(
        &self,
        node: NodeNo,
        edge: usize,
        path: &mut Vec<NodeNo>,
    ) -> Result<(), AllocError>
        requires sound { self.now.failed ≡ false }
        requires edge { edge < length self.now.edges }
        requires here { node.0 < self.now.nodes }
        ensures { (wiring : Wiring) → IsOver wiring self.now → OnOk result (path.new.items ≡ path.old.items ++ map numbered (unwrap_or (label_path wiring self.now.up self.now.ldp node.0 (edge_at self.now edge)) [])) }
    {
        let Some(cost) = self.cost(node, edge) else {
            return Ok(());
        };
        let before = path.len();
        if !self.put_nodes(node, edge, cost, path)? {
            path.truncate(before);
        }
        Ok(())
    }

    /// Appends the links of the way from the node to the edge, whatever LDP; none where no links lead there.
    ///
    /// An `Err` means out of memory: a part of them may then be appended.
    pub fn put_links(
        &self,
        node: NodeNo,
        edge: usize,
        links: &mut Vec<LinkNo>,
    ) -> Result<(), AllocError>
        requires sound { self.now.failed ≡ false }
        requires edge { edge < length self.now.edges }
        requires here { node.0 < self.now.nodes }
        ensures { (wiring : Wiring) → IsOver wiring self.now → OnOk result (links.new.items ≡ links.old.items ++ map link_numbered (links_on (unwrap_or (way wiring self.now.up node.0 (edge_at self.now edge)) []))) }
    {
        match self.cost(node, edge) {
            Some(cost) => self.put_hops(node, edge, cost, links),
            None => Ok(()),
        }
    }

    /// How many nodes the way of at most so many hops has, if LDP is on on each of its links.
    fn length_within(&self, node: NodeNo, edge: usize, most: u32) -> Option<u32>
        requires sound { self.now.failed ≡ false }
        requires edge { edge < length self.now.edges }
        requires here { node.0 < self.now.nodes }
        requires fits { most < 4294967295 }
        ensures { (wiring : Wiring) → IsOver wiring self.now → result ≡ option_map length (labelled self.now.ldp node.0 (hops_within wiring self.now.up (edge_at self.now edge) most node.0)) }
    {
        let mut at = node;
        let mut length = 1;
        for _passed in 0..most {
            match self.hop(at, edge) {
                Some(hop) => {
                    if !self.has_ldp(hop.1) {
                        return None;
                    }
                    at = hop.0;
                    length += 1;
                }
                None => return Some(length),
            }
        }
        Some(length)
    }

    /// Appends the nodes of the way of at most so many hops, and answers whether LDP is on on each of its links. Where it isn't, only the
    /// first nodes are appended.
    fn put_nodes(
        &self,
        node: NodeNo,
        edge: usize,
        most: u32,
        path: &mut Vec<NodeNo>,
    ) -> Result<bool, AllocError>
        requires sound { self.now.failed ≡ false }
        requires edge { edge < length self.now.edges }
        requires here { node.0 < self.now.nodes }
        ensures behind { OnOk result (take (length path.old.items) path.new.items ≡ path.old.items) }
        ensures on { (wiring : Wiring) → IsOver wiring self.now →
            IfOk result (λ on. on ≡ list_all (has_ldp self.now.ldp) (hops_within wiring self.now.up (edge_at self.now edge) most node.0)) }
        ensures nodes { (wiring : Wiring) → IsOver wiring self.now →
            IfOk result (λ on. on ≡ true → path.new.items ≡ path.old.items ++ map numbered (nodes_on node.0 (hops_within wiring self.now.up (edge_at self.now edge) most node.0))) }
    {
        let mut at = node;
        path.push(node)?;
        for _passed in 0..most {
            match self.hop(at, edge) {
                Some(hop) => {
                    let has_ldp = self.has_ldp(hop.1);
                    if !has_ldp {
                        return Ok(false);
                    }
                    path.push(hop.0)?;
                    at = hop.0;
                }
                None => return Ok(true),
            }
        }
        Ok(true)
    }

    /// Appends the links of the way of at most so many hops.
    fn put_hops(
        &self,
        node: NodeNo,
        edge: usize,
        most: u32,
        links: &mut Vec<LinkNo>,
    ) -> Result<(), AllocError>
        requires sound { self.now.failed ≡ false }
        requires edge { edge < length self.now.edges }
        requires here { node.0 < self.now.nodes }
        ensures { (wiring : Wiring) → IsOver wiring self.now → OnOk result (links.new.items ≡ links.old.items ++ map link_numbered (links_on (hops_within wiring self.now.up (edge_at self.now edge) most node.0))) }
    {
        let mut at = node;
        for _passed in 0..most {
            match self.hop(at, edge) {
                Some(hop) => {
                    links.push(hop.1)?;
                    at = hop.0;
                }
                None => return Ok(()),
            }
        }
        Ok(())
    }
}
