ghost use Rattle.std.specs.Prelude.{◌≡◌, ◌≢◌, ◌+◌, ◌^◌, ◌≤◌, ◌<◌, ℕ, List, [], false, length, Ok, Some, IsTrue, IsOk, OnOk};
ghost use Rattle.std.specs.BinaryHeap.{heap_items, heap_len};
ghost use Rattle.mn_linkdb.specs.PathTable.{dist_at};

use crate::mend::Mend;
use crate::net::Net;
use crate::way::{Way, other_end};
use mn_base::{LinkNo, NodeNo, Steps};
use mn_wiring::LinkEnds;
use std::alloc::AllocError;
use std::cmp::Reverse;
use std::sync::ledger::Ledger;

impl Mend {
    ghost use Rattle.mn_wiring.specs.Wiring.{link};
    ghost use Rattle.mn_spf.specs.Ways.{wiring_of, AreLinksAt};
    ghost use Rattle.mn_spf_inc.specs.Nets.{all_up};
    ghost use Rattle.mn_spf_inc.specs.Ways.{rank_of, way_at, way_over};
    ghost use Rattle.mn_spf_inc.specs.Mending.{state_of, left, IsCutting, IsHeld, IsKnown, IsMended, NoneLate, OneLate, HeldOverEither, IsPassedOver, ComesOver};

    /// Whether the way comes from this neighbour over this link.
    fn comes_from(&self, root: NodeNo, from: NodeNo, link: LinkEnds, way: Way) -> bool
        requires there { from.0 < length self.now.tree.dists }
        requires fits { (known : ℕ) → dist_at self.now.tree from.0 ≡ Some known → known + link.cost < 2 ^ 32 }
        ensures comes { IsTrue result → (near : Way) × (way_at self.now.tree from.0 ≡ Some near) × (way_over root.0 near link ≡ way) }
        ensures found { (near : Way) → way_at self.now.tree from.0 ≡ Some near → way_over root.0 near link ≡ way → IsTrue result }
    {
        match self.known(from) {
            Some(near) => near.over(root, link) == way,
            None => false,
        }
    }

    /// Whether a node still has its way from a neighbour.
    fn is_held<L: Ledger>(&self, net: &Net, root: NodeNo, way: Way, steps: &mut Steps<L>) -> bool
        requires root { root.0 < net.now.nodes }
        requires cutting { IsCutting net.now root.0 (OneLate way.to) (state_of self.now) }
        requires known { IsKnown net.now root.0 self.now.tree way }
        ensures held { IsTrue result → IsHeld net.now root.0 self.now.tree way.to (rank_of way) }
        ensures found { ComesOver net.now root.0 self.now.tree way → IsTrue result }
        ensures steps { (links : List LinkNo) × AreLinksAt (all_up net.now.nodes net.now.ends) way.to links × (steps.new ≤ steps.old + (1 + length links)) }
    {
        steps.tick();
        let node = NodeNo(way.to);
        for number in net.links_at(node) {
            steps.tick();
            if net.up(*number) {
                let link = net.link(*number);
                if self.comes_from(root, other_end(link, node), link, way) {
                    return true;
                }
            }
        }
        false
    }

    /// Cuts a node off, and doubts those that may have their ways from it.
    fn cut_off<L: Ledger>(
        &mut self,
        net: &Net,
        root: NodeNo,
        way: Way,
        steps: &mut Steps<L>,
    ) -> Result<(), AllocError>
        requires root { root.0 < net.now.nodes }
        requires cutting { IsCutting net.now root.0 (OneLate way.to) (state_of self.old) }
        requires known { IsKnown net.now root.0 self.old.tree way }
        requires not_root { way.to ≢ root.0 }
        ensures cutting { OnOk result (IsCutting net.now root.0 NoneLate (state_of self.new)) }
        ensures less { OnOk result (left (state_of self.new) ≤ left (state_of self.old)) }
        ensures steps { OnOk result ((links : List LinkNo) × AreLinksAt (all_up net.now.nodes net.now.ends) way.to links ×
            (steps.new ≡ steps.old + length links)) }
    {
        self.forget(NodeNo(way.to))?;
        for number in net.links_at(NodeNo(way.to)) {
            steps.tick();
            if net.up(*number) {
                self.doubt(way.over(root, net.link(*number)))?;
            }
        }
        Ok(())
    }

    /// Cuts off a node that was doubted, unless it is held. One whose way still comes from a neighbour stays as it is.
    fn examine<L: Ledger>(
        &mut self,
        net: &Net,
        root: NodeNo,
        way: Way,
        steps: &mut Steps<L>,
    ) -> Result<(), AllocError>
        requires root { root.0 < net.now.nodes }
        requires there { way.to < net.now.nodes }
        requires not_root { way.to ≢ root.0 }
        requires cutting { IsCutting net.now root.0 (OneLate way.to) (state_of self.old) }
        ensures cutting { OnOk result (IsCutting net.now root.0 NoneLate (state_of self.new)) }
        ensures less { OnOk result (left (state_of self.new) ≤ left (state_of self.old)) }
        ensures spared { (known : Way) → way_at self.old.tree way.to ≡ Some known → ComesOver net.now root.0 self.old.tree known →
            IsOk result × (self.new ≡ self.old) }
    {
        let Some(known) = self.known(NodeNo(way.to)) else {
            return Ok(());
        };
        if self.is_held(net, root, known, steps) {
            return Ok(());
        }
        self.cut_off(net, root, known, steps)
    }

    /// Cuts off each node that has lost its way.
    fn cut_all<L: Ledger>(
        &mut self,
        net: &Net,
        root: NodeNo,
        steps: &mut Steps<L>,
    ) -> Result<(), AllocError>
        requires root { root.0 < net.now.nodes }
        requires cutting { IsCutting net.now root.0 NoneLate (state_of self.old) }
        ensures cutting { OnOk result (IsCutting net.now root.0 NoneLate (state_of self.new)) }
        ensures empty { OnOk result (heap_items self.new.queue ≡ []) }
    {
        while let Some(Reverse(way)) = self.queue.pop() {
            self.examine(net, root, way, steps)?;
        }
        Ok(())
    }

    /// Mends the tree where a link went down, and answers whether any node may have lost its way.
    pub(crate) fn part<L: Ledger>(
        &mut self,
        net: &Net,
        root: NodeNo,
        number: LinkNo,
        steps: &mut Steps<L>,
    ) -> Result<bool, AllocError>
        requires root { root.0 < net.now.nodes }
        requires there { number.0 < length net.now.ends }
        requires cutting { let ends = link (wiring_of net.now) number.0 in IsCutting net.now root.0 (HeldOverEither net.now root.0 self.old.tree number.0 ends.a.0 ends.b.0) (state_of self.old) }
        requires no_ways { heap_items self.old.queue ≡ [] }
        requires none_cut { self.old.cut.items ≡ [] }
        ensures mended { OnOk result (IsMended net.now root.0 (state_of self.new)) }
        ensures same { result ≡ Ok false → self.new.tree ≡ self.old.tree }
        ensures idle { let ends = link (wiring_of net.now) number.0 in IsPassedOver root.0 self.old.tree ends.a.0 ends → IsPassedOver root.0 self.old.tree ends.b.0 ends → IsOk result × (self.new.tree ≡ self.old.tree) × (steps.new ≡ steps.old + 3) }
    {
        let link = net.link(number);
        steps.tick(); // the link, and each of its ends
        steps.tick();
        self.doubt_beyond(root, link.a, link)?;
        steps.tick();
        self.doubt_beyond(root, link.b, link)?;
        if self.queue.is_empty() {
            return Ok(false);
        }
        self.cut_all(net, root, steps)?;
        self.rejoin(net, root, steps)?;
        Ok(true)
    }
}
