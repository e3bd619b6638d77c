ghost use Rattle.std.specs.Prelude.{◌≡◌, ◌≤◌, ◌<◌, ◌+◌, [], true, false, List, length, All, Ok, OnOk};
ghost use Rattle.std.specs.BinaryHeap.{heap_items, heap_len};
ghost use Rattle.mn_wiring.specs.Wiring.{is_up};
ghost use Rattle.mn_linkdb.specs.Learned.{links_up};
ghost use Rattle.mn_spf.specs.Ways.{AreLinksAt};
ghost use Rattle.mn_spf_inc.specs.Nets.{all_up};

use crate::mend::Mend;
use crate::net::Net;
use crate::way::{Way, other_end};
use mn_base::{LinkNo, NodeNo, Steps};
use std::alloc::AllocError;
use std::cmp::Reverse;
use std::sync::ledger::Ledger;

impl Mend {
    ghost use Rattle.mn_spf_inc.specs.Mending.{state_of, work, IsGrowing, IsKnown, IsMended, NoRest, AllAt, WasBest, OneLink, IntoCut, IntoCutOr};

    /// Offers the ways that go on over the links at the end of a way.
    fn follow<L: Ledger>(
        &mut self,
        net: &Net,
        root: NodeNo,
        way: Way,
        steps: &mut Steps<L>,
    ) -> Result<(), AllocError>
        requires root { root.0 < net.now.nodes }
        requires growing { IsGrowing net.now root.0 (AllAt way.to) (state_of self.old) }
        requires known { IsKnown net.now root.0 self.old.tree way }
        ensures growing { OnOk result (IsGrowing net.now root.0 NoRest (state_of self.new)) }
        ensures less { OnOk result (work (state_of self.new) ≤ work (state_of self.old)) }
        ensures cut { OnOk result (self.new.cut.items ≡ self.old.cut.items) }
        ensures steps { OnOk result ((links : List LinkNo) × AreLinksAt (all_up net.now.nodes net.now.ends) way.to links ×
            (steps.new ≡ steps.old + (1 + length links))) }
    {
        steps.tick();
        for number in net.links_at(NodeNo(way.to)) {
            steps.tick();
            if net.up(*number) {
                self.offer(way.over(root, net.link(*number)))?;
            }
        }
        Ok(())
    }

    /// Follows the links of a node that was queued, if no better way to it came since: that one
    /// stands in the queue too.
    fn take<L: Ledger>(
        &mut self,
        net: &Net,
        root: NodeNo,
        way: Way,
        steps: &mut Steps<L>,
    ) -> Result<(), AllocError>
        requires root { root.0 < net.now.nodes }
        requires there { way.to < net.now.nodes }
        requires growing { IsGrowing net.now root.0 (WasBest self.old.tree way) (state_of self.old) }
        ensures growing { OnOk result (IsGrowing net.now root.0 NoRest (state_of self.new)) }
        ensures less { OnOk result (work (state_of self.new) ≤ work (state_of self.old)) }
        ensures cut { OnOk result (self.new.cut.items ≡ self.old.cut.items) }
    {
        let Some(known) = self.known(NodeNo(way.to)) else {
            return Ok(());
        };
        if known.beats(way) {
            return Ok(());
        }
        self.follow(net, root, known, steps)
    }

    /// Follows the links of each node that is queued, until no way gets better.
    fn spread<L: Ledger>(
        &mut self,
        net: &Net,
        root: NodeNo,
        steps: &mut Steps<L>,
    ) -> Result<(), AllocError>
        requires root { root.0 < net.now.nodes }
        requires growing { IsGrowing net.now root.0 NoRest (state_of self.old) }
        requires none_cut { self.old.cut.items ≡ [] }
        ensures { OnOk result (IsMended net.now root.0 (state_of self.new)) }
    {
        while let Some(Reverse(way)) = self.queue.pop() {
            self.take(net, root, way, steps)?;
        }
        Ok(())
    }

    /// Mends the tree where a link came up, and answers whether any way got better.
    pub(crate) fn join<L: Ledger>(
        &mut self,
        net: &Net,
        root: NodeNo,
        number: LinkNo,
        steps: &mut Steps<L>,
    ) -> Result<bool, AllocError>
        requires root { root.0 < net.now.nodes }
        requires there { number.0 < length net.now.ends }
        requires up { is_up (links_up net.now) number.0 ≡ true }
        requires growing { IsGrowing net.now root.0 (OneLink number.0) (state_of self.old) }
        requires none_cut { self.old.cut.items ≡ [] }
        ensures mended { OnOk result (IsMended net.now root.0 (state_of self.new)) }
        ensures same { result ≡ Ok false → self.new.tree ≡ self.old.tree }
    {
        let link = net.link(number);
        steps.tick();
        steps.tick();
        self.offer_beyond(root, link.a, link)?;
        steps.tick();
        self.offer_beyond(root, link.b, link)?;
        if self.queue.is_empty() {
            return Ok(false);
        }
        self.spread(net, root, steps)?;
        Ok(true)
    }

    /// Offers a node the ways from its neighbours.
    fn reach<L: Ledger>(
        &mut self,
        net: &Net,
        root: NodeNo,
        node: NodeNo,
        steps: &mut Steps<L>,
    ) -> Result<(), AllocError>
        requires root { root.0 < net.now.nodes }
        requires there { node.0 < net.now.nodes }
        requires growing { IsGrowing net.now root.0 (IntoCutOr net.now self.old.cut.items node.0) (state_of self.old) }
        ensures growing { OnOk result (IsGrowing net.now root.0 (IntoCut net.now self.new.cut.items) (state_of self.new)) }
        ensures cut { OnOk result (self.new.cut.items ≡ self.old.cut.items) }
        ensures steps { OnOk result ((links : List LinkNo) × AreLinksAt (all_up net.now.nodes net.now.ends) node.0 links ×
            (steps.new ≡ steps.old + (1 + length links))) }
    {
        steps.tick();
        for number in net.links_at(node) {
            steps.tick();
            if net.up(*number) {
                let link = net.link(*number);
                self.offer_beyond(root, other_end(link, node), link)?;
            }
        }
        Ok(())
    }

    /// Finds ways to the nodes that were cut off, where there are any.
    pub(crate) fn rejoin<L: Ledger>(
        &mut self,
        net: &Net,
        root: NodeNo,
        steps: &mut Steps<L>,
    ) -> Result<(), AllocError>
        requires root { root.0 < net.now.nodes }
        requires growing { IsGrowing net.now root.0 (IntoCut net.now self.old.cut.items) (state_of self.old) }
        requires there { All (λ node. node.0 < net.now.nodes) self.old.cut.items }
        ensures { OnOk result (IsMended net.now root.0 (state_of self.new)) }
    {
        while let Some(node) = self.cut.pop() {
            self.reach(net, root, node, steps)?;
        }
        self.spread(net, root, steps)
    }
}
