ghost use Rattle.std.specs.Prelude.{◌≡◌, ◌≢◌, ◌+◌, ◌<◌, [], length, replicate, slice_set, true, false, Ok, IsErr, IsOk, IfOk, OnOk, OnErr};
ghost use Rattle.mn_wiring.specs.Wiring.{Wiring, is_up};
ghost use Rattle.mn_linkdb.specs.Network.{IsNetwork};
ghost use Rattle.mn_linkdb.specs.PathTable.{IsTable};
ghost use Rattle.mn_linkdb.specs.Trees.{IsTree};
ghost use Rattle.mn_spf_inc.specs.Mended.{Mended, IsOver, IsIdle};

use crate::mend::Mend;
use crate::net::{Net, SharedLinks};
use mn_base::{LinkNo, NodeNo, Steps};
use mn_linkdb::Tree;
use mn_wiring::LinkEnds;
use std::alloc::{AllocError, Global};
use std::marker::{Brand, Model};
use std::sync::ledger::{Blank, Ledger};

/// The least walks from a root over the links that are up, mended at each change of a link.
#[derive(Drop)]
pub struct MendTree {
    root: NodeNo,
    net: Net,
    mend: Mend,
    failed: bool,
}

impl Model for MendTree {
    ghost use Rattle.mn_linkdb.specs.Learned.{links_up};
    ghost use Rattle.mn_spf_inc.specs.Mended.{Mended, IsKept};
    ghost use Rattle.mn_spf_inc.specs.Mending.{state_of};

    ghost Value = { Mended };

    ghost view = { λ m. record { root = m.root.0; nodes = m.net.nodes; ends = m.net.ends; up = links_up m.net; tree = m.mend.tree; failed = m.failed } };

    ghost invariant = { λ m. IsKept m.net m.root.0 m.failed (state_of m.mend) };
}

impl MendTree {
    /// The tree of a root over links that are all down, in a network that `is_network` accepts.
    pub fn new(
        alloc: Global,
        root: NodeNo,
        nodes: u32,
        ends: &[LinkEnds],
    ) -> Result<MendTree, AllocError>
        requires network { IsNetwork nodes ends.now }
        requires root { root.0 < nodes }
        ensures of { IfOk result (λ tree. (tree.root ≡ root.0) × (tree.nodes ≡ nodes) × (tree.ends ≡ ends.now)) }
        ensures down { IfOk result (λ tree. tree.up ≡ replicate (length ends.now) false) }
        ensures sound { IfOk result (λ tree. tree.failed ≡ false) }
    {
        let links = SharedLinks::new(alloc, nodes, ends)?;
        MendTree::over(alloc, root, &links)
    }

    /// The same over links that the tree shares with others.
    pub fn over(alloc: Global, root: NodeNo, links: &SharedLinks) -> Result<MendTree, AllocError>
        requires root { root.0 < links.now.nodes }
        ensures of { IfOk result (λ tree. (tree.root ≡ root.0) × (tree.nodes ≡ links.now.nodes) × (tree.ends ≡ links.now.ends)) }
        ensures down { IfOk result (λ tree. tree.up ≡ replicate (length links.now.ends) false) }
        ensures sound { IfOk result (λ tree. tree.failed ≡ false) }
    {
        let net = Net::over(alloc, links)?;
        let mend = Mend::new(alloc, net.nodes(), root)?;
        Ok(MendTree {
            root,
            net,
            mend,
            failed: false,
        })
    }

    /// Makes a link up or down, which it isn't yet, and mends the tree. A step is one link or node
    /// looked at; a link over which no least walk goes is lost in three.
    ///
    /// An `Err` means out of memory. The tree has then failed, and each later change is an `Err`.
    pub fn change<L: Ledger>(
        &mut self,
        number: LinkNo,
        up: bool,
        steps: &mut Steps<L>,
    ) -> Result<(), AllocError>
        requires there { number.0 < length self.old.ends }
        requires turns { is_up self.old.up number.0 ≢ up }
        ensures of { (self.new.root ≡ self.old.root) × (self.new.nodes ≡ self.old.nodes) × (self.new.ends ≡ self.old.ends) }
        ensures turned { OnOk result (self.new.up ≡ slice_set self.old.up number.0 up) }
        ensures ok { OnOk result ((self.old.failed ≡ false) × (self.new.failed ≡ false)) }
        ensures err { OnErr result (self.new.failed ≡ true) }
        ensures idle { self.old.failed ≡ false → up ≡ false → IsIdle self.old number.0 → IsOk result × (self.new.tree ≡ self.old.tree) × (steps.new ≡ steps.old + 3) }
    {
        self.mend(number, up, steps)?;
        Ok(())
    }

    /// The same; it answers whether the tree may have changed.
    fn mend<L: Ledger>(
        &mut self,
        number: LinkNo,
        up: bool,
        steps: &mut Steps<L>,
    ) -> Result<bool, AllocError>
        requires there { number.0 < length self.old.ends }
        requires turns { is_up self.old.up number.0 ≢ up }
        ensures of { (self.new.root ≡ self.old.root) × (self.new.nodes ≡ self.old.nodes) × (self.new.ends ≡ self.old.ends) }
        ensures turned { OnOk result (self.new.up ≡ slice_set self.old.up number.0 up) }
        ensures ok { OnOk result ((self.old.failed ≡ false) × (self.new.failed ≡ false)) }
        ensures err { OnErr result (self.new.failed ≡ true) }
        ensures same { result ≡ Ok false → self.new.tree ≡ self.old.tree }
        ensures idle { self.old.failed ≡ false → up ≡ false → IsIdle self.old number.0 → IsOk result × (self.new.tree ≡ self.old.tree) × (steps.new ≡ steps.old + 3) }
    {
        if self.failed {
            return Err(AllocError);
        }
        self.failed = true;
        self.net.set(number, up);
        let moved = if up {
            self.mend.join(&self.net, self.root, number, steps)?
        } else {
            self.mend.part(&self.net, self.root, number, steps)?
        };
        self.failed = false;
        Ok(moved)
    }

    /// The same over a ledger that is opened on the blank.
    fn mend_over<L: Ledger>(
        &mut self,
        number: LinkNo,
        up: bool,
        blank: Blank,
    ) -> Result<bool, AllocError>
        requires name { blank.name ≡ L.name }
        requires parts { blank.parts ≡ L.parts }
        requires some { 0 < blank.parts }
        requires there { number.0 < length self.old.ends }
        requires turns { is_up self.old.up number.0 ≢ up }
        ensures of { (self.new.root ≡ self.old.root) × (self.new.nodes ≡ self.old.nodes) × (self.new.ends ≡ self.old.ends) }
        ensures turned { OnOk result (self.new.up ≡ slice_set self.old.up number.0 up) }
        ensures ok { OnOk result ((self.old.failed ≡ false) × (self.new.failed ≡ false)) }
        ensures err { OnErr result (self.new.failed ≡ true) }
        ensures same { result ≡ Ok false → self.new.tree ≡ self.old.tree }
    {
        let mut steps = Steps::<L>::new(blank);
        self.mend(number, up, &mut steps)
    }

    /// The same as `change` where nobody asks how many steps it takes.
    pub fn turn(&mut self, number: LinkNo, up: bool) -> Result<(), AllocError>
        requires there { number.0 < length self.old.ends }
        requires turns { is_up self.old.up number.0 ≢ up }
        ensures of { (self.new.root ≡ self.old.root) × (self.new.nodes ≡ self.old.nodes) × (self.new.ends ≡ self.old.ends) }
        ensures turned { OnOk result (self.new.up ≡ slice_set self.old.up number.0 up) }
        ensures ok { OnOk result ((self.old.failed ≡ false) × (self.new.failed ≡ false)) }
        ensures err { OnErr result (self.new.failed ≡ true) }
    {
        self.turn_telling(number, up)?;
        Ok(())
    }

    /// The same; it answers whether the tree may have changed, so that nobody has to look where it hasn't.
    pub fn turn_telling(&mut self, number: LinkNo, up: bool) -> Result<bool, AllocError>
        requires there { number.0 < length self.old.ends }
        requires turns { is_up self.old.up number.0 ≢ up }
        ensures of { (self.new.root ≡ self.old.root) × (self.new.nodes ≡ self.old.nodes) × (self.new.ends ≡ self.old.ends) }
        ensures turned { OnOk result (self.new.up ≡ slice_set self.old.up number.0 up) }
        ensures ok { OnOk result ((self.old.failed ≡ false) × (self.new.failed ≡ false)) }
        ensures err { OnErr result (self.new.failed ≡ true) }
        ensures same { result ≡ Ok false → self.new.tree ≡ self.old.tree }
    {
        self.mend_over::<Brand>(number, up, Blank::new(1))
    }

    /// The least walks from the root, over the links that are up: for each node the least cost,
    /// and of the neighbours to which a least walk goes first the one of least number.
    pub fn tree(&self) -> &Tree
        ensures value { result.now ≡ self.now.tree }
        ensures one_each { self.now.failed ≡ false → IsTable self.now.nodes self.now.tree }
        ensures least { self.now.failed ≡ false → (wiring : Wiring) → IsOver wiring self.now → IsTree wiring self.now.up self.now.root self.now.tree }
    {
        &self.mend.tree
    }

    /// How many nodes the network has.
    pub fn nodes(&self) -> u32
        ensures { result ≡ self.now.nodes }
    {
        self.net.nodes()
    }

    /// The ends and figures of each link.
    pub fn ends(&self) -> &[LinkEnds]
        ensures { result.now ≡ self.now.ends }
    {
        self.net.ends()
    }

    /// Whether a link is up.
    pub fn up(&self, number: LinkNo) -> bool
        requires { number.0 < length self.now.ends }
        ensures { result ≡ is_up self.now.up number.0 }
    {
        self.net.up(number)
    }

    /// Whether memory was wanting at a change: the tree is then of no use.
    pub fn failed(&self) -> bool
        ensures { result ≡ self.now.failed }
    {
        self.failed
    }
}
