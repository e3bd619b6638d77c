//! The labels of attachments, and the transport of a network at its start.
ghost use Rattle.std.specs.Prelude.{◌≡◌, ◌<◌, ◌+◌, ◌^◌, if◌then◌else◌, ℕ, List, [], true, false, length, map, slice_get, IfOk, OnOk, IsErrOf, Err, Some, ◌↔◌};
ghost use Rattle.std.specs.List.{range_with_len};
ghost use Rattle.mn_ledger.specs.Prelude.{most_labels, is_end, links_at, wiring_of, JournalEntry, world_of, home_of};
ghost use Rattle.mn_transport.specs.Prelude.{greatest, attachments_in, longest_life, given, label_at, pushed, Standing, IsTransport, first_label, AreFirst, HasTurn, MayDo};
ghost use Rattle.mn_labels.specs.declared.refusal.LabelBad.TheVariants as bad;
ghost use Rattle.mn_wiring.specs.Wiring.{link as link_of};
ghost use Rattle.mn_topo.specs.declared.steps.Step.TheVariants as step;

use crate::flying::{Messages, Notices};
use crate::transport::{Transport, labels_fit};
use mn_base::{NodeNo, SiteNo};
use mn_labels::LabelBad;
use mn_linkdb::LinkDb;
use mn_lsr::{Lsr, SharedLinks};
use mn_topo::{Node, Topology};
use std::alloc::{AllocError, Global};

/// The loopbacks of the nodes, in order.
fn loopbacks_of(alloc: Global, nodes: &[Node]) -> Result<Vec<u32>, AllocError>
    ensures { IfOk result (λ loopbacks. loopbacks.items ≡ map (λ node. node.loopback) nodes.now) }
{
    let mut loopbacks = Vec::new(alloc);
    for node in nodes {
        loopbacks.push(node.loopback)?;
    }
    Ok(loopbacks)
}

/// For how long a frame may be on a link that a node is an end of; not at all on another one.
fn life_at(topology: &Topology, link: usize, node: NodeNo) -> u32
    requires { link < length topology.now.links }
    ensures { result ≡ (if is_end (wiring_of topology.now) link node.0 then (link_of (wiring_of topology.now) link).life else 0) }
{
    let link = &topology.links()[link];
    if link.a.0 == node.0 || link.b.0 == node.0 {
        link.life
    } else {
        0
    }
}

/// For how long a frame may be on one of a node's links at most.
fn longest_life(topology: &Topology, node: NodeNo) -> u32
    ensures { result ≡ longest_life topology.now (links_at (wiring_of topology.now) node.0) }
{
    let links = topology.links();
    let mut longest = 0;
    for number in 0..links.len() {
        let life = life_at(topology, number, node);
        longest = life.max(longest);
    }
    longest
}

/// The nodes at the start, before any site has a label.
fn first_nodes(alloc: Global, topology: &Topology) -> Result<Vec<Lsr>, AllocError>
    ensures { IfOk result (λ nodes. AreFirst topology.now 0 nodes.items) }
{
    topology.laws();
    let loopbacks = loopbacks_of(alloc, topology.nodes())?;
    let links = SharedLinks::new(alloc, loopbacks.len() as u32, topology.links())?;
    nodes_over(alloc, topology, &loopbacks, &links)
}

/// The same over the nodes' loopbacks, and over links that they share.
fn nodes_over(
    alloc: Global,
    topology: &Topology,
    loopbacks: &[u32],
    links: &SharedLinks,
) -> Result<Vec<Lsr>, AllocError>
    requires loopbacks { loopbacks.now ≡ topology.now.loopbacks }
    requires nodes { links.now.nodes ≡ length topology.now.loopbacks }
    requires ends { links.now.ends ≡ topology.now.links }
    ensures { IfOk result (λ nodes. AreFirst topology.now 0 nodes.items) }
{
    topology.laws();
    let mut nodes = Vec::new(alloc);
    for number in 0..loopbacks.len() {
        let me = NodeNo(number as u16);
        let life = longest_life(topology, me);
        nodes.push(Lsr::over(alloc, me, loopbacks, links, life)?)?;
    }
    Ok(nodes)
}

/// Gives each site its first label, in site order. It answers the labels.
fn first_labels(
    alloc: Global,
    topology: &Topology,
    nodes: &mut Vec<Lsr>,
) -> Result<Vec<u32>, AllocError>
    requires { AreFirst topology.now 0 nodes.old.items }
    ensures nodes { OnOk result (AreFirst topology.now (length topology.now.sites) nodes.new.items) }
    ensures labels { IfOk result (λ labels. labels.items ≡ map (first_label topology.now) (range_with_len 0 (length topology.now.sites))) }
{
    topology.laws();
    let mut labels = Vec::new(alloc);
    for number in 0..topology.sites().len() {
        let site = SiteNo(number as u16);
        let home = topology.home_of(site);
        let edge = &mut nodes[usize::from(home.0)];
        match edge.attach(site) {
            Ok(label) => {
                labels_fit(edge);
                labels.push(label)?;
            }
            Err(_) => return Err(AllocError),
        }
    }
    Ok(labels)
}

impl Transport {
    /// The start: every link is down, LDP is switched on for each, and each site is attached.
    pub fn new(alloc: Global, topology: &Topology) -> Result<Transport, AllocError>
        ensures stands { IfOk result (λ transport. IsTransport topology.now [] transport) }
        ensures notices { IfOk result (λ transport. transport.notices ≡ []) }
        ensures messages { IfOk result (λ transport. transport.messages ≡ []) }
    {
        topology.laws();
        let links = topology.links().len() as u32;
        let count = topology.nodes().len() as u32;
        let mut nodes = first_nodes(alloc, topology)?;
        let labels = first_labels(alloc, topology, &mut nodes)?;
        let changes = LinkDb::new(alloc, links)?;
        let switches = vec![in alloc; true; links as usize]?;
        let notices = Notices::new(alloc, links * count)?;
        let messages = Messages::new(alloc, 2 * links)?;
        Ok(Transport {
            nodes,
            changes,
            switches,
            labels,
            notices,
            messages,
        })
    }

    /// A site is attached anew at its edge, which gives the next label to the attachment.
    ///
    /// It is `Spent` exactly where the edge has a label for each FEC and attachment that 20 bits allow, and changes nothing then.
    /// After running out of memory nothing is promised of the transport.
    pub fn attach(&mut self, topology: &Topology, site: SiteNo) -> Result<u32, LabelBad>
        requires may { MayDo topology.now (step.Attach site) self.old }
        ensures goes { OnOk result ((journal : List JournalEntry) (tick : ℕ) → IsTransport topology.now journal self.old → HasTurn topology.now journal (step.Attach site) →
            IsTransport topology.now (pushed journal tick (step.Attach site)) self.new) }
        ensures label { IfOk result (λ label. (journal : List JournalEntry) (tick : ℕ) → IsTransport topology.now journal self.old → HasTurn topology.now journal (step.Attach site) →
            label ≡ label_at (given topology.now (pushed journal tick (step.Attach site))) (home_of topology.now site.0) site.0 ((world_of topology.now journal).config.attaches site.0 + 2)) }
        ensures next { IfOk result (λ label. (journal : List JournalEntry) → IsTransport topology.now journal self.old → HasTurn topology.now journal (step.Attach site) →
            label ≡ greatest (given topology.now journal (home_of topology.now site.0)).given + 1) }
        ensures spent { (standing : Standing) → slice_get self.old.nodes (home_of topology.now site.0) ≡ Some standing →
            IsErrOf result bad.Spent ↔ (attachments_in standing.labels.given + length topology.now.loopbacks ≡ most_labels + 1) }
        ensures notices { self.new.notices ≡ self.old.notices }
        ensures messages { self.new.messages ≡ self.old.messages }
        ensures still { result ≡ Err bad.Spent → (journal : List JournalEntry) → IsTransport topology.now journal self.old → IsTransport topology.now journal self.new }
    {
        topology.laws();
        let home = topology.home_of(site);
        let edge = &mut self.nodes[usize::from(home.0)];
        let label = edge.attach(site)?;
        labels_fit(edge);
        self.labels[usize::from(site.0)] = label;
        Ok(label)
    }

    /// A site is detached: its label leads nowhere from now on. It takes no memory.
    pub fn detach(&mut self, topology: &Topology, site: SiteNo)
        requires may { MayDo topology.now (step.Detach site) self.old }
        ensures goes { (journal : List JournalEntry) (tick : ℕ) → IsTransport topology.now journal self.old → HasTurn topology.now journal (step.Detach site) →
            IsTransport topology.now (pushed journal tick (step.Detach site)) self.new }
        ensures notices { self.new.notices ≡ self.old.notices }
        ensures messages { self.new.messages ≡ self.old.messages }
    {
        topology.laws();
        let home = topology.home_of(site);
        let label = self.labels[usize::from(site.0)];
        self.nodes[usize::from(home.0)].detach(label);
    }
}
