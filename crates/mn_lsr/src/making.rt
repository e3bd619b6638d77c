ghost use Rattle.std.specs.Prelude.{◌≡◌, ◌<◌, ◌≤◌, [], false, length, replicate, IfOk};
ghost use Rattle.mn_wiring.specs.Wiring.{JoinsNodes, JoinsOnce};
ghost use Rattle.mn_linkdb.specs.Network.{IsNetwork};
ghost use Rattle.mn_bindings.specs.Known.{nothing_known};
ghost use Rattle.mn_lsr.specs.Telling.{AreLinks};
ghost use Rattle.mn_lsr.specs.Prelude.{fresh_node, none_given, at_first};
ghost use Rattle.mn_lsr.specs.Standing.{IsWired};
ghost use Rattle.mn_lsr.specs.Parts.{wiring_in, kept_of, Stands};

use crate::links::links_by_neighbour;
use crate::own_ends::Sessions;
use crate::parts::Parts;
use mn_base::{LinkNo, NodeNo};
use mn_bindings::Lib;
use mn_labels::Labels;
use mn_lfib::Lfib;
use mn_linkdb::View;
use mn_spf_inc::{MendTree, SharedLinks};
use mn_wiring::LinkEnds;
use std::alloc::{AllocError, Global};

impl Parts {
    /// The parts of a node that has learned nothing, has no session and gave no label, and on whose links, which it shares with
    /// others, a frame is for at most `life` ticks.
    pub(crate) fn over(
        alloc: Global,
        me: NodeNo,
        loopbacks: &[u32],
        shared: &SharedLinks,
        life: u32,
    ) -> Result<Parts, AllocError>
        requires me { me.0 < length loopbacks.now }
        requires nodes { shared.now.nodes ≡ length loopbacks.now }
        requires wired { IsWired (record { loopbacks = loopbacks.now; ends = shared.now.ends }) }
        ensures stands { IfOk result (λ parts. Stands parts) }
        ensures wiring { IfOk result (λ parts. wiring_in parts ≡ record { loopbacks = loopbacks.now; ends = shared.now.ends }) }
        ensures kept { IfOk result (λ parts. kept_of parts ≡ record {
          node = fresh_node (record { loopbacks = loopbacks.now; ends = shared.now.ends }) me.0;
          labels = none_given (length loopbacks.now);
          resting = at_first (length loopbacks.now) life;
        }) }
        ensures uses { IfOk result (λ parts. parts.lfib ≡ []) }
    {
        let nodes = loopbacks.len() as u32;
        let listed = shared.ends();
        let ends = listed.as_slice();
        let (loopbacks, links) = neighbours(alloc, me, loopbacks, ends)?;
        let ((view, mended), (lib, labels)) = nothing_yet(alloc, me, nodes, shared, life)?;
        let sessions = Sessions::new(alloc, ends.len());
        Ok(Parts {
            alloc,
            me,
            loopbacks,
            view,
            mended,
            sessions,
            lib,
            labels,
            lfib: Lfib::new(alloc),
            attached: Vec::new(alloc),
            links,
        })
    }
}

/// What is learned of the links, which is nothing, and the least walks over them, which are all down.
fn walks(
    alloc: Global,
    me: NodeNo,
    nodes: u32,
    shared: &SharedLinks,
) -> Result<(View, MendTree), AllocError>
    requires root { me.0 < shared.now.nodes }
    requires network { IsNetwork nodes shared.now.ends }
    ensures view { IfOk result (λ made. made.0 ≡ record { nodes = nodes; ends = shared.now.ends; counts = replicate (length shared.now.ends) 0 }) }
    ensures mended { IfOk result (λ made. (made.1.root ≡ me.0) × (made.1.nodes ≡ shared.now.nodes) × (made.1.ends ≡ shared.now.ends)) }
    ensures down { IfOk result (λ made. made.1.up ≡ replicate (length shared.now.ends) false) }
    ensures sound { IfOk result (λ made. made.1.failed ≡ false) }
{
    let view = View::over(alloc, nodes, shared.ends())?;
    let mended = MendTree::over(alloc, me, shared)?;
    Ok((view, mended))
}

/// The bindings where nothing was received, and the labels where none was given.
fn tables(alloc: Global, me: NodeNo, nodes: u32, life: u32) -> Result<(Lib, Labels), AllocError>
    requires few { nodes ≤ 256 }
    requires me { me.0 < nodes }
    ensures bindings { IfOk result (λ made. made.0 ≡ nothing_known me nodes life) }
    ensures none { IfOk result (λ made. made.1.labels ≡ none_given nodes) }
    ensures me { IfOk result (λ made. made.1.me ≡ me.0) }
{
    let lib = Lib::new(alloc, me, nodes, life)?;
    let labels = Labels::new(alloc, me, nodes)?;
    Ok((lib, labels))
}

/// Both. Few parts are at hand where memory is wanted, so that few have to be dropped there.
fn nothing_yet(
    alloc: Global,
    me: NodeNo,
    nodes: u32,
    shared: &SharedLinks,
    life: u32,
) -> Result<((View, MendTree), (Lib, Labels)), AllocError>
    requires few { nodes ≤ 256 }
    requires me { me.0 < nodes }
    requires root { me.0 < shared.now.nodes }
    requires network { IsNetwork nodes shared.now.ends }
    ensures view { IfOk result (λ made. made.0.0 ≡ record { nodes = nodes; ends = shared.now.ends; counts = replicate (length shared.now.ends) 0 }) }
    ensures mended { IfOk result (λ made. (made.0.1.root ≡ me.0) × (made.0.1.nodes ≡ shared.now.nodes) × (made.0.1.ends ≡ shared.now.ends)) }
    ensures down { IfOk result (λ made. made.0.1.up ≡ replicate (length shared.now.ends) false) }
    ensures sound { IfOk result (λ made. made.0.1.failed ≡ false) }
    ensures bindings { IfOk result (λ made. made.1.0 ≡ nothing_known me nodes life) }
    ensures none { IfOk result (λ made. made.1.1.labels ≡ none_given nodes) }
    ensures me { IfOk result (λ made. made.1.1.me ≡ me.0) }
{
    let tables = tables(alloc, me, nodes, life)?;
    let walks = walks(alloc, me, nodes, shared)?;
    Ok((walks, tables))
}

/// The nodes' loopbacks, and by neighbour the link to it.
fn neighbours(
    alloc: Global,
    me: NodeNo,
    loopbacks: &[u32],
    ends: &[LinkEnds],
) -> Result<(Vec<u32>, Vec<Option<LinkNo>>), AllocError>
    requires few_links { length ends.now ≤ 1024 }
    requires me { me.0 < length loopbacks.now }
    requires joins { JoinsNodes (record { loopbacks = loopbacks.now; ends = ends.now }) }
    requires once { JoinsOnce (record { loopbacks = loopbacks.now; ends = ends.now }) }
    ensures loopbacks { IfOk result (λ made. made.0.items ≡ loopbacks.now) }
    ensures links { IfOk result (λ made. AreLinks (record { loopbacks = loopbacks.now; ends = ends.now }) me.0 made.1.items) }
{
    let links = links_by_neighbour(alloc, me, loopbacks, ends)?;
    let loopbacks = Vec::from_slice(alloc, loopbacks)?;
    Ok((loopbacks, links))
}
