ghost use Rattle.std.specs.Prelude.{◌≡◌, ◌≢◌, ◌≤◌, ◌<◌, ◌&&◌, ℕ, [], Some, OnOk, IfOk, is_some, true};
ghost use Rattle.std.specs.List.{flat_map, range_with_len};
ghost use Rattle.mn_lsr.specs.Prelude.{label_now, own_labels, numbers, IsTold, IsLabel, nodes, usable, after_events, EventsFit, is_free, begun, InOrder, AreBelow, Apart, fecs_in, use_of, fec_use, IsNotSite, IsNextHop};
ghost use Rattle.mn_lsr.specs.Message.{HasOne};
ghost use Rattle.mn_lsr.specs.Parts.{free_of};
ghost use Rattle.mn_lsr.specs.Telling.{opens_one};

use crate::parts::Parts;
use mn_base::NodeNo;
use mn_bindings::{Lib, LibEvent, are_of_fecs};
use mn_labels::Labels;
use mn_lfib::Lfib;
use std::alloc::{AllocError, Global};

/// Implicit null: a node's label for its own FEC (RFC 3032, section 2.1).
pub(crate) const IMPLICIT_NULL: u32 = 3;

/// The label that a node says of a FEC: implicit null of its own, and else the one that it gave.
pub(crate) fn own_label(labels: &Labels, me: NodeNo, fec: NodeNo) -> u32
    ensures label { result ≡ own_labels me.0 labels.now.labels fec.0 }
    ensures lawful { HasOne me.0 labels.now.labels fec.0 → IsLabel result }
{
    if me.0 == fec.0 {
        IMPLICIT_NULL
    } else {
        labels.of(fec).unwrap_or(0)
    }
}

/// Whether a FEC has a label which may be another's at this tick.
fn has_free_label(bindings: &Lib, labels: &Labels, fec: NodeNo, tick: u64) -> bool
    requires { fec.0 < nodes bindings.now.bindings }
    ensures { result ≡ (is_some (label_now labels.now.labels fec.0) && is_free bindings.now tick fec.0) }
{
    labels.of(fec).is_some() && bindings.is_free(fec, tick)
}

impl Parts {
    /// The FECs that have a label which may be another's at this tick, in node order, where an offer may begin by these events: none
    /// gives up its label otherwise. Where none can be free yet, and where no offer begins, no FEC is looked at but those of the events.
    pub(crate) fn free_before(
        &self,
        events: &[LibEvent],
        tick: u64,
    ) -> Result<Vec<NodeNo>, AllocError>
        requires few { self.now.view.nodes ≤ 256 }
        requires all { self.now.view.nodes ≡ nodes self.now.lib.bindings }
        requires fit { EventsFit self.now.lib.bindings events.now }
        ensures { IfOk result (λ free. (begun self.now.lib.bindings (after_events self.now.lib.bindings events.now) ≡ [] → ⊥) →
            numbers free.items ≡ flat_map (free_of self.now.lib self.now.labels.labels tick) (range_with_len 0 self.now.view.nodes)) }
    {
        if self.lib.may_be_free(tick) && self.lib.may_begin(events) {
            free_fecs(self.alloc, &self.lib, &self.labels, self.view.nodes(), tick)
        } else {
            Ok(Vec::new(self.alloc))
        }
    }
}

/// The FECs that have a label which may be another's at this tick, in node order.
fn free_fecs(
    alloc: Global,
    bindings: &Lib,
    labels: &Labels,
    count: u32,
    tick: u64,
) -> Result<Vec<NodeNo>, AllocError>
    requires few { count ≤ 256 }
    requires all { count ≡ nodes bindings.now.bindings }
    ensures { IfOk result (λ free. numbers free.items ≡ flat_map (free_of bindings.now labels.now.labels tick) (range_with_len 0 count)) }
{
    let mut free = Vec::new(alloc);
    for at in 0..count {
        let fec = NodeNo(at as u16);
        if has_free_label(bindings, labels, fec, tick) {
            free.push(fec)?;
        }
    }
    Ok(free)
}

/// Uses the label of a FEC, where it has one, for the way there, or for nothing.
fn use_way(lfib: &mut Lfib, bindings: &Lib, labels: &Labels, fec: NodeNo) -> Result<(), AllocError>
    requires there { fec.0 < nodes bindings.now.bindings }
    requires free { (label : ℕ) → label_now labels.now.labels fec.0 ≡ Some label → IsNotSite (use_of lfib.old label) }
    requires fit { IsNextHop (usable bindings.now.bindings fec.0) }
    ensures way { OnOk result ((label : ℕ) → label_now labels.now.labels fec.0 ≡ Some label → use_of lfib.new label ≡ fec_use (usable bindings.now.bindings fec.0)) }
    ensures others { OnOk result ((label : ℕ) → label_now labels.now.labels fec.0 ≢ Some label → use_of lfib.new label ≡ use_of lfib.old label) }
{
    match labels.of(fec) {
        Some(label) => lfib.set_fec(label, bindings.usable(fec)),
        None => Ok(()),
    }
}

/// Uses the label of each FEC that has one for the way there, or for nothing.
fn use_ways(lfib: &mut Lfib, bindings: &Lib, labels: &Labels, count: u32) -> Result<(), AllocError>
    requires few { count ≤ 256 }
    requires all { count ≡ nodes bindings.now.bindings }
    requires told { IsTold labels.now.labels }
    requires free { (fec label : ℕ) → label_now labels.now.labels fec ≡ Some label → IsNotSite (use_of lfib.old label) }
    requires fit { (fec : ℕ) → IsNextHop (usable bindings.now.bindings fec) }
    ensures ways { OnOk result ((fec label : ℕ) → fec < count → label_now labels.now.labels fec ≡ Some label → use_of lfib.new label ≡ fec_use (usable bindings.now.bindings fec)) }
    ensures others { OnOk result ((label : ℕ) → ((fec : ℕ) → label_now labels.now.labels fec ≢ Some label) → use_of lfib.new label ≡ use_of lfib.old label) }
{
    for at in 0..count {
        use_way(lfib, bindings, labels, NodeNo(at as u16))?;
    }
    Ok(())
}

/// The same for the FECs that the events are of, and for no other.
fn use_ways_of(
    lfib: &mut Lfib,
    bindings: &Lib,
    labels: &Labels,
    events: &[LibEvent],
) -> Result<(), AllocError>
    requires there { AreBelow (nodes bindings.now.bindings) (fecs_in events.now) }
    requires told { IsTold labels.now.labels }
    requires free { (fec label : ℕ) → label_now labels.now.labels fec ≡ Some label → IsNotSite (use_of lfib.old label) }
    requires fit { (fec : ℕ) → IsNextHop (usable bindings.now.bindings fec) }
    ensures ways { OnOk result ((fec label : ℕ) → label_now labels.now.labels fec ≡ Some label →
        (Apart fec (fecs_in events.now) → use_of lfib.old label ≡ fec_use (usable bindings.now.bindings fec)) →
        use_of lfib.new label ≡ fec_use (usable bindings.now.bindings fec)) }
    ensures others { OnOk result ((label : ℕ) → ((fec : ℕ) → label_now labels.now.labels fec ≢ Some label) → use_of lfib.new label ≡ use_of lfib.old label) }
{
    for event in events {
        if let Some(fec) = event.fec() {
            use_way(lfib, bindings, labels, fec)?;
        }
    }
    Ok(())
}

/// Whether all that happens is that one neighbour opens, which has advertised no label yet.
fn opens_one(events: &[LibEvent]) -> bool
    ensures { result ≡ opens_one events.now }
{
    match events {
        [LibEvent::Opened(_)] => true,
        _ => false,
    }
}

/// Uses the labels of FECs for the ways that are left after events. Where each event is of a FEC, in node order and none
/// twice, no other FEC is looked at, and where one neighbour opens none at all.
pub(crate) fn use_new_ways(
    lfib: &mut Lfib,
    bindings: &Lib,
    labels: &Labels,
    count: u32,
    events: &[LibEvent],
) -> Result<(), AllocError>
    requires few { count ≤ 256 }
    requires all { count ≡ nodes bindings.now.bindings }
    requires there { AreBelow count (fecs_in events.now) }
    requires told { IsTold labels.now.labels }
    requires free { (fec label : ℕ) → label_now labels.now.labels fec ≡ Some label → IsNotSite (use_of lfib.old label) }
    requires fit { (fec : ℕ) → IsNextHop (usable bindings.now.bindings fec) }
    ensures ways { OnOk result ((fec label : ℕ) → fec < count → label_now labels.now.labels fec ≡ Some label →
        (InOrder 0 events.now → Apart fec (fecs_in events.now) → use_of lfib.old label ≡ fec_use (usable bindings.now.bindings fec)) →
        (opens_one events.now ≡ true → use_of lfib.old label ≡ fec_use (usable bindings.now.bindings fec)) →
        use_of lfib.new label ≡ fec_use (usable bindings.now.bindings fec)) }
    ensures others { OnOk result ((label : ℕ) → ((fec : ℕ) → label_now labels.now.labels fec ≢ Some label) → use_of lfib.new label ≡ use_of lfib.old label) }
{
    if are_of_fecs(events) {
        use_ways_of(lfib, bindings, labels, events)
    } else if opens_one(events) {
        Ok(())
    } else {
        use_ways(lfib, bindings, labels, count)
    }
}
