ghost use Rattle.std.specs.Prelude.{◌≡◌, ◌≢◌, ◌+◌, ◌-◌, ◌≤◌, ◌<◌, ◌^◌, ◌↔◌, ℕ, [], ◌∷◌, ◌++◌, length, filter, drop, true, slice_get, slice_set, slice_index_or, None, Some, OnOk, OnErr, IfOk, IfSome, IsErrOf, IsErr};
ghost use Rattle.std.specs.List.{All};
ghost use Rattle.mn_base.specs.Limits.{most_labels};
ghost use Rattle.mn_labels.specs.declared.meaning.Bind.{Bind};
ghost use Rattle.mn_labels.specs.declared.meaning.Bind.TheVariants.{Site};
ghost use Rattle.mn_labels.specs.Labels.{others, none_given, label_now, attachments_in, greatest, attached, offered_one, offered_all, next_label, given_up, offered, numbers, is_one_of, Means, meaning_of, IsTold};
ghost use Rattle.mn_labels.specs.Kept.{is_vacant};

use crate::meaning::{Bind, Given};
use crate::refusal::LabelBad;
use mn_base::{MOST_LABELS, NodeNo, SiteNo};
use std::alloc::{AllocError, Global};
use std::marker::Model;

/// The least label that isn't reserved: RFC 3032, section 2.1.
const FIRST: u32 = 16;

/// The labels that a node has given, and which its FECs have now.
///
/// Contracts see all givings in order, the label of each FEC, and how many more can be given without memory.
#[derive(Drop)]
pub struct Labels {
    me: NodeNo,
    given: Vec<Given>,
    fecs: Vec<Option<u32>>,
    meanings: Vec<Option<Bind>>, // by label from 16 on, what has it now
    reusable: Vec<u32>, // the labels that aren't attachments', the least first
    passed: usize, // of so many of these, from the first on, none is vacant
}

impl Model for Labels {
    ghost use Rattle.std.specs.Prelude.{◌-◌, min, vec_len, vec_capacity};
    ghost use Rattle.mn_labels.specs.Labels.{LabelTable};

    ghost Value = { LabelTable };

    ghost use Rattle.mn_labels.specs.Kept.{Stands};

    ghost view = { λ l. record {
      labels = record { given = l.given.items; fecs = l.fecs.items };
      me = l.me.0;
      spare = min (vec_capacity l.given - vec_len l.given)
          (min (vec_capacity l.meanings - vec_len l.meanings) (vec_capacity l.reusable - vec_len l.reusable));
    } };

    ghost invariant = { Stands };
}

impl Labels {
    /// The labels of a node in a network of at most 256: none is given yet.
    pub fn new(alloc: Global, me: NodeNo, nodes: u32) -> Result<Labels, AllocError>
        requires few { nodes ≤ 256 }
        requires me { me.0 < nodes }
        ensures none { IfOk result (λ table. table.labels ≡ none_given nodes) }
        ensures me { IfOk result (λ table. table.me ≡ me.0) }
    {
        let mut fecs = Vec::new(alloc);
        fecs.resize(nodes as usize, None)?;
        Ok(Labels {
            me,
            given: Vec::new(alloc),
            fecs,
            meanings: Vec::new(alloc),
            reusable: Vec::new(alloc),
            passed: 0,
        })
    }

    /// Makes room, so that this many more labels can be given without memory.
    pub fn reserve(&mut self, more: usize) -> Result<(), AllocError>
        ensures room { OnOk result (more ≤ self.new.spare) }
        ensures kept { self.new.labels ≡ self.old.labels }
        ensures me { self.new.me ≡ self.old.me }
        ensures no_less { self.old.spare ≤ self.new.spare }
        ensures full { OnErr result (self.old.spare < more) }
    {
        self.given.reserve(more)?;
        self.meanings.reserve(more)?;
        self.reusable.reserve(more)
    }

    /// The label that an attachment is given next, which nothing has; none where no label is left.
    pub fn next(&self) -> Option<u32>
        ensures label { IfSome result (λ label. (label ≡ greatest self.now.labels.given + 1) × (label < 2 ^ 20)) }
        ensures fresh { IfSome result (λ label. meaning_of self.now.labels label ≡ None) }
        ensures few { IfSome result (λ label. attachments_in self.now.labels.given + length self.now.labels.fecs ≤ most_labels) }
        ensures spent { result ≡ None → attachments_in self.now.labels.given + others self.now ≡ most_labels }
    {
        let attachments = self.meanings.len() - self.reusable.len();
        if attachments + self.fecs.len() > MOST_LABELS {
            return None;
        }
        Some(FIRST + self.meanings.len() as u32)
    }

    /// Gives an attachment the label after the greatest. It keeps it for good. A refusal changes nothing.
    pub fn attach(&mut self, site: SiteNo, attachment: u32) -> Result<u32, LabelBad>
        ensures label { IfOk result (λ label. label ≡ greatest self.old.labels.given + 1) }
        ensures after { OnOk result (self.new.labels ≡ attached self.old.labels (Site site attachment)) }
        ensures in_range { IfOk result (λ label. (16 ≤ label) × (label < 2 ^ 20)) }
        ensures spent { IsErrOf result LabelBad.Spent ↔ (attachments_in self.old.labels.given + others self.old ≡ most_labels) }
        ensures no_room { result ≡ Err LabelBad.NoMemory → self.old.spare ≡ 0 }
        ensures spare { OnOk result (self.old.spare ≤ self.new.spare + 1) }
        ensures unchanged { OnErr result (self.new.labels ≡ self.old.labels) }
        ensures spare_stays { OnErr result (self.old.spare ≤ self.new.spare) }
        ensures me { self.new.me ≡ self.old.me }
    {
        let attached = self.meanings.len() - self.reusable.len();
        if attached + self.fecs.len() > MOST_LABELS {
            return Err(LabelBad::Spent);
        }
        self.reserve(1).map_err(|_| LabelBad::NoMemory)?;
        Ok(self.append(site, attachment))
    }

    /// Gives an attachment its label, where there is room.
    fn append(&mut self, site: SiteNo, attachment: u32) -> u32
        requires few { attachments_in self.old.labels.given + length self.old.labels.fecs ≤ most_labels }
        requires room { 1 ≤ self.old.spare }
        ensures label { result ≡ greatest self.old.labels.given + 1 }
        ensures after { self.new.labels ≡ attached self.old.labels (Site site attachment) }
        ensures in_range { (16 ≤ result) × (result < 2 ^ 20) }
        ensures spare { self.old.spare ≤ self.new.spare + 1 }
        ensures me { self.new.me ≡ self.old.me }
    {
        let label = FIRST + self.meanings.len() as u32;
        let what = Bind::Site(site, attachment);
        self.given.push_reserved(Given { label, what });
        self.meanings.push_reserved(Some(what));
        label
    }

    /// Offers FECs, in this order: those that are `free` give up their labels first, and then each takes up the label that
    /// it has, or else the least that nothing has. Where no FEC is offered none gives up its label.
    ///
    /// An `Err` says that memory ran out, and nothing else, and changes nothing.
    #[tactic(auto, using(crate::proofs::GivingUp::some_are_offered, crate::proofs::GivingUp::none_are_offered))]
    pub fn offer(&mut self, fecs: &[NodeNo], free: &[NodeNo]) -> Result<(), AllocError>
        requires others { All (λ fec. (fec.0 < length self.old.labels.fecs) × (fec.0 ≢ self.old.me)) fecs.now }
        ensures after { OnOk result (self.new.labels ≡ offered (is_one_of free.now) self.old.labels (numbers fecs.now)) }
        ensures no_room { IsErr result → self.old.spare < length fecs.now }
        ensures spare { OnOk result (self.old.spare ≤ self.new.spare + length fecs.now) }
        ensures unchanged { OnErr result (self.new.labels ≡ self.old.labels) }
        ensures spare_stays { OnErr result (self.old.spare ≤ self.new.spare) }
        ensures me { self.new.me ≡ self.old.me }
    {
        self.reserve(fecs.len())?;
        if fecs.is_empty() {
            return Ok(());
        }
        self.give_up(free);
        self.take_all(fecs);
        Ok(())
    }

    /// These FECs give up their labels.
    fn give_up(&mut self, free: &[NodeNo])
        ensures after { self.new.labels ≡ given_up (is_one_of free.now) self.old.labels }
        ensures me { self.new.me ≡ self.old.me }
        ensures spare { self.new.spare ≡ self.old.spare }
    {
        for fec in free {
            self.forget(*fec);
        }
    }

    /// A FEC gives up its label, where it has one.
    fn forget(&mut self, fec: NodeNo)
        ensures given { self.new.labels.given ≡ self.old.labels.given }
        ensures fecs { self.new.labels.fecs ≡ slice_set self.old.labels.fecs fec.0 None }
        ensures me { self.new.me ≡ self.old.me }
        ensures spare { self.new.spare ≡ self.old.spare }
    {
        if let Some(label) = self.of(fec) {
            self.meanings[(label - FIRST) as usize] = None;
            self.fecs[fec.0 as usize] = None;
            self.passed = 0;
        }
    }

    /// Each of these FECs takes its label, in this order.
    fn take_all(&mut self, fecs: &[NodeNo])
        requires others { All (λ fec. (fec.0 < length self.old.labels.fecs) × (fec.0 ≢ self.old.me)) fecs.now }
        requires room { length fecs.now ≤ self.old.spare }
        ensures after { self.new.labels ≡ offered_all self.old.labels (numbers fecs.now) }
        ensures spare { self.old.spare ≤ self.new.spare + length fecs.now }
        ensures me { self.new.me ≡ self.old.me }
    {
        for fec in fecs {
            self.take(*fec);
        }
    }

    /// A FEC takes up the label that it has, or else the least that nothing has.
    fn take(&mut self, fec: NodeNo)
        requires node { fec.0 < length self.old.labels.fecs }
        requires other { fec.0 ≢ self.old.me }
        requires room { 1 ≤ self.old.spare }
        ensures after { self.new.labels ≡ offered_one self.old.labels fec.0 }
        ensures nodes { length self.new.labels.fecs ≡ length self.old.labels.fecs }
        ensures spare { self.old.spare ≤ self.new.spare + 1 }
        ensures me { self.new.me ≡ self.old.me }
    {
        if self.fecs[fec.0 as usize].is_none() {
            match self.vacant() {
                Some(label) => self.reuse(fec, label),
                None => self.make(fec),
            }
        }
    }

    /// The first label that was a FEC's and is nobody's now. Labels that were passed once aren't looked at again, until one is
    /// given up.
    fn vacant(&mut self) -> Option<u32>
        ensures next { IfSome result (λ label. next_label self.old.labels ≡ label) }
        ensures given { IfSome result (λ label. label ≤ greatest self.old.labels.given) }
        ensures new { result ≡ None → next_label self.old.labels ≡ greatest self.old.labels.given + 1 }
        ensures kept { self.new ≡ self.old }
    {
        self.passed = first_vacant(&self.reusable, &self.meanings, self.passed);
        label_at(&self.reusable, self.passed)
    }

    /// A FEC without a label takes one that was a FEC's and is nobody's now.
    fn reuse(&mut self, fec: NodeNo, label: u32)
        requires node { fec.0 < length self.old.labels.fecs }
        requires other { fec.0 ≢ self.old.me }
        requires none { label_now self.old.labels fec.0 ≡ None }
        requires next { next_label self.old.labels ≡ label }
        requires given { label ≤ greatest self.old.labels.given }
        requires room { 1 ≤ self.old.spare }
        ensures after { self.new.labels ≡ offered_one self.old.labels fec.0 }
        ensures spare { self.old.spare ≤ self.new.spare + 1 }
        ensures me { self.new.me ≡ self.old.me }
    {
        let what = Bind::Fec(fec);
        self.meanings[(label - FIRST) as usize] = Some(what);
        self.fecs[fec.0 as usize] = Some(label);
        self.given.push_reserved(Given { label, what });
    }

    /// A FEC without a label takes a new one, where each that was given is had.
    fn make(&mut self, fec: NodeNo)
        requires node { fec.0 < length self.old.labels.fecs }
        requires other { fec.0 ≢ self.old.me }
        requires none { label_now self.old.labels fec.0 ≡ None }
        requires next { next_label self.old.labels ≡ greatest self.old.labels.given + 1 }
        requires room { 1 ≤ self.old.spare }
        ensures after { self.new.labels ≡ offered_one self.old.labels fec.0 }
        ensures spare { self.old.spare ≤ self.new.spare + 1 }
        ensures me { self.new.me ≡ self.old.me }
    {
        let what = Bind::Fec(fec);
        let label = FIRST + self.meanings.len() as u32;
        self.meanings.push_reserved(Some(what));
        self.reusable.push_reserved(label);
        self.fecs[fec.0 as usize] = Some(label);
        self.given.push_reserved(Given { label, what });
    }

    /// What has a label now: a FEC, or an attachment, which keeps it for good.
    pub fn means(&self, label: u32) -> Option<Bind>
        ensures means { (thing : Bind) → (result ≡ Some thing) ↔ Means self.now.labels label thing }
        ensures meaning { result ≡ meaning_of self.now.labels label }
    {
        let meanings = &self.meanings;
        if label < FIRST {
            None
        } else {
            meaning_at(meanings, (label - FIRST) as usize)
        }
    }

    /// The label that a FEC has.
    pub fn of(&self, fec: NodeNo) -> Option<u32>
        ensures label { result ≡ label_now self.now.labels fec.0 }
        ensures in_range { IfSome result (λ label. (16 ≤ label) × (label < 2 ^ 20)) }
    {
        let at = fec.0 as usize;
        if at < self.fecs.len() {
            self.fecs[at]
        } else {
            None
        }
    }

    /// All givings, in order.
    pub fn given(&self) -> &[Given]
        ensures given { result.now ≡ self.now.labels.given }
        // No label means two things,
        ensures told { IsTold self.now.labels }
        // and each has 20 bits.
        ensures in_range { greatest self.now.labels.given < 2 ^ 20 }
    {
        &self.given
    }
}

/// What is noted at a place.
fn meaning_at(meanings: &[Option<Bind>], place: usize) -> Option<Bind>
    ensures { result ≡ slice_index_or meanings.now place None }
{
    if place < meanings.len() {
        meanings[place]
    } else {
        None
    }
}

/// The label at a place.
fn label_at(labels: &[u32], place: usize) -> Option<u32>
    ensures { result ≡ slice_get labels.now place }
{
    if place < labels.len() {
        Some(labels[place])
    } else {
        None
    }
}

/// Whether nothing has the label now.
fn is_vacant(meanings: &[Option<Bind>], label: u32) -> bool
    ensures { result ≡ is_vacant meanings.now label }
{
    meaning_at(meanings, label.saturating_sub(FIRST) as usize).is_none()
}

/// The place of the first of these labels, from so many on, that nothing has now; past the last where there is none.
fn first_vacant(labels: &[u32], meanings: &[Option<Bind>], passed: usize) -> usize
    ensures rest { filter (is_vacant meanings.now) (drop result labels.now) ≡ filter (is_vacant meanings.now) (drop passed labels.now) }
    ensures vacant { result < length labels.now → is_vacant meanings.now (slice_index_or labels.now result 0) ≡ true }
{
    for place in passed..labels.len() {
        if is_vacant(meanings, labels[place]) {
            return place;
        }
    }
    labels.len()
}
