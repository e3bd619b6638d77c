ghost use Rattle.std.specs.Prelude.{◌≡◌, ◌≢◌, ◌≤◌, ◌<◌, ◌+◌, [], ◌↔◌, ℕ, true, false, None, Some, Ok, Err, length, map, slice_index, IfOk, IfErr, OnOk, OnErr, IsErr, IsErrOf, IsTrue, MatchResult, option_map};
ghost use Rattle.mn_lsr.specs.Prelude.{most_labels, Wiring, is_end, Session, session_at, view_in, none_given, own_labels, greatest, attached, attachments_in, meaning_of, IsTold, at_first, use_of, fresh_node, Learns, Opens, Closes, changed, said, after_event, IsTree, forwarded, pdus};
ghost use Rattle.mn_labels.specs.declared.meaning.Bind.TheVariants as bind;
ghost use Rattle.mn_lfib.specs.declared.answer.Use.TheVariants as use_kind;
ghost use Rattle.mn_lsr.specs.Standing.{IsWired, IsMendedFor, FitsOuter, TableStands, SitesKeep, HasNumbers, IsAttachment, attachments, way_to, label_sent, sent_to, state_in};
ghost use Rattle.mn_lsr.specs.Turns.{kept_in, labels_then, resting_then};
ghost use Rattle.mn_lsr.specs.Hearing.{after_bytes};
ghost use Rattle.mn_lsr.specs.Said.{pdu_of};

use crate::parts::Parts;
use crate::refusal::LsrBad;
use crate::said::Said;
use crate::ways::IMPLICIT_NULL;
use mn_base::{LinkNo, NodeNo, SiteNo};
use mn_labels::{LabelBad, Labels};
use mn_lfib::{Forwarded, Lfib};
use mn_linkdb::{LinkDb, Tree, View};
use mn_spf_inc::{MendTree, SharedLinks};
use mn_stack::Frame;
use mn_states::LdpState;
use mn_wiring::LinkEnds;
use std::alloc::{AllocError, Global};
use std::marker::Model;

/// One node's transport.
///
/// Contracts see the network around it, what the node keeps, the labels that it gave, since when its FECs are at rest, what labels
/// are used for, and whether it has run out of memory.
#[derive(Drop)]
pub struct Lsr {
    parts: Parts,
    /// It has run out of memory, and its parts may not fit together any more.
    failed: bool,
}

impl Model for Lsr {
    ghost use Rattle.mn_lsr.specs.Standing.{Standing};

    ghost Value = { Standing };

    ghost use Rattle.mn_lsr.specs.Inside.{standing_in, keeps};

    ghost view = { standing_in };

    ghost invariant = { keeps };
}

/// The label as it is sent: implicit null isn't (RFC 3032, section 2.1).
fn sent(label: u32) -> Option<u32>
    ensures { result ≡ label_sent label }
{
    if label == IMPLICIT_NULL {
        None
    } else {
        Some(label)
    }
}

impl Lsr {
    /// A node that has learned nothing, has no session and gave no label, and on whose links a frame is for at most `life` ticks.
    ///
    /// There are at most 256 nodes and 1,024 links. The loopbacks differ, each link joins two different nodes, at most one
    /// link joins a pair, and a cost is from 1 to 65,535.
    pub fn new(
        alloc: Global,
        me: NodeNo,
        loopbacks: &[u32],
        ends: &[LinkEnds],
        life: u32,
    ) -> Result<Lsr, AllocError>
        requires me { me.0 < length loopbacks.now }
        requires wired { IsWired (record { loopbacks = loopbacks.now; ends = ends.now }) }
        ensures fresh { let wiring : Wiring = record { loopbacks = loopbacks.now; ends = ends.now } in
            IfOk result (λ lsr. lsr ≡ record {
              wiring = wiring;
              node = fresh_node wiring me.0;
              labels = none_given (length loopbacks.now);
              resting = at_first (length loopbacks.now) life;
              uses = [];
              failed = false;
            }) }
        ensures table { IfOk result (λ lsr. TableStands lsr) }
    {
        let links = SharedLinks::new(alloc, loopbacks.len() as u32, ends)?;
        Lsr::over(alloc, me, loopbacks, &links, life)
    }

    /// The same over links that the node shares with others, so that their ends aren't copied.
    pub fn over(
        alloc: Global,
        me: NodeNo,
        loopbacks: &[u32],
        links: &SharedLinks,
        life: u32,
    ) -> Result<Lsr, AllocError>
        requires me { me.0 < length loopbacks.now }
        requires nodes { links.now.nodes ≡ length loopbacks.now }
        requires wired { IsWired (record { loopbacks = loopbacks.now; ends = links.now.ends }) }
        ensures fresh { let wiring : Wiring = record { loopbacks = loopbacks.now; ends = links.now.ends } in
            IfOk result (λ lsr. lsr ≡ record {
              wiring = wiring;
              node = fresh_node wiring me.0;
              labels = none_given (length loopbacks.now);
              resting = at_first (length loopbacks.now) life;
              uses = [];
              failed = false;
            }) }
        ensures table { IfOk result (λ lsr. TableStands lsr) }
    {
        let parts = Parts::over(alloc, me, loopbacks, links, life)?;
        Ok(Lsr {
            parts,
            failed: false,
        })
    }

    /// Learns the next change of a link at this tick, and says what its offers have become.
    ///
    /// `Empty` changes nothing. After `NoMemory` this and the next three calls answer `NoMemory` for good.
    pub fn learn(&mut self, db: &LinkDb, link: LinkNo, tick: u64) -> Result<Vec<Said>, LsrBad>
        requires there { link.0 < length self.old.wiring.ends }
        requires same_links { length db.now ≡ length self.old.wiring.ends }
        requires not_before { slice_index self.old.node.learned link.0 ≤ slice_index db.now link.0 }
        requires numbers { HasNumbers self.old.node }
        ensures after { OnOk result (self.new ≡ record self.old { node = after_event self.old.wiring self.old.node (Learns link.0); labels = self.new.labels; resting = self.new.resting; uses = self.new.uses }) }
        ensures labels { OnOk result (self.new.labels ≡ labels_then self.old.wiring tick (kept_in self.old) (Learns link.0)) }
        ensures resting { OnOk result (self.new.resting ≡ resting_then self.old.wiring tick (kept_in self.old) (Learns link.0)) }
        ensures said { IfOk result (λ out. map pdu_of out.items ≡ pdus self.old.wiring (own_labels self.old.node.me self.new.labels) 0 (changed self.old.wiring self.old.node (Learns link.0)) (said self.old.wiring self.old.node (Learns link.0))) }
        ensures table { OnOk result (TableStands self.new) }
        ensures sites { OnOk result (SitesKeep self.old self.new) }
        ensures empty { result ≢ Err LsrBad.NoMemory → (result ≡ Err LsrBad.Empty) ↔ (slice_index self.old.node.learned link.0 ≡ slice_index db.now link.0) }
        ensures unchanged { result ≡ Err LsrBad.Empty → self.new ≡ self.old }
        ensures no_memory { result ≡ Err LsrBad.NoMemory → self.new.failed ≡ true }
        ensures for_good { self.old.failed ≡ true → result ≡ Err LsrBad.NoMemory }
    {
        if self.failed {
            return Err(LsrBad::NoMemory);
        }
        match self.parts.learn(db, link, tick) {
            Ok(out) => Ok(out),
            Err(LsrBad::Empty) => Err(LsrBad::Empty),
            Err(_) => {
                self.failed = true;
                Err(LsrBad::NoMemory)
            }
        }
    }

    /// Begins a session on a link of the node's. The active end says its Initialization (RFC 5036, section 2.5.2).
    pub fn open(&mut self, link: LinkNo) -> Result<Vec<Said>, AllocError>
        requires there { link.0 < length self.old.wiring.ends }
        requires at_end { is_end self.old.wiring link.0 self.old.node.me ≡ true }
        requires closed { session_at self.old.node link.0 ≡ None }
        requires numbers { HasNumbers self.old.node }
        ensures after { OnOk result (self.new ≡ record self.old { node = after_event self.old.wiring self.old.node (Opens link.0) }) }
        ensures labels { (tick : ℕ) → OnOk result (self.new.labels ≡ labels_then self.old.wiring tick (kept_in self.old) (Opens link.0)) }
        ensures resting { (tick : ℕ) → OnOk result (self.new.resting ≡ resting_then self.old.wiring tick (kept_in self.old) (Opens link.0)) }
        ensures said { IfOk result (λ out. map pdu_of out.items ≡ pdus self.old.wiring (own_labels self.old.node.me self.new.labels) 0 (changed self.old.wiring self.old.node (Opens link.0)) (said self.old.wiring self.old.node (Opens link.0))) }
        ensures table { OnOk result (TableStands self.new) }
        ensures no_memory { OnErr result (self.new.failed ≡ true) }
        ensures for_good { self.old.failed ≡ true → IsErr result }
    {
        if self.failed {
            return Err(AllocError);
        }
        match self.parts.open(link) {
            Ok(out) => Ok(out),
            Err(_) => {
                self.failed = true;
                Err(AllocError)
            }
        }
    }

    /// Ends the session of a link at this tick, and says what the node's offers have become.
    pub fn close(&mut self, link: LinkNo, tick: u64) -> Result<Vec<Said>, AllocError>
        requires there { link.0 < length self.old.wiring.ends }
        requires open { session_at self.old.node link.0 ≢ None }
        requires numbers { HasNumbers self.old.node }
        ensures after { OnOk result (self.new ≡ record self.old { node = after_event self.old.wiring self.old.node (Closes link.0); labels = self.new.labels; resting = self.new.resting; uses = self.new.uses }) }
        ensures labels { OnOk result (self.new.labels ≡ labels_then self.old.wiring tick (kept_in self.old) (Closes link.0)) }
        ensures resting { OnOk result (self.new.resting ≡ resting_then self.old.wiring tick (kept_in self.old) (Closes link.0)) }
        ensures said { IfOk result (λ out. map pdu_of out.items ≡ pdus self.old.wiring (own_labels self.old.node.me self.new.labels) 0 (changed self.old.wiring self.old.node (Closes link.0)) (said self.old.wiring self.old.node (Closes link.0))) }
        ensures table { OnOk result (TableStands self.new) }
        ensures sites { OnOk result (SitesKeep self.old self.new) }
        ensures no_memory { OnErr result (self.new.failed ≡ true) }
        ensures for_good { self.old.failed ≡ true → IsErr result }
    {
        if self.failed {
            return Err(AllocError);
        }
        match self.parts.close(link, tick) {
            Ok(out) => Ok(out),
            Err(_) => {
                self.failed = true;
                Err(AllocError)
            }
        }
    }

    /// Receives the messages of a PDU at this tick, one after the other, where the session accepts them all.
    ///
    /// `Wire` and `Session` change nothing. A mention of a FEC that is no node's loopback is passed over.
    pub fn hear_ldp(&mut self, link: LinkNo, bytes: &[u8], tick: u64) -> Result<Vec<Said>, LsrBad>
        requires there { link.0 < length self.old.wiring.ends }
        requires open { session_at self.old.node link.0 ≢ None }
        requires numbers { HasNumbers self.old.node }
        ensures heard { (session : Session) → session_at self.old.node link.0 ≡ Some session → MatchResult result
            (λ out. after_bytes self.old.wiring tick link.0 (kept_in self.old) session bytes.now ≡ Ok (record { kept = kept_in self.new; said = map pdu_of out.items }))
            (λ bad. bad ≢ LsrBad.NoMemory → after_bytes self.old.wiring tick link.0 (kept_in self.old) session bytes.now ≡ Err bad) }
        ensures others { OnOk result (self.new ≡ record self.old { node = self.new.node; labels = self.new.labels; resting = self.new.resting; uses = self.new.uses }) }
        ensures table { OnOk result (TableStands self.new) }
        ensures sites { OnOk result (SitesKeep self.old self.new) }
        ensures unchanged { IfErr result (λ bad. bad ≢ LsrBad.NoMemory → self.new ≡ self.old) }
        ensures no_memory { result ≡ Err LsrBad.NoMemory → self.new.failed ≡ true }
        ensures for_good { self.old.failed ≡ true → result ≡ Err LsrBad.NoMemory }
    {
        if self.failed {
            return Err(LsrBad::NoMemory);
        }
        match self.parts.hear_bytes(link, bytes, tick) {
            Ok(out) => Ok(out),
            Err(LsrBad::NoMemory) => {
                self.failed = true;
                Err(LsrBad::NoMemory)
            }
            Err(bad) => Err(bad),
        }
    }

    /// The state of the session of a link, where one is open.
    pub fn session_state(&self, link: LinkNo) -> Option<LdpState>
        ensures { result ≡ state_in (session_at self.now.node link.0) }
    {
        match self.parts.session(link) {
            None => None,
            Some(open) => Some(open.session.state),
        }
    }

    /// Whether it has sent at most 2 ^ 62 messages in each session, so that the numbers of those that a call says have 64 bits.
    pub fn has_numbers(&self) -> bool
        ensures { IsTrue result → HasNumbers self.now.node }
    {
        self.parts.has_numbers()
    }

    /// Gives the next label to a new attachment of a site, whose number counts the site's attachments from 1.
    ///
    /// A refusal changes nothing, but for room that was made. After a call that ran out of memory the answer is `NoMemory`.
    pub fn attach(&mut self, site: SiteNo) -> Result<u32, LabelBad>
        ensures label { IfOk result (λ label. label ≡ greatest self.old.labels.given + 1) }
        ensures given { OnOk result (self.new.labels ≡ attached self.old.labels (bind.Site site (attachments site.0 self.old.labels.given + 1))) }
        ensures used { IfOk result (λ label. use_of self.new.uses label ≡ Some (use_kind.Site site)) }
        ensures others { IfOk result (λ label. (other : ℕ) → other ≢ label → use_of self.new.uses other ≡ use_of self.old.uses other) }
        ensures table { OnOk result (TableStands self.new) }
        ensures kept { self.new ≡ record self.old { labels = self.new.labels; uses = self.new.uses } }
        ensures spent { self.old.failed ≡ false → IsErrOf result LabelBad.Spent ↔ (attachments_in self.old.labels.given + length self.old.wiring.loopbacks ≡ most_labels + 1) }
        ensures unchanged { OnErr result ((self.new.labels ≡ self.old.labels) × (self.new.uses ≡ self.old.uses)) }
        ensures for_good { self.old.failed ≡ true → result ≡ Err LabelBad.NoMemory }
    {
        if self.failed {
            return Err(LabelBad::NoMemory);
        }
        self.parts.attach(site)
    }

    /// Ends the attachment that has a label. It takes no memory.
    ///
    /// After a call that ran out of memory it does nothing.
    pub fn detach(&mut self, label: u32)
        requires attachment { IsAttachment (meaning_of self.old.labels label) }
        ensures ended { self.old.failed ≡ false → use_of self.new.uses label ≡ Some use_kind.Ended }
        ensures others { (other : ℕ) → other ≢ label → use_of self.new.uses other ≡ use_of self.old.uses other }
        ensures table { self.old.failed ≡ false → TableStands self.new }
        ensures kept { self.new ≡ record self.old { uses = self.new.uses } }
    {
        if !self.failed {
            self.parts.detach(label);
        }
    }

    /// The next hop towards a node and the label to be sent there, none for implicit null. None leads to the node itself.
    pub fn outer(&self, edge: NodeNo) -> Option<(NodeNo, Option<u32>)>
        requires { edge.0 < length self.now.wiring.loopbacks }
        ensures way { self.now.failed ≡ false → result ≡ option_map sent_to (way_to self.now.wiring self.now.node edge.0) }
        ensures fits { FitsOuter result }
    {
        if self.failed {
            return None;
        }
        match self.parts.lib.usable(edge) {
            None => None,
            Some((hop, label)) => Some((hop, sent(label))),
        }
    }

    /// Forwards a frame by the node's labels. It takes no memory.
    pub fn forward(&self, frame: &mut Frame) -> Forwarded
        requires { 0 < length frame.old.entries }
        ensures cases { (result, frame.new) ≡ forwarded self.now.uses frame.old }
        // A FEC's label leads there where the node can send there, an attachment's to its site or to nothing, and no other
        // label has a use.
        ensures table { self.now.failed ≡ false → TableStands self.now }
    {
        self.parts.lfib.forward(frame)
    }

    /// What the labels are used for.
    pub fn table(&self) -> &Lfib
        ensures uses { result.now ≡ self.now.uses }
        ensures stands { self.now.failed ≡ false → TableStands self.now }
    {
        &self.parts.lfib
    }

    /// The labels that the node gave.
    pub fn labels(&self) -> &Labels
        ensures value { result.now.labels ≡ self.now.labels }
        // No label means two things.
        ensures told { self.now.failed ≡ false → IsTold self.now.labels }
    {
        &self.parts.labels
    }

    /// How many changes of each link the node has learned.
    pub fn view(&self) -> &View
        ensures ends { result.now.ends ≡ self.now.wiring.ends }
        ensures nodes { self.now.failed ≡ false → result.now.nodes ≡ length self.now.wiring.loopbacks }
        ensures counts { result.now.counts ≡ self.now.node.learned }
    {
        &self.parts.view
    }

    /// The least walks from the node.
    pub fn tree(&self) -> &Tree
        ensures { self.now.failed ≡ false → IsTree self.now.wiring (view_in self.now.node) self.now.node.me result.now }
    {
        self.parts.mended.tree()
    }

    /// The least walks from the node, mended at each change of a link: `tree` is its tree.
    pub fn mended(&self) -> &MendTree
        ensures of { self.now.failed ≡ false → IsMendedFor self.now.wiring (view_in self.now.node) self.now.node.me result.now }
        ensures least { self.now.failed ≡ false → IsTree self.now.wiring (view_in self.now.node) self.now.node.me result.now.tree }
    {
        let mended = &self.parts.mended;
        let _tree = mended.tree();
        mended
    }
}
