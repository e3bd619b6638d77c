ghost use Rattle.std.specs.Prelude.{◌≡◌, ◌≢◌, ◌≤◌, ◌<◌, ◌↔◌, ◌++◌, ◌∷◌, [], ℕ, List, None, Some, Err, length, map, slice_index, slice_index_or, slice_set, ◌+◌, ◌^◌, OnOk, IfOk, IsTrue, true, false, if◌then◌else◌};
ghost use Rattle.std.specs.Option.{option_to_list};
ghost use Rattle.std.specs.List.{flat_map};
ghost use Rattle.mn_lsr.specs.Prelude.{is_end, across, said_on, session_at, loopback_of, Learns, Opens, Closes, changed, said, after_event, IsTable, own_labels, meaning_of, offered, after_events, tells, begun, known_after, is_free, AreFew, use_of, pdus};
ghost use Rattle.mn_bindings.specs.Bindings as lib;
ghost use Rattle.mn_lsr.specs.Telling.{said_by_tell};
ghost use Rattle.mn_lsr.specs.Message.{meaning, NamesNode, HasLabel};
ghost use Rattle.mn_lsr.specs.Replies.{replied, first_reply, closing_events};
ghost use Rattle.mn_lsr.specs.Said.{pdu_of};
ghost use Rattle.mn_lsr.specs.Standing.{HasNumbers, IsUseOf};
ghost use Rattle.mn_lsr.specs.Turns.{labels_then, resting_then};
ghost use Rattle.mn_lsr.specs.Parts.{wiring_in, node_in, kept_of, HaveLabels, SitesStay, Stands, MayFollow, MaySpeak, NumbersFit, has_numbers, same_hop, stays, hop_events, said_in, pdus_by, ends_after, HasTold};

use crate::message::Message;
use crate::own_ends::Sessions;
use crate::refusal::LsrBad;
use crate::said::Said;
use crate::speaking::{Speaker, across, say, say_all};
use crate::ways::use_new_ways;
use mn_base::{LinkNo, NodeNo};
use mn_bindings::{Lib, LibEvent};
use mn_labels::Labels;
use mn_ldp_session::{Reply, Session};
use mn_lfib::Lfib;
use mn_linkdb::{LinkDb, Tree, View};
use mn_spf_inc::MendTree;
use mn_states::LdpState;
use std::alloc::{AllocError, Global};

/// The node's end of a session, and how many messages it has sent in it.
#[derive(Clone, Copy)]
pub struct Open {
    pub session: Session,
    pub said: u64,
}

/// The parts of a node.
#[derive(Drop)]
pub struct Parts {
    pub alloc: Global,
    pub me: NodeNo,
    pub loopbacks: Vec<u32>,
    pub view: View,
    /// The least walks from the node over the links that are up in its view.
    pub mended: MendTree,
    /// By link.
    pub sessions: Sessions,
    pub lib: Lib,
    pub labels: Labels,
    pub lfib: Lfib,
    /// By site, how often it was attached; none past the end.
    pub attached: Vec<u32>,
    /// By neighbour, the link that joins the node with it.
    pub links: Vec<Option<LinkNo>>,
}

/// Whether little was sent at an end.
pub(crate) fn has_numbers(end: &Option<Open>) -> bool
    ensures { result ≡ has_numbers end.now }
{
    match end {
        None => true,
        Some(open) => open.said <= 1 << 62,
    }
}

/// Whether two next hops are the same.
fn same_hop(one: Option<NodeNo>, other: Option<NodeNo>) -> bool
    ensures { result ≡ same_hop one other }
{
    match (one, other) {
        (None, None) => true,
        (Some(one), Some(other)) => one.0 == other.0,
        _ => false,
    }
}

/// Whether nothing happens to a FEC: it is the node's own, or the next hop towards it is that of the tree already.
fn stays(me: NodeNo, before: &Lib, tree: &Tree, fec: NodeNo) -> bool
    requires before { fec.0 < lib.nodes before.now.bindings }
    requires table { fec.0 < length tree.now.dists }
    ensures { result ≡ stays me.0 before.now.bindings.hops tree.now fec.0 }
{
    fec.0 == me.0 || same_hop(before.hop(fec), tree.next(fec))
}

/// The next hop towards each other node, where it isn't as it was.
fn next_hops(
    alloc: Global,
    me: NodeNo,
    before: &Lib,
    tree: &Tree,
    nodes: u32,
) -> Result<Vec<LibEvent>, AllocError>
    requires few { nodes ≤ 256 }
    requires before { lib.nodes before.now.bindings ≡ nodes }
    requires table { IsTable nodes tree.now }
    ensures { IfOk result (λ events. events.items ≡ hop_events me.0 before.now.bindings.hops tree.now nodes) }
{
    let mut events = Vec::new(alloc);
    for at in 0..nodes {
        let fec = NodeNo(at as u16);
        if !stays(me, before, tree, fec) {
            events.push(LibEvent::Next(fec, tree.next(fec)))?;
        }
    }
    Ok(events)
}

impl Parts {
    /// The next hop by the tree towards each other node, where it isn't as it was. Where the tree hasn't moved no FEC is looked at.
    fn new_hops(&self, tree: &Tree, moved: bool) -> Result<Vec<LibEvent>, AllocError>
        requires few { self.now.view.nodes ≤ 256 }
        requires before { lib.nodes self.now.lib.bindings ≡ self.now.view.nodes }
        requires table { IsTable self.now.view.nodes tree.now }
        requires still { moved ≡ false → (fec : ℕ) → fec < self.now.view.nodes → stays self.now.me.0 self.now.lib.bindings.hops tree.now fec ≡ true }
        ensures { IfOk result (λ events. events.items ≡ hop_events self.now.me.0 self.now.lib.bindings.hops tree.now self.now.view.nodes) }
    {
        if moved {
            next_hops(self.alloc, self.me, &self.lib, tree, self.view.nodes())
        } else {
            Ok(Vec::new(self.alloc))
        }
    }

    /// Takes what happened to the bindings at this tick as one change, gives the FECs that are offered newly their labels, says
    /// what must be sent, and uses the new ways. A Release brings the label that was withdrawn.
    ///
    /// Which FECs are free is asked before the change: one whose last Release comes by it isn't.
    pub(crate) fn follow(
        &mut self,
        events: &[LibEvent],
        withdrawn: u32,
        tick: u64,
        out: &mut Vec<Said>,
    ) -> Result<(), AllocError>
        requires follow { MayFollow self.old withdrawn events.now }
        requires numbers { NumbersFit self.old.sessions.items (length out.old.items) }
        requires owed { AreFew (2 ^ 62 + length out.old.items) self.old.lib.resting }
        ensures { OnOk result (HasTold self.old self.new withdrawn tick events.now (map pdu_of out.old.items) (map pdu_of out.new.items)) }
    {
        let nodes = self.view.nodes();
        let free = self.free_before(events, tick)?;
        let changed = self.lib.apply(events, tick)?;
        self.labels.offer(&changed.begun, &free)?;
        let _given = self.labels.given();
        let speaker = Speaker {
            alloc: self.alloc,
            me: self.me,
            loopbacks: &self.loopbacks,
            ends: self.view.ends(),
            links: &self.links,
            labels: &self.labels,
            withdrawn,
        };
        say_all(&speaker, &changed.tells, &mut self.sessions, out)?;
        use_new_ways(&mut self.lfib, &self.lib, &self.labels, nodes, events)
    }

    /// Learns the next change of a link, and says what its offers have become.
    pub(crate) fn learn(
        &mut self,
        db: &LinkDb,
        link: LinkNo,
        tick: u64,
    ) -> Result<Vec<Said>, LsrBad>
        requires stands { Stands self.old }
        requires there { link.0 < length self.old.view.ends }
        requires same_links { length db.now ≡ length self.old.view.ends }
        requires not_before { slice_index self.old.view.counts link.0 ≤ slice_index db.now link.0 }
        requires numbers { HasNumbers (node_in self.old) }
        ensures stands { OnOk result (Stands self.new) }
        ensures wiring { OnOk result (wiring_in self.new ≡ wiring_in self.old) }
        ensures node { OnOk result (node_in self.new ≡ after_event (wiring_in self.old) (node_in self.old) (Learns link.0)) }
        ensures labels { OnOk result (self.new.labels.labels ≡ labels_then (wiring_in self.old) tick (kept_of self.old) (Learns link.0)) }
        ensures resting { OnOk result (self.new.lib.resting ≡ resting_then (wiring_in self.old) tick (kept_of self.old) (Learns link.0)) }
        ensures said { IfOk result (λ out. map pdu_of out.items ≡ pdus (wiring_in self.old) (own_labels self.old.me.0 self.new.labels.labels) 0 (changed (wiring_in self.old) (node_in self.old) (Learns link.0)) (said (wiring_in self.old) (node_in self.old) (Learns link.0))) }
        ensures sites { OnOk result (SitesStay self.old self.new) }
        ensures empty { result ≢ Err LsrBad.NoMemory → (result ≡ Err LsrBad.Empty) ↔ (slice_index self.old.view.counts link.0 ≡ slice_index db.now link.0) }
        ensures unchanged { result ≡ Err LsrBad.Empty → self.new ≡ self.old }
    {
        let _before = self.mended.tree();
        let Ok(()) = self.view.learn(db, link) else {
            return Err(LsrBad::Empty);
        };
        let up = self.view.up(link);
        let Ok(moved) = self.mended.turn_telling(link, up) else {
            return Err(LsrBad::NoMemory);
        };
        let tree = self.mended.tree();
        let Ok(events) = self.new_hops(tree, moved) else {
            return Err(LsrBad::NoMemory);
        };
        let mut out = Vec::new(self.alloc);
        let Ok(()) = self.follow(&events, 0, tick, &mut out) else {
            return Err(LsrBad::NoMemory);
        };
        Ok(out)
    }

    /// The same for one event, or for none.
    pub(crate) fn tell(
        &mut self,
        event: Option<LibEvent>,
        withdrawn: u32,
        tick: u64,
        out: &mut Vec<Said>,
    ) -> Result<(), AllocError>
        requires follow { MayFollow self.old withdrawn (option_to_list event) }
        requires numbers { NumbersFit self.old.sessions.items (length out.old.items) }
        requires owed { AreFew (2 ^ 62 + length out.old.items) self.old.lib.resting }
        ensures { OnOk result (HasTold self.old self.new withdrawn tick (option_to_list event) (map pdu_of out.old.items) (map pdu_of out.new.items)) }
    {
        match event {
            None => Ok(()),
            Some(event) => self.follow_one(event, withdrawn, tick, out),
        }
    }

    /// The same for one event. What is received from a FEC from a neighbour that isn't its next hop is kept, and nothing else is done.
    fn follow_one(
        &mut self,
        event: LibEvent,
        withdrawn: u32,
        tick: u64,
        out: &mut Vec<Said>,
    ) -> Result<(), AllocError>
        requires follow { MayFollow self.old withdrawn (event ∷ []) }
        requires numbers { NumbersFit self.old.sessions.items (length out.old.items) }
        requires owed { AreFew (2 ^ 62 + length out.old.items) self.old.lib.resting }
        ensures { OnOk result (HasTold self.old self.new withdrawn tick (event ∷ []) (map pdu_of out.old.items) (map pdu_of out.new.items)) }
    {
        if self.lib.is_aside(event) {
            self.lib.hear_aside(event);
            return Ok(());
        }
        self.follow(&[event], withdrawn, tick, out)
    }

    /// The node's end of the session of a link.
    pub(crate) fn session(&self, link: LinkNo) -> Option<Open>
        ensures { result ≡ slice_index_or self.now.sessions.items link.0 None }
    {
        self.sessions.get(link)
    }

    /// Whether little was sent in each session.
    pub(crate) fn has_numbers(&self) -> bool
        ensures { IsTrue result → HasNumbers (node_in self.now) }
    {
        self.sessions.have_numbers()
    }

    /// Sets the node's end of the session of a link.
    pub(crate) fn set_session(
        &mut self,
        link: LinkNo,
        session: Option<Open>,
    ) -> Result<(), AllocError>
        requires { link.0 < length self.old.sessions.items }
        ensures set { OnOk result (self.new.sessions.items ≡ slice_set self.old.sessions.items link.0 session) }
        ensures others { self.new ≡ record self.old { sessions = self.new.sessions } }
    {
        self.sessions.set(link, session)
    }

    /// The neighbour over a link.
    pub(crate) fn far(&self, link: LinkNo) -> NodeNo
        requires { link.0 < length self.now.view.ends }
        ensures { result.0 ≡ across (wiring_in self.now) link.0 self.now.me.0 }
    {
        across(&self.view.ends()[usize::from(link.0)], self.me)
    }

    /// The loopback of a node.
    fn loopback(&self, node: NodeNo) -> u32
        requires { node.0 < length self.now.loopbacks.items }
        ensures { result ≡ loopback_of (wiring_in self.now) node.0 }
    {
        self.loopbacks[node.0 as usize]
    }

    /// Says a message on a link, where this holds.
    fn say_if(
        &mut self,
        holds: bool,
        link: LinkNo,
        message: Message,
        out: &mut Vec<Said>,
    ) -> Result<(), AllocError>
        requires speak { MaySpeak self.old }
        requires there { link.0 < length self.old.view.ends }
        requires fec { NamesNode (length self.old.loopbacks.items) message }
        requires label { HasLabel self.old.me.0 self.old.labels.labels 0 message }
        requires numbers { NumbersFit self.old.sessions.items (length out.old.items) }
        ensures said { OnOk result (map pdu_of out.new.items ≡ map pdu_of out.old.items ++ pdus_by (wiring_in self.old) self.old.me.0 (own_labels self.old.me.0 self.old.labels.labels) 0 self.old.sessions.items
            (said_on link.0 self.old.me.0 (if holds then meaning message ∷ [] else []))) }
        ensures counted { OnOk result (self.new.sessions.items ≡ ends_after self.old.sessions.items (said_on link.0 self.old.me.0 (if holds then meaning message ∷ [] else []))) }
        ensures others { OnOk result (self.new ≡ record self.old { sessions = self.new.sessions }) }
    {
        if !holds {
            return Ok(());
        }
        let speaker = Speaker {
            alloc: self.alloc,
            me: self.me,
            loopbacks: &self.loopbacks,
            ends: self.view.ends(),
            links: &self.links,
            labels: &self.labels,
            withdrawn: 0,
        };
        say(&speaker, link, message, &mut self.sessions, out)
    }

    /// Says what the session replies.
    pub(crate) fn reply(
        &mut self,
        link: LinkNo,
        reply: Reply,
        out: &mut Vec<Said>,
    ) -> Result<(), AllocError>
        requires speak { MaySpeak self.old }
        requires there { link.0 < length self.old.view.ends }
        requires numbers { NumbersFit self.old.sessions.items (length out.old.items) }
        ensures said { OnOk result (map pdu_of out.new.items ≡ map pdu_of out.old.items ++ pdus_by (wiring_in self.old) self.old.me.0 (own_labels self.old.me.0 self.old.labels.labels) 0 self.old.sessions.items
            (said_on link.0 self.old.me.0 (replied reply))) }
        ensures counted { OnOk result (self.new.sessions.items ≡ ends_after self.old.sessions.items (said_on link.0 self.old.me.0 (replied reply))) }
        ensures others { OnOk result (self.new ≡ record self.old { sessions = self.new.sessions }) }
    {
        self.say_if(
            reply.says_initialization(),
            link,
            Message::Initialization,
            out,
        )?;
        self.say_if(reply.says_keepalive(), link, Message::KeepAlive, out)?;
        self.say_if(reply.begins(), link, Message::Address, out)
    }

    /// Begins a session on a link. The active end says its Initialization.
    pub(crate) fn open(&mut self, link: LinkNo) -> Result<Vec<Said>, AllocError>
        requires stands { Stands self.old }
        requires there { link.0 < length self.old.view.ends }
        requires at_end { is_end (wiring_in self.old) link.0 self.old.me.0 ≡ true }
        requires closed { session_at (node_in self.old) link.0 ≡ None }
        requires numbers { HasNumbers (node_in self.old) }
        ensures stands { OnOk result (Stands self.new) }
        ensures node { OnOk result (node_in self.new ≡ after_event (wiring_in self.old) (node_in self.old) (Opens link.0)) }
        ensures labels { (tick : ℕ) → OnOk result (self.new.labels.labels ≡ labels_then (wiring_in self.old) tick (kept_of self.old) (Opens link.0)) }
        ensures resting { (tick : ℕ) → OnOk result (self.new.lib.resting ≡ resting_then (wiring_in self.old) tick (kept_of self.old) (Opens link.0)) }
        ensures said { IfOk result (λ out. map pdu_of out.items ≡ pdus (wiring_in self.old) (own_labels self.old.me.0 self.new.labels.labels) 0 (changed (wiring_in self.old) (node_in self.old) (Opens link.0)) (said (wiring_in self.old) (node_in self.old) (Opens link.0))) }
        ensures others { OnOk result (self.new ≡ record self.old { sessions = self.new.sessions }) }
    {
        let far = self.far(link);
        let me = self.loopback(self.me);
        let peer = self.loopback(far);
        let session = Session::open(me, peer);
        self.set_session(link, Some(Open { session, said: 0 }))?;
        let mut out = Vec::new(self.alloc);
        self.reply(link, first_reply(session), &mut out)?;
        Ok(out)
    }

    /// Ends the session of a link, and says what the node's offers have become.
    pub(crate) fn close(&mut self, link: LinkNo, tick: u64) -> Result<Vec<Said>, AllocError>
        requires stands { Stands self.old }
        requires there { link.0 < length self.old.view.ends }
        requires open { session_at (node_in self.old) link.0 ≢ None }
        requires numbers { HasNumbers (node_in self.old) }
        ensures stands { OnOk result (Stands self.new) }
        ensures node { OnOk result (node_in self.new ≡ after_event (wiring_in self.old) (node_in self.old) (Closes link.0)) }
        ensures labels { OnOk result (self.new.labels.labels ≡ labels_then (wiring_in self.old) tick (kept_of self.old) (Closes link.0)) }
        ensures resting { OnOk result (self.new.lib.resting ≡ resting_then (wiring_in self.old) tick (kept_of self.old) (Closes link.0)) }
        ensures said { IfOk result (λ out. map pdu_of out.items ≡ pdus (wiring_in self.old) (own_labels self.old.me.0 self.new.labels.labels) 0 (changed (wiring_in self.old) (node_in self.old) (Closes link.0)) (said (wiring_in self.old) (node_in self.old) (Closes link.0))) }
        ensures sites { OnOk result (SitesStay self.old self.new) }
        ensures others { OnOk result (self.new ≡ record self.old { sessions = self.new.sessions; lib = self.new.lib; labels = self.new.labels; lfib = self.new.lfib }) }
    {
        let event = closing(self.session(link), self.far(link));
        self.set_session(link, None)?;
        let mut out = Vec::new(self.alloc);
        self.tell(event, 0, tick, &mut out)?;
        Ok(out)
    }
}

/// What an end says as its session begins.
fn first_reply(session: Session) -> Reply
    ensures { result ≡ first_reply session.state }
{
    match session.state {
        LdpState::OpenSent => Reply::Initialization,
        _ => Reply::Nothing,
    }
}

/// A neighbour whose session was OPERATIONAL is closed.
fn closing(was: Option<Open>, far: NodeNo) -> Option<LibEvent>
    ensures { option_to_list result ≡ closing_events was far }
{
    match was {
        None => None,
        Some(open) => match open.session.state {
            LdpState::Operational => Some(LibEvent::Closed(far)),
            _ => None,
        },
    }
}
