ghost use Rattle.std.specs.Prelude.{◌≡◌, ◌≢◌, ◌≤◌, ◌<◌, ◌++◌, [], ℕ, List, All, None, Some, Ok, Err, length, map, slice_index_or, OnOk, IfOk, IfErr, MatchResult, option_map};
ghost use Rattle.std.specs.Option.{option_to_list};
ghost use Rattle.mn_lsr.specs.Prelude.{IsLawful, session_at, AreSpelled, message_in};
ghost use Rattle.mn_node.specs.Node as node;
ghost use Rattle.mn_lsr.specs.Said.{pdu_of};
ghost use Rattle.mn_lsr.specs.Message.{meaning, meant};
ghost use Rattle.mn_lsr.specs.Replies.{heard_by};
ghost use Rattle.mn_lsr.specs.Hearing.{after_message, after_messages, after_pdu, after_bytes, first_refusal, Accepts, AcceptsAll, machine_then};
ghost use Rattle.mn_lsr.specs.Standing.{HasNumbers};
ghost use Rattle.mn_lsr.specs.Parts.{wiring_in, node_in, kept_of, SitesStay, machines_of, NumbersFit, Stands};

use crate::message::{Message, node_of};
use crate::parts::{Open, Parts};
use crate::refusal::LsrBad;
use crate::said::Said;
use mn_base::{LinkNo, NodeNo};
use mn_bindings::LibEvent;
use mn_ldp_session::{Session, SessionBad};
use mn_ldp_wire::{LdpBody, LdpId, LdpMessage, WireBad, read_pdu};
use std::alloc::AllocError;

/// Something that is received: on which link, from whom, and at which tick.
#[derive(Clone, Copy)]
struct Receipt {
    link: LinkNo,
    from: LdpId,
    tick: u64,
}

/// What a body says to the node, and the label that it brings. A mention of a FEC that is no node's is passed over.
fn heard_in(loopbacks: &[u32], body: &LdpBody) -> Option<(Message, u32)>
    requires few { length loopbacks.now ≤ 256 }
    requires spelled { AreSpelled (record { loopbacks = loopbacks.now; ends = [] }) }
    ensures { option_map meant result ≡ message_in (record { loopbacks = loopbacks.now; ends = [] }) body.now }
{
    match body {
        LdpBody::Notification { .. } => None,
        LdpBody::Initialization { .. } => Some((Message::Initialization, 0)),
        LdpBody::KeepAlive => Some((Message::KeepAlive, 0)),
        LdpBody::Address(_) => Some((Message::Address, 0)),
        LdpBody::Mapping(prefix, label) => match node_of(loopbacks, prefix) {
            None => None,
            Some(fec) => Some((Message::Mapping(fec), *label)),
        },
        LdpBody::Withdraw(prefix, label) => match node_of(loopbacks, prefix) {
            None => None,
            Some(fec) => Some((Message::Withdraw(fec), *label)),
        },
        LdpBody::Release(prefix, _) => match node_of(loopbacks, prefix) {
            None => None,
            Some(fec) => Some((Message::Release(fec), 0)),
        },
    }
}

/// What a message means to the bindings, where the session began by it or not.
fn event_of(far: NodeNo, began: bool, message: Message, label: u32) -> Option<LibEvent>
    ensures { option_to_list result ≡ heard_by far began (meaning message) label }
{
    match message {
        Message::KeepAlive => {
            if began {
                Some(LibEvent::Opened(far))
            } else {
                None
            }
        }
        Message::Mapping(fec) => Some(LibEvent::Map(far, fec, label)),
        Message::Withdraw(fec) => Some(LibEvent::Withdraw(far, fec)),
        Message::Release(fec) => Some(LibEvent::Released(far, fec)),
        _ => None,
    }
}

impl Parts {
    /// Receives a message that the session accepts and that says this to the node.
    fn hear_meant(
        &mut self,
        receipt: Receipt,
        message: &LdpMessage,
        heard: (Message, u32),
        out: &mut Vec<Said>,
    ) -> Result<(), AllocError>
        requires stands { Stands self.old }
        requires there { receipt.link.0 < length self.old.view.ends }
        requires lawful { IsLawful message.now.body }
        requires accepted { Accepts (slice_index_or self.old.sessions.items receipt.link.0 None) receipt.from message.now.body }
        requires meant { message_in (wiring_in self.old) message.now.body ≡ Some (meant heard) }
        requires numbers { NumbersFit self.old.sessions.items (length out.old.items) }
        ensures stands { OnOk result (Stands self.new) }
        ensures kept { OnOk result (kept_of self.new ≡ (after_message (wiring_in self.old) receipt.tick receipt.link.0 (kept_of self.old) (Some (meant heard))).kept) }
        ensures said { OnOk result (map pdu_of out.new.items ≡ map pdu_of out.old.items ++ (after_message (wiring_in self.old) receipt.tick receipt.link.0 (kept_of self.old) (Some (meant heard))).said) }
        ensures machine { OnOk result (slice_index_or (machines_of self.new.sessions.items) receipt.link.0 None ≡ machine_then (slice_index_or self.old.sessions.items receipt.link.0 None) message.now.body) }
        ensures sites { OnOk result (SitesStay self.old self.new) }
        ensures numbers { OnOk result (NumbersFit self.new.sessions.items (length out.new.items)) }
        ensures others { OnOk result (self.new ≡ record self.old { sessions = self.new.sessions; lib = self.new.lib; labels = self.new.labels; lfib = self.new.lfib }) }
    {
        let Some(was) = self.session(receipt.link) else {
            unreachable!()
        };
        let mut session = was.session;
        let Ok(reply) = session.hear(receipt.from, message) else {
            unreachable!()
        };
        let (said, label) = heard;
        let event = event_of(self.far(receipt.link), reply.begins(), said, label);
        let now = Open {
            session,
            said: was.said,
        };
        self.set_session(receipt.link, Some(now))?;
        self.reply(receipt.link, reply, out)?;
        self.tell(event, label, receipt.tick, out)?;
        Ok(())
    }

    /// Receives a message that the session accepts, as one change.
    fn hear(
        &mut self,
        receipt: Receipt,
        message: &LdpMessage,
        out: &mut Vec<Said>,
    ) -> Result<(), AllocError>
        requires stands { Stands self.old }
        requires there { receipt.link.0 < length self.old.view.ends }
        requires lawful { IsLawful message.now.body }
        requires accepted { Accepts (slice_index_or self.old.sessions.items receipt.link.0 None) receipt.from message.now.body }
        requires numbers { NumbersFit self.old.sessions.items (length out.old.items) }
        ensures stands { OnOk result (Stands self.new) }
        ensures kept { OnOk result (kept_of self.new ≡ (after_message (wiring_in self.old) receipt.tick receipt.link.0 (kept_of self.old) (message_in (wiring_in self.old) message.now.body)).kept) }
        ensures said { OnOk result (map pdu_of out.new.items ≡ map pdu_of out.old.items ++ (after_message (wiring_in self.old) receipt.tick receipt.link.0 (kept_of self.old) (message_in (wiring_in self.old) message.now.body)).said) }
        ensures machine { OnOk result (slice_index_or (machines_of self.new.sessions.items) receipt.link.0 None ≡ machine_then (slice_index_or self.old.sessions.items receipt.link.0 None) message.now.body) }
        ensures sites { OnOk result (SitesStay self.old self.new) }
        ensures numbers { OnOk result (NumbersFit self.new.sessions.items (length out.new.items)) }
        ensures others { OnOk result (self.new ≡ record self.old { sessions = self.new.sessions; lib = self.new.lib; labels = self.new.labels; lfib = self.new.lfib }) }
    {
        match heard_in(&self.loopbacks, &message.body) {
            None => Ok(()),
            Some(heard) => self.hear_meant(receipt, message, heard, out),
        }
    }
}

/// Tries the messages on a session, in order: the first one that is refused, and why.
fn first_refusal(session: Session, from: LdpId, messages: &[LdpMessage]) -> Option<SessionBad>
    ensures { result ≡ first_refusal session from messages.now }
{
    let mut tried = session;
    for message in messages {
        if let Err(bad) = tried.hear(from, message) {
            return Some(bad);
        }
    }
    None
}

impl Parts {
    /// Receives messages that the session accepts, one after the other.
    fn hear_all(
        &mut self,
        receipt: Receipt,
        messages: &[LdpMessage],
    ) -> Result<Vec<Said>, AllocError>
        requires stands { Stands self.old }
        requires there { receipt.link.0 < length self.old.view.ends }
        requires lawful { All (λ message. IsLawful message.body) messages.now }
        requires accepted { AcceptsAll (slice_index_or (machines_of self.old.sessions.items) receipt.link.0 None) receipt.from messages.now }
        requires numbers { NumbersFit self.old.sessions.items 0 }
        ensures stands { OnOk result (Stands self.new) }
        ensures heard { IfOk result (λ out. record { kept = kept_of self.new; said = map pdu_of out.items } ≡ after_messages (wiring_in self.old) receipt.tick receipt.link.0 (kept_of self.old) messages.now) }
        ensures sites { OnOk result (SitesStay self.old self.new) }
        ensures others { OnOk result (self.new ≡ record self.old { sessions = self.new.sessions; lib = self.new.lib; labels = self.new.labels; lfib = self.new.lfib }) }
    {
        let mut out = Vec::new(self.alloc);
        for message in messages {
            self.hear(receipt, message, &mut out)?;
        }
        Ok(out)
    }

    /// Receives the messages of a PDU, where the session accepts them all.
    pub(crate) fn hear_ldp(
        &mut self,
        link: LinkNo,
        bytes: &[u8],
        tick: u64,
    ) -> Result<Vec<Said>, LsrBad>
        requires stands { Stands self.old }
        requires there { link.0 < length self.old.view.ends }
        requires open { slice_index_or (machines_of self.old.sessions.items) link.0 None ≢ None }
        requires numbers { HasNumbers (node_in self.old) }
        ensures stands { OnOk result (Stands self.new) }
        ensures heard { MatchResult result
            (λ out. after_pdu (wiring_in self.old) tick link.0 (kept_of self.old) (slice_index_or (machines_of self.old.sessions.items) link.0 None) bytes.now ≡ Ok (record { kept = kept_of self.new; said = map pdu_of out.items }))
            (λ bad. bad ≢ LsrBad.NoMemory → after_pdu (wiring_in self.old) tick link.0 (kept_of self.old) (slice_index_or (machines_of self.old.sessions.items) link.0 None) bytes.now ≡ Err bad) }
        ensures sites { OnOk result (SitesStay self.old self.new) }
        ensures others { OnOk result (self.new ≡ record self.old { sessions = self.new.sessions; lib = self.new.lib; labels = self.new.labels; lfib = self.new.lfib }) }
        ensures unchanged { IfErr result (λ bad. bad ≢ LsrBad.NoMemory → self.new ≡ self.old) }
    {
        let pdu = match read_pdu(self.alloc, bytes) {
            Ok(pdu) => pdu,
            Err(WireBad::NoMemory) => return Err(LsrBad::NoMemory),
            Err(bad) => return Err(LsrBad::Wire(bad)),
        };
        let Some(open) = self.session(link) else {
            unreachable!()
        };
        if let Some(bad) = first_refusal(open.session, pdu.from(), pdu.messages()) {
            return Err(LsrBad::Session(bad));
        }
        let receipt = Receipt {
            link,
            from: pdu.from(),
            tick,
        };
        match self.hear_all(receipt, pdu.messages()) {
            Ok(out) => Ok(out),
            Err(_) => Err(LsrBad::NoMemory),
        }
    }

    /// The same, by the session as contracts see it.
    pub(crate) fn hear_bytes(
        &mut self,
        link: LinkNo,
        bytes: &[u8],
        tick: u64,
    ) -> Result<Vec<Said>, LsrBad>
        requires stands { Stands self.old }
        requires there { link.0 < length self.old.view.ends }
        requires open { session_at (node_in self.old) link.0 ≢ None }
        requires numbers { HasNumbers (node_in self.old) }
        ensures stands { OnOk result (Stands self.new) }
        ensures heard { (session : node.Session) → session_at (node_in self.old) link.0 ≡ Some session → MatchResult result
            (λ out. after_bytes (wiring_in self.old) tick link.0 (kept_of self.old) session bytes.now ≡ Ok (record { kept = kept_of self.new; said = map pdu_of out.items }))
            (λ bad. bad ≢ LsrBad.NoMemory → after_bytes (wiring_in self.old) tick link.0 (kept_of self.old) session bytes.now ≡ Err bad) }
        ensures sites { OnOk result (SitesStay self.old self.new) }
        ensures others { OnOk result (self.new ≡ record self.old { sessions = self.new.sessions; lib = self.new.lib; labels = self.new.labels; lfib = self.new.lfib }) }
        ensures unchanged { IfErr result (λ bad. bad ≢ LsrBad.NoMemory → self.new ≡ self.old) }
    {
        self.hear_ldp(link, bytes, tick)
    }
}
