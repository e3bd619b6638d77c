//! A session opens or ends, and a message is received.
ghost use Rattle.std.specs.Prelude.{◌≡◌, ◌<◌, ◌≤◌, ◌^◌, ◌∷◌, [], ℕ, List, true, false, length, IfOk, OnOk, None, Some, option_map, slice_get, slice_index_or};
ghost use Rattle.std.specs.List.{All};
ghost use Rattle.mn_routing.specs.Prelude.{IsFlight, Item, IsBgp, NoMemory, loopback, after_message, exports_of, opened, update_of, working, HasEdge, AreSayable, AreLabelledIn, Puts, edge_at, with_edge, with_end, open_to, forgotten, next_on, taken, channel_from, MayTurn, Opens, Ends, IsAnswered, MayHear, CanHear, Hears, answers_in};
ghost use Rattle.mn_bgp_wire.specs.declared.message.BgpMessage.{BgpMessage as Message};
ghost use Rattle.mn_bgp_session.specs.declared.table.BgpReply.{BgpReply as Reply};
ghost use Rattle.mn_bgp_session.specs.Table as table;
ghost use Rattle.mn_routing_laws.specs.Doing.{cut as between_cut};

use crate::flying::{channel_to, cut, send, tell};
use crate::routes::Routes;
use mn_base::{ListOf, NodeNo};
use mn_bgp_session::{BgpReply, BgpSession};
use mn_bgp_wire::{BgpMessage, BgpWireBad, read_bgp, write_keep, write_open};
use mn_edges::loopback_of;
use mn_flight::{Clock, Flight};
use mn_topo::Topology;
use std::alloc::{AllocError, Global};

/// An end of a session of two edges, which has sent OPEN.
fn opened(topology: &Topology, edge: NodeNo, peer: NodeNo) -> BgpSession
    requires edge { edge.0 < length topology.now.loopbacks }
    requires peer { peer.0 < length topology.now.loopbacks }
    ensures { result ≡ opened topology.now edge.0 peer.0 }
{
    BgpSession::open(
        topology.asn(),
        loopback_of(topology, edge),
        loopback_of(topology, peer),
    )
}

/// Bytes that spell a message are refused only where memory runs out.
fn want(bad: BgpWireBad) -> AllocError
    requires { bad ≡ NoMemory }
{
    match bad {
        BgpWireBad::NoMemory => AllocError,
        // What flies is what was sent.
        _ => unreachable!(),
    }
}

/// The message that bytes spell.
fn read(alloc: Global, bytes: &[u8]) -> Result<BgpMessage, AllocError>
    requires { (message : Message) × IsBgp bytes.now message }
    ensures { IfOk result (λ found. (message : Message) → IsBgp bytes.now message → found ≡ message) }
{
    match read_bgp(alloc, bytes) {
        Ok(message) => Ok(message),
        Err(bad) => Err(want(bad)),
    }
}

impl Routes {
    /// An end of a session is this now.
    fn set_end(&mut self, edge: NodeNo, peer: NodeNo, end: Option<BgpSession>)
        requires edge { edge.0 < length self.old.sessions }
        requires peer { peer.0 < length (slice_index_or self.old.sessions edge.0 []) }
        ensures { self.new ≡ with_end edge.0 peer.0 end self.old }
    {
        self.sessions[usize::from(edge.0)][usize::from(peer.0)] = end;
    }

    /// Nothing flies between two edges any more.
    fn cut_between(&mut self, topology: &Topology, a: NodeNo, b: NodeNo)
        requires a { a.0 < length topology.now.loopbacks }
        requires b { b.0 < length topology.now.loopbacks }
        ensures { self.new ≡ between_cut topology.now a.0 b.0 self.old }
    {
        cut(&mut self.messages, topology, a, b);
    }

    /// An edge sends OPEN to a peer.
    fn say_open(
        &mut self,
        topology: &Topology,
        edge: NodeNo,
        peer: NodeNo,
        clock: Clock,
    ) -> Result<u64, AllocError>
        requires edge { edge.0 < length topology.now.loopbacks }
        requires peer { peer.0 < length topology.now.loopbacks }
        requires nodes { length self.old.edges ≡ length topology.now.loopbacks }
        requires tick { clock.tick ≤ 2 ^ 63 }
        requires numbers { clock.number ≤ 2 ^ 63 }
        requires number { All (λ item. item.number < clock.number) self.old.messages }
        ensures said { IfOk result (λ next. Puts topology.now clock.tick clock.number (open_to topology.now edge.0 peer.0 ∷ []) self.old self.new next) }
        ensures number { IfOk result (λ next. All (λ item. item.number < next) self.new.messages) }
    {
        let bytes = write_open(self.alloc, topology.asn(), loopback_of(topology, edge))?;
        send(&mut self.messages, topology, edge, peer, bytes, clock)
    }

    /// The session of two edges opens: each has sent OPEN to the other.
    pub(crate) fn open(
        &mut self,
        topology: &Topology,
        a: NodeNo,
        b: NodeNo,
        clock: Clock,
    ) -> Result<u64, AllocError>
        requires a { a.0 < length topology.now.loopbacks }
        requires b { b.0 < length topology.now.loopbacks }
        requires tick { clock.tick ≤ 2 ^ 63 }
        requires numbers { clock.number ≤ 2 ^ 62 }
        requires number { All (λ item. item.number < clock.number) self.old.messages }
        requires may { MayTurn topology.now self.old a.0 b.0 }
        ensures { IfOk result (λ next. Opens topology.now clock.tick clock.number a.0 b.0 self.old self.new next) }
    {
        self.set_end(a, b, Some(opened(topology, a, b)));
        self.set_end(b, a, Some(opened(topology, b, a)));
        self.cut_between(topology, a, b);
        let number = self.say_open(topology, a, b, clock)?;
        let clock = Clock {
            tick: clock.tick,
            number,
        };
        self.say_open(topology, b, a, clock)
    }

    /// An edge forgets what it received from a peer.
    fn forget(&mut self, edge: NodeNo, peer: NodeNo) -> Result<(), AllocError>
        requires { slice_get self.old.edges edge.0 ≡ Some (Some (working (edge_at self.old edge.0))) }
        ensures { OnOk result (self.new ≡ forgotten edge.0 peer.0 self.old) }
    {
        let Some(pe) = &mut self.edges[usize::from(edge.0)] else {
            unreachable!()
        };
        match pe.forget(peer) {
            Ok(()) => Ok(()),
            Err(_) => Err(AllocError),
        }
    }

    /// The session of two edges ends: each forgets what it received from the other, and nothing flies between them.
    pub(crate) fn end(
        &mut self,
        topology: &Topology,
        a: NodeNo,
        b: NodeNo,
    ) -> Result<(), AllocError>
        requires a { a.0 < length topology.now.loopbacks }
        requires b { b.0 < length topology.now.loopbacks }
        requires may { MayTurn topology.now self.old a.0 b.0 }
        ensures { OnOk result (Ends topology.now a.0 b.0 self.old self.new) }
    {
        self.forget(a, b)?;
        self.forget(b, a)?;
        self.set_end(a, b, None);
        self.set_end(b, a, None);
        self.cut_between(topology, a, b);
        Ok(())
    }

    /// An edge takes what a message of a peer says of routes.
    #[tactic(auto, using(mn_routing_laws::proofs::Opening::set_same))]
    fn hear_routes(
        &mut self,
        topology: &Topology,
        peer: NodeNo,
        edge: NodeNo,
        message: &BgpMessage,
    ) -> Result<(), AllocError>
        requires peer { peer.0 < length topology.now.loopbacks }
        requires edge { edge.0 < length self.old.edges }
        requires there { slice_get self.old.edges edge.0 ≡ Some (Some (working (edge_at self.old edge.0))) }
        requires address { loopback topology.now peer.0 ≡ slice_index_or (edge_at self.old edge.0).loopbacks peer.0 0 }
        requires labels { AreLabelledIn (update_of message.now) }
        ensures { OnOk result (self.new ≡ with_edge edge.0 (after_message (edge_at self.old edge.0) peer.0 (update_of message.now)) self.old) }
    {
        let BgpMessage::Update(update) = message else {
            return Ok(());
        };
        let Some(pe) = &mut self.edges[usize::from(edge.0)] else {
            unreachable!()
        };
        match pe.hear(peer, loopback_of(topology, peer), update) {
            Ok(()) => Ok(()),
            Err(_) => Err(AllocError),
        }
    }

    /// An end of a session takes a message. It answers what the session does.
    fn hear_session(&mut self, peer: NodeNo, edge: NodeNo, message: &BgpMessage) -> BgpReply
        requires edge { edge.0 < length self.old.sessions }
        requires takes { (answer : Reply) × IsAnswered self.old peer.0 edge.0 message.now answer }
        ensures heard { self.new ≡ with_end edge.0 peer.0 (option_map (λ session. table.after_message session message.now) (slice_index_or (slice_index_or self.old.sessions edge.0 []) peer.0 None)) self.old }
        ensures answer { (answer : Reply) → IsAnswered self.old peer.0 edge.0 message.now answer → result ≡ answer }
    {
        let Some(end) = &mut self.sessions[usize::from(edge.0)][usize::from(peer.0)] else {
            unreachable!()
        };
        match end.hear(message) {
            Ok(answer) => answer,
            // What flies is what was sent, and comes in turn.
            Err(_) => unreachable!(),
        }
    }

    /// What a session does as a message is received: it sends KEEPALIVE, or its edge advertises all its exports to the peer.
    fn answer(
        &mut self,
        topology: &Topology,
        edge: NodeNo,
        peer: NodeNo,
        answer: BgpReply,
        clock: Clock,
    ) -> Result<u64, AllocError>
        requires has { HasEdge topology.now self.old edge.0 }
        requires edge { edge.0 < length topology.now.loopbacks }
        requires peer { peer.0 < length topology.now.loopbacks }
        requires tick { clock.tick ≤ 2 ^ 63 }
        requires numbers { clock.number ≤ 2 ^ 63 }
        requires number { All (λ item. item.number < clock.number) self.old.messages }
        requires exports { answer.became_established ≡ true → AreSayable (exports_of (edge_at self.old edge.0)) }
        requires one { answer.say_keep ≡ true → answer.became_established ≡ false }
        ensures { IfOk result (λ next. Puts topology.now clock.tick clock.number (answers_in topology.now edge.0 peer.0 answer (exports_of (edge_at self.old edge.0))) self.old self.new next) }
    {
        topology.laws();
        if answer.say_keep {
            let bytes = write_keep(self.alloc)?;
            return send(&mut self.messages, topology, edge, peer, bytes, clock);
        }
        if !answer.became_established {
            return Ok(clock.number);
        }
        let Some(pe) = &self.edges[usize::from(edge.0)] else {
            unreachable!()
        };
        let Ok(exports) = pe.exports() else {
            return Err(AllocError);
        };
        tell(
            &mut self.messages,
            self.alloc,
            topology,
            edge,
            &[peer],
            &exports,
            true,
            clock,
        )
    }

    /// The next message from a peer to an edge, which is in flight no longer.
    fn take_next(&mut self, topology: &Topology, peer: NodeNo, edge: NodeNo) -> ListOf<u8>
        requires peer { peer.0 < length topology.now.loopbacks }
        requires edge { edge.0 < length topology.now.loopbacks }
        requires flies { (item : Item (List ℕ)) × (next_on self.old (channel_from topology.now peer.0 edge.0) ≡ Some item) }
        ensures taken { self.new ≡ taken (channel_from topology.now peer.0 edge.0) self.old }
        ensures flight { (channels : ℕ) × IsFlight channels self.old.messages }
        ensures bytes { (item : Item (List ℕ)) → next_on self.old (channel_from topology.now peer.0 edge.0) ≡ Some item → result ≡ item.item }
    {
        match self.messages.take(channel_to(topology, peer, edge), 0) {
            Some(item) => item.item,
            None => unreachable!(),
        }
    }

    /// An edge receives the next message of a peer, and answers.
    pub(crate) fn hear_next(
        &mut self,
        topology: &Topology,
        peer: NodeNo,
        edge: NodeNo,
        clock: Clock,
    ) -> Result<u64, AllocError>
        requires peer { peer.0 < length topology.now.loopbacks }
        requires edge { edge.0 < length topology.now.loopbacks }
        requires tick { clock.tick ≤ 2 ^ 63 }
        requires numbers { clock.number ≤ 2 ^ 63 }
        requires number { All (λ item. item.number < clock.number) self.old.messages }
        requires may { CanHear topology.now self.old peer.0 edge.0 }
        ensures flight { (channels : ℕ) × IsFlight channels self.old.messages }
        ensures number { IfOk result (λ next. clock.number ≤ next) }
        ensures hears { (message : Message) (answer : Reply) → MayHear topology.now self.old peer.0 edge.0 message answer →
            IfOk result (λ next. Hears topology.now clock.tick clock.number peer.0 edge.0 message answer self.old self.new next) }
    {
        let bytes = self.take_next(topology, peer, edge);
        let message = read(self.alloc, bytes.as_slice())?;
        self.hear_routes(topology, peer, edge, &message)?;
        let answer = self.hear_session(peer, edge, &message);
        self.answer(topology, edge, peer, answer, clock)
    }
}
