//! A session begins or ends, and a message is received.
ghost use Rattle.std.specs.Prelude.{◌≡◌, ◌≢◌, ◌<◌, ◌∷◌, [], ℕ, Option, Some, None, true, length, slice_index_or, IfOk, OnOk};
ghost use Rattle.mn_reflect.specs.Prelude.{OpenSent, Labels, vrf_at, first_from_to, Key, Word, row_at, all_names, open_letter, reflector_offers, end_in};
ghost use Rattle.mn_bgp_wire.specs.declared.message.BgpMessage.{BgpMessage as Message};
ghost use Rattle.mn_bgp_session.specs.declared.table.BgpReply.{BgpReply as Reply};
ghost use Rattle.mn_mail.specs.Mail.{Letter as LetterNow};
ghost use Rattle.mn_offers.specs.Heard.{Heard as HeardRoute};
ghost use Rattle.mn_reflect.specs.Doing.{with_end, cut_between, with_letters, begun, ended, taken, MayTurn, MayHear, IsSaying, route_heard, MayAnswer, IsFirst, reply_of, next_of, answered, offered_all, IsNext, CanHear, word_heard};

use crate::reflect::Reflect;
use mn_base::{NodeNo, VrfNo};
use mn_bgp_reflected::Reflected;
use mn_bgp_session::{BgpReply, BgpSession};
use mn_bgp_wire::{BgpMessage, write_keep, write_open};
use mn_edges::loopback_of;
use mn_mail::Letter;
use mn_offers::Offered;
use mn_reflect_telling::{Heard, Teller, names_of, read, send, tell_exports, vrf_with};
use mn_vpn_nlri::VpnRoute;
use std::alloc::AllocError;

impl<'t> Reflect<'t> {
    /// An end of a session is this now.
    pub(crate) fn set_end(&mut self, node: NodeNo, peer: NodeNo, end: Option<BgpSession>)
        requires node { node.0 < length self.old.topology.loopbacks }
        requires peer { peer.0 < length self.old.topology.loopbacks }
        ensures { self.new ≡ with_end node.0 peer.0 end self.old }
    {
        self.sessions[usize::from(node.0)][usize::from(peer.0)] = end;
    }

    /// Nothing flies between two nodes any more.
    fn cut(&mut self, a: NodeNo, b: NodeNo)
        requires a { a.0 < length self.old.topology.loopbacks }
        requires b { b.0 < length self.old.topology.loopbacks }
        ensures { self.new ≡ cut_between a.0 b.0 self.old }
    {
        self.mail.cut(a, b);
    }

    /// An end of a session that has sent OPEN.
    fn opened(&self, node: NodeNo, peer: NodeNo) -> BgpSession
        requires node { node.0 < length self.now.topology.loopbacks }
        requires peer { peer.0 < length self.now.topology.loopbacks }
        ensures { result ≡ end_in self.now.topology node.0 peer.0 OpenSent }
    {
        BgpSession::open(
            self.topology.asn(),
            loopback_of(self.topology, node),
            loopback_of(self.topology, peer),
        )
    }

    /// A node sends OPEN to a peer.
    fn say_open(&mut self, node: NodeNo, peer: NodeNo) -> Result<(), AllocError>
        requires node { node.0 < length self.old.topology.loopbacks }
        requires peer { peer.0 < length self.old.topology.loopbacks }
        ensures { OnOk result (self.new ≡ with_letters (open_letter self.old.topology node.0 peer.0 ∷ []) self.old) }
    {
        let bytes = write_open(
            self.alloc,
            self.topology.asn(),
            loopback_of(self.topology, node),
        )?;
        send(&mut self.mail, node, peer, bytes)
    }

    /// A session of two nodes begins: each sends OPEN, the first one first.
    pub(crate) fn begin(&mut self, a: NodeNo, b: NodeNo) -> Result<(), AllocError>
        requires a { a.0 < length self.old.topology.loopbacks }
        requires b { b.0 < length self.old.topology.loopbacks }
        ensures { OnOk result (self.new ≡ begun a.0 b.0 self.old) }
    {
        let first = self.opened(a, b);
        let second = self.opened(b, a);
        self.set_end(a, b, Some(first));
        self.set_end(b, a, Some(second));
        self.cut(a, b);
        self.say_open(a, b)?;
        self.say_open(b, a)
    }

    /// It ends: nothing flies between them any more, and each forgets what it received from the other.
    pub(crate) fn end(&mut self, a: NodeNo, b: NodeNo) -> Result<(), AllocError>
        requires a { a.0 < length self.old.topology.loopbacks }
        requires b { b.0 < length self.old.topology.loopbacks }
        requires apart { a.0 ≢ b.0 }
        requires first { MayTurn self.old a.0 }
        requires second { MayTurn self.old b.0 }
        ensures { OnOk result (self.new ≡ ended a.0 b.0 self.old) }
    {
        self.set_end(a, b, None);
        self.set_end(b, a, None);
        self.cut(a, b);
        self.forget(a, b)?;
        self.forget(b, a)
    }

    /// The next message from a peer to a node, which is in flight no longer.
    fn take_next(&mut self, peer: NodeNo, node: NodeNo) -> Letter
        requires peer { peer.0 < length self.old.topology.loopbacks }
        requires node { node.0 < length self.old.topology.loopbacks }
        requires flies { (letter : LetterNow) × (first_from_to peer.0 node.0 self.old.mail.letters ≡ Some letter) }
        ensures letter { first_from_to peer.0 node.0 self.old.mail.letters ≡ Some result }
        ensures taken { self.new ≡ taken peer.0 node.0 self.old }
    {
        match self.mail.take(peer, node) {
            Some(letter) => letter,
            None => unreachable!(),
        }
    }

    /// The VRF of a route's distinguisher.
    fn vrf_of(&self, route: &VpnRoute) -> VrfNo
        requires { (v : ℕ) × (v < length self.now.topology.vrfs) × (route.now.rd ≡ (vrf_at self.now.topology v).rd) }
        ensures { (v : ℕ) → v < length self.now.topology.vrfs → route.now.rd ≡ (vrf_at self.now.topology v).rd → result ≡ record { 0 = v } }
    {
        match vrf_with(&self.vrfs, route.rd) {
            Some(vrf) => vrf,
            None => unreachable!(),
        }
    }

    /// A route as an UPDATE announces it.
    fn offered(&self, route: &VpnRoute, reflected: &Reflected) -> Result<Offered, AllocError>
        requires { (v : ℕ) × (v < length self.now.topology.vrfs) × (route.now.rd ≡ (vrf_at self.now.topology v).rd) }
        ensures { IfOk result (λ offered. (v : ℕ) → v < length self.now.topology.vrfs → route.now.rd ≡ (vrf_at self.now.topology v).rd →
            offered ≡ record { vrf = v; prefix = route.now.prefix; label = route.now.label; targets = reflected.now.update.targets; clusters = reflected.now.clusters }) }
    {
        let targets = Vec::from_slice(self.alloc, reflected.update().targets())?;
        let clusters = Vec::from_slice(self.alloc, reflected.clusters())?;
        let vrf = self.vrf_of(route);
        Ok(Offered::new(vrf, route.prefix, route.label, targets, clusters))
    }

    /// A node takes the routes that a peer's UPDATE announces or withdraws: one of either.
    fn hear_update(
        &mut self,
        peer: NodeNo,
        node: NodeNo,
        reflected: &Reflected,
    ) -> Result<(), AllocError>
        requires peer { peer.0 < length self.old.topology.loopbacks }
        requires node { node.0 < length self.old.topology.loopbacks }
        requires may { MayTurn self.old node.0 }
        requires says { (key : Key) × (mention : Option HeardRoute) × IsSaying self.old.topology reflected.now key mention }
        ensures { (key : Key) (mention : Option HeardRoute) → IsSaying self.old.topology reflected.now key mention →
            OnOk result (self.new ≡ route_heard node.0 peer.0 key mention self.old) }
    {
        let update = reflected.update();
        if let [route] = update.reached() {
            let offered = self.offered(route, reflected)?;
            return self.hear_announced(node, peer, offered);
        }
        if let [route] = update.withdrawn() {
            let vrf = self.vrf_of(route);
            return self.hear_withdrawn(node, peer, vrf, route.prefix);
        }
        Ok(())
    }

    /// An end of a session takes a message that says no routes. It answers what the session does.
    fn hear_session(&mut self, peer: NodeNo, node: NodeNo, message: &BgpMessage) -> BgpReply
        requires peer { peer.0 < length self.old.topology.loopbacks }
        requires node { node.0 < length self.old.topology.loopbacks }
        requires takes { MayAnswer self.old peer.0 node.0 message.now }
        ensures heard { (word : Word) → IsFirst self.old.topology peer.0 message.now word →
            self.new ≡ with_end node.0 peer.0 (Some (end_in self.old.topology node.0 peer.0 (next_of word))) self.old }
        ensures reply { (word : Word) → IsFirst self.old.topology peer.0 message.now word → result ≡ reply_of word }
    {
        let Some(end) = &mut self.sessions[usize::from(node.0)][usize::from(peer.0)] else {
            unreachable!()
        };
        match end.hear(message) {
            Ok(reply) => reply,
            // What flies is what was sent, and comes in turn.
            Err(_) => unreachable!(),
        }
    }

    /// A reflector advertises to a peer all that it offers it.
    fn tell_tables(&mut self, node: NodeNo, peer: NodeNo) -> Result<(), AllocError>
        requires node { node.0 < length self.old.topology.loopbacks }
        requires peer { peer.0 < length self.old.topology.loopbacks }
        requires may { MayTurn self.old node.0 }
        ensures { OnOk result (self.new ≡ with_letters (reflector_offers self.old.topology self.old.reflectors node.0 peer.0 (row_at self.old.heard node.0)
            (all_names (slice_index_or self.old.heard node.0 []))) self.old) }
    {
        let heard = self.heard[usize::from(node.0)].as_slice();
        let names = names_of(self.alloc, heard)?;
        let teller = Teller {
            alloc: self.alloc,
            topology: self.topology,
            reflectors: &self.reflectors,
            node,
        };
        teller.tell_all(&mut self.mail, peer, heard, &names)
    }

    /// A node advertises to a peer with which it became Established all that it offers it.
    fn tell_all(&mut self, node: NodeNo, peer: NodeNo) -> Result<(), AllocError>
        requires node { node.0 < length self.old.topology.loopbacks }
        requires peer { peer.0 < length self.old.topology.loopbacks }
        requires may { MayHear self.old node.0 }
        ensures { OnOk result (self.new ≡ offered_all node.0 peer.0 self.old) }
    {
        if self.is_reflector(node) {
            return self.tell_tables(node, peer);
        }
        let Some(pe) = &self.edges[usize::from(node.0)] else {
            unreachable!()
        };
        let Ok(exports) = pe.exports() else {
            return Err(AllocError);
        };
        tell_exports(
            &mut self.mail,
            self.alloc,
            self.topology,
            node,
            &[peer],
            &exports,
            true,
        )
    }

    /// It sends KEEPALIVE, or advertises to the peer all that it offers it.
    fn answer(&mut self, node: NodeNo, peer: NodeNo, reply: BgpReply) -> Result<(), AllocError>
        requires node { node.0 < length self.old.topology.loopbacks }
        requires peer { peer.0 < length self.old.topology.loopbacks }
        requires may { MayHear self.old node.0 }
        ensures { OnOk result (self.new ≡ answered node.0 peer.0 reply self.old) }
    {
        if reply.say_keep {
            let bytes = write_keep(self.alloc)?;
            return send(&mut self.mail, node, peer, bytes);
        }
        if reply.became_established {
            return self.tell_all(node, peer);
        }
        Ok(())
    }

    /// A node receives the next message of a peer.
    pub(crate) fn hear_next(&mut self, peer: NodeNo, node: NodeNo) -> Result<(), AllocError>
        requires peer { peer.0 < length self.old.topology.loopbacks }
        requires node { node.0 < length self.old.topology.loopbacks }
        requires may { CanHear self.old peer.0 node.0 }
        ensures { (labels : Labels) (word : Word) → IsNext labels self.old peer.0 node.0 word →
            OnOk result (self.new ≡ word_heard labels peer.0 node.0 word self.old) }
    {
        self.topology.laws();
        let letter = self.take_next(peer, node);
        match read(self.alloc, letter.bytes())? {
            Heard::Routes(reflected) => self.hear_update(peer, node, &reflected),
            Heard::Other(message) => {
                let reply = self.hear_session(peer, node, &message);
                self.answer(node, peer, reply)
            }
        }
    }
}
