//! A node learns of a route, or forgets all that a peer announced: a reflector sends to its peers, and an edge decides anew.
ghost use Rattle.std.specs.Prelude.{◌≡◌, ◌<◌, ◌∷◌, [], false, Some, None, length, slice_index_or, option_map, IfOk, OnOk};
ghost use Rattle.std.specs.List.{AllByRecursion};
ghost use Rattle.mn_reflect.specs.Prelude.{loopback, after_update, AreLabelled, is_reflector, Row, row_at, reflected_to, names_in, reflector_news, steady_of, edge_of_node, decide_all, decision_says, named, IsPassable, IfPassable, Shows, row_with, key_of_heard, numbers_of, AreNodes};
ghost use Rattle.mn_reflect.specs.Doing.{with_row, with_letters, changed_edge, mentioned_in, kept, decided_on, route_heard, forgotten, MayTurn, IsEdgeAt, IsNamed};

use crate::reflect::Reflect;
use mn_base::{NodeNo, VrfNo};
use mn_bgp_wire::Update;
use mn_edges::{loopback_of, steady_peers};
use mn_offers::{Offered, Offers};
use mn_prefix::Prefix;
use mn_reflect_telling::{Teller, is_among};
use std::alloc::AllocError;
use std::mem::replace;

/// The last mention of a route among these is this.
fn mention_in(
    routes: &mut Offers,
    vrf: VrfNo,
    prefix: Prefix,
    mention: Option<Offered>,
) -> Result<(), AllocError>
    ensures { OnOk result (routes.new ≡ mentioned_in (named vrf prefix) mention routes.old) }
{
    match mention {
        Some(offered) => routes.set(offered),
        None => {
            routes.remove(vrf, prefix);
            Ok(())
        }
    }
}

impl<'t> Reflect<'t> {
    /// Whether a node is a reflector.
    pub(crate) fn is_reflector(&self, node: NodeNo) -> bool
        ensures { result ≡ is_reflector self.now.reflectors node.0 }
    {
        is_among(&self.reflectors, node)
    }

    /// A node of this number, as it looks at what it received.
    fn teller(&self, node: NodeNo) -> Teller<'_>
        ensures topology { result.topology.now ≡ self.now.topology }
        ensures reflectors { numbers_of result.reflectors.now ≡ self.now.reflectors }
        ensures node { result.node ≡ node }
    {
        Teller {
            alloc: self.alloc,
            topology: self.topology,
            reflectors: &self.reflectors,
            node,
        }
    }

    /// The peers with which a node's session is Established.
    pub(crate) fn steady(&self, node: NodeNo) -> Result<Vec<NodeNo>, AllocError>
        requires { node.0 < length self.now.topology.loopbacks }
        ensures are { IfOk result (λ peers. peers.items ≡ steady_of self.now.sessions node.0) }
        ensures nodes { IfOk result (λ peers. AreNodes self.now.topology peers.items) }
    {
        self.topology.laws();
        steady_peers(self.alloc, &self.sessions[usize::from(node.0)])
    }

    /// A reflector advertises to its peers a route of which a peer says this now.
    fn tell_heard(
        &mut self,
        node: NodeNo,
        peer: NodeNo,
        vrf: VrfNo,
        prefix: Prefix,
        mention: Option<&Offered>,
    ) -> Result<(), AllocError>
        requires node { node.0 < length self.old.topology.loopbacks }
        requires peer { peer.0 < length self.old.topology.loopbacks }
        requires vrf { vrf.0 < length self.old.topology.vrfs }
        requires may { MayTurn self.old node.0 }
        requires mention { IfPassable self.old.topology (option_map (λ offered. offered.now) mention) }
        ensures { (row : Row) → Shows (slice_index_or self.old.heard node.0 []) (named vrf prefix) peer.0 (option_map (λ offered. offered.now) mention.entry) row →
            OnOk result (self.new ≡ with_letters (reflector_news self.old.topology self.old.reflectors node.0 (steady_of self.old.sessions node.0)
            (row_at self.old.heard node.0) row (named vrf prefix ∷ [])) self.old) }
    {
        let peers = self.steady(node)?;
        let teller = Teller {
            alloc: self.alloc,
            topology: self.topology,
            reflectors: &self.reflectors,
            node,
        };
        let heard = self.heard[usize::from(node.0)].as_slice();
        teller.tell_heard(&mut self.mail, &peers, heard, peer, vrf, prefix, mention)
    }

    /// A peer's last mention of a route is this.
    fn keep(
        &mut self,
        node: NodeNo,
        peer: NodeNo,
        vrf: VrfNo,
        prefix: Prefix,
        mention: Option<Offered>,
    ) -> Result<(), AllocError>
        requires node { node.0 < length self.old.topology.loopbacks }
        requires peer { peer.0 < length self.old.topology.loopbacks }
        ensures { OnOk result (self.new ≡ kept node.0 peer.0 (named vrf prefix) mention self.old) }
    {
        let routes = &mut self.heard[usize::from(node.0)][usize::from(peer.0)];
        mention_in(routes, vrf, prefix, mention)
    }

    /// What an edge is to take of a route.
    fn decision(&self, edge: NodeNo, vrf: VrfNo, prefix: Prefix) -> Result<Update, AllocError>
        requires edge { edge.0 < length self.now.topology.loopbacks }
        requires vrf { vrf.0 < length self.now.topology.vrfs }
        requires may { MayTurn self.now edge.0 }
        ensures says { IfOk result (λ update. update ≡ decision_says self.now.topology (named vrf prefix) (reflected_to self.now.reflectors (row_at self.now.heard edge.0) edge.0 (named vrf prefix))) }
        ensures labels { IfOk result (λ update. AreLabelled update.reached) }
    {
        let teller = self.teller(edge);
        teller.decision(&self.heard[usize::from(edge.0)], vrf, prefix)
    }

    /// An edge receives what another edge would say of a route.
    fn tell_edge(&mut self, edge: NodeNo, home: NodeNo, update: &Update) -> Result<(), AllocError>
        requires edge { edge.0 < length self.old.topology.loopbacks }
        requires home { home.0 < length self.old.topology.loopbacks }
        requires there { IsEdgeAt self.old edge.0 }
        requires address { loopback self.old.topology home.0 ≡ slice_index_or (edge_of_node self.old.edges edge.0).loopbacks home.0 0 }
        requires labels { AreLabelled update.now.reached }
        ensures { OnOk result (self.new ≡ changed_edge edge.0 (λ was. after_update was home.0 update.now) self.old) }
    {
        let hop = loopback_of(self.topology, home);
        let Some(pe) = &mut self.edges[usize::from(edge.0)] else {
            unreachable!()
        };
        match pe.hear(home, hop, update) {
            Ok(()) => Ok(()),
            Err(_) => Err(AllocError),
        }
    }

    /// An edge takes what the reflector of least address announces of another edge's route, or that none does.
    fn decide(&mut self, edge: NodeNo, vrf: VrfNo, prefix: Prefix) -> Result<(), AllocError>
        requires edge { edge.0 < length self.old.topology.loopbacks }
        requires vrf { vrf.0 < length self.old.topology.vrfs }
        requires may { MayTurn self.old edge.0 }
        requires isnt { is_reflector self.old.reflectors edge.0 ≡ false }
        ensures { OnOk result (self.new ≡ decided_on edge.0 (named vrf prefix) self.old) }
    {
        let home = self.topology.edge_of(vrf);
        if home.0 == edge.0 {
            return Ok(());
        }
        let update = self.decision(edge, vrf, prefix)?;
        self.tell_edge(edge, home, &update)
    }

    /// A node takes a peer's last mention of a route: that it announces it so, or withdraws it.
    fn hear_route(
        &mut self,
        node: NodeNo,
        peer: NodeNo,
        vrf: VrfNo,
        prefix: Prefix,
        mention: Option<Offered>,
    ) -> Result<(), AllocError>
        requires node { node.0 < length self.old.topology.loopbacks }
        requires peer { peer.0 < length self.old.topology.loopbacks }
        requires vrf { vrf.0 < length self.old.topology.vrfs }
        requires may { MayTurn self.old node.0 }
        requires name { IsNamed (named vrf prefix) mention }
        requires passable { IfPassable self.old.topology mention }
        ensures { OnOk result (self.new ≡ route_heard node.0 peer.0 (named vrf prefix) mention self.old) }
    {
        self.shape();
        if self.is_reflector(node) {
            self.tell_heard(node, peer, vrf, prefix, mention.as_ref())?;
            return self.keep(node, peer, vrf, prefix, mention);
        }
        self.keep(node, peer, vrf, prefix, mention)?;
        self.decide(node, vrf, prefix)
    }

    /// A node takes what a peer announces of a route.
    pub(crate) fn hear_announced(
        &mut self,
        node: NodeNo,
        peer: NodeNo,
        offered: Offered,
    ) -> Result<(), AllocError>
        requires node { node.0 < length self.old.topology.loopbacks }
        requires peer { peer.0 < length self.old.topology.loopbacks }
        requires may { MayTurn self.old node.0 }
        requires passable { IsPassable self.old.topology offered }
        ensures { OnOk result (self.new ≡ route_heard node.0 peer.0 (key_of_heard offered) (Some offered) self.old) }
    {
        let vrf = offered.vrf();
        let prefix = offered.prefix();
        self.hear_route(node, peer, vrf, prefix, Some(offered))
    }

    /// A node takes that a peer withdraws a route.
    pub(crate) fn hear_withdrawn(
        &mut self,
        node: NodeNo,
        peer: NodeNo,
        vrf: VrfNo,
        prefix: Prefix,
    ) -> Result<(), AllocError>
        requires node { node.0 < length self.old.topology.loopbacks }
        requires peer { peer.0 < length self.old.topology.loopbacks }
        requires vrf { vrf.0 < length self.old.topology.vrfs }
        requires may { MayTurn self.old node.0 }
        ensures { OnOk result (self.new ≡ route_heard node.0 peer.0 (named vrf prefix) None self.old) }
    {
        self.hear_route(node, peer, vrf, prefix, None)
    }

    /// Takes out all that a node received from a peer.
    fn take_row(&mut self, node: NodeNo, peer: NodeNo) -> Offers
        requires node { node.0 < length self.old.topology.loopbacks }
        requires peer { peer.0 < length self.old.topology.loopbacks }
        ensures row { result ≡ row_at self.old.heard node.0 peer.0 }
        ensures left { self.new ≡ with_row node.0 peer.0 [] self.old }
    {
        let none = Offers::new(self.alloc);
        replace(
            &mut self.heard[usize::from(node.0)][usize::from(peer.0)],
            none,
        )
    }

    /// A reflector tells its peers of the routes that a peer announced and that are forgotten.
    fn tell_gone(&mut self, node: NodeNo, peer: NodeNo, gone: &Offers) -> Result<(), AllocError>
        requires node { node.0 < length self.old.topology.loopbacks }
        requires peer { peer.0 < length self.old.topology.loopbacks }
        requires may { MayTurn self.old node.0 }
        requires gone { AllByRecursion (IsPassable self.old.topology) gone.now }
        requires forgotten { row_at self.old.heard node.0 peer.0 ≡ [] }
        ensures { OnOk result (self.new ≡ with_letters (reflector_news self.old.topology self.old.reflectors node.0 (steady_of self.old.sessions node.0)
            (row_with (slice_index_or self.old.heard node.0 []) peer.0 gone.now) (row_at self.old.heard node.0) (names_in gone.now)) self.old) }
    {
        let peers = self.steady(node)?;
        let teller = Teller {
            alloc: self.alloc,
            topology: self.topology,
            reflectors: &self.reflectors,
            node,
        };
        let heard = self.heard[usize::from(node.0)].as_slice();
        teller.tell_gone(&mut self.mail, &peers, heard, peer, gone)
    }

    /// An edge decides anew on routes that a peer announced and that are forgotten.
    fn decide_gone(&mut self, edge: NodeNo, gone: &Offers) -> Result<(), AllocError>
        requires edge { edge.0 < length self.old.topology.loopbacks }
        requires may { MayTurn self.old edge.0 }
        requires isnt { is_reflector self.old.reflectors edge.0 ≡ false }
        requires gone { AllByRecursion (IsPassable self.old.topology) gone.now }
        ensures { OnOk result (self.new ≡ changed_edge edge.0 (decide_all self.old.topology self.old.reflectors (row_at self.old.heard edge.0) edge.0 (names_in gone.now)) self.old) }
    {
        for offered in gone.iter() {
            self.decide(edge, offered.vrf(), offered.prefix())?;
        }
        Ok(())
    }

    /// A node forgets all that a peer announced.
    pub(crate) fn forget(&mut self, node: NodeNo, peer: NodeNo) -> Result<(), AllocError>
        requires node { node.0 < length self.old.topology.loopbacks }
        requires peer { peer.0 < length self.old.topology.loopbacks }
        requires may { MayTurn self.old node.0 }
        ensures { OnOk result (self.new ≡ forgotten node.0 peer.0 self.old) }
    {
        self.shape();
        let gone = self.take_row(node, peer);
        if self.is_reflector(node) {
            return self.tell_gone(node, peer, &gone);
        }
        self.decide_gone(node, &gone)
    }
}
