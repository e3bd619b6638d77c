//! What a reflector says of routes that come, change or go.
use mn_base::{NodeNo, VrfNo};
use mn_topo::Topology;
use std::alloc::{AllocError, Global};

/// A reflector, as it advertises routes to its peers.
#[derive(Clone, Copy)]
pub struct Teller<'r> {
    pub alloc: Global,
    pub topology: &'r Topology,
    /// By address, the least first.
    pub reflectors: &'r [NodeNo],
    pub node: NodeNo,
}

ghost use Rattle.std.specs.Prelude.{◌≡◌, ◌<◌, [], ◌∷◌, None, not, length, map, slice_index_or, option_map, IfOk, OnOk};
ghost use Rattle.std.specs.List.{AllByRecursion, flat_map};
ghost use Rattle.mn_base.specs.declared.numbers.NodeNo.{NodeNo as NodeNumber};
ghost use Rattle.mn_ledger.specs.Prelude.{Network, loopback, vrf_at};
ghost use Rattle.mn_reflect_telling.specs.Prelude.{IsBgp, Says, says_announced, says_withdrawn, heard_at, AreLabelled, is_reflector, Row, offered_of, reflected_to, names_in, says_same, change_letters, vpn_route_of, next_hop, reflector_news, reflector_offers, decision_says};
ghost use Rattle.mn_bgp_wire.specs.declared.message.BgpMessage.{BgpMessage as Message};
ghost use Rattle.mn_reflect_telling.specs.Mentions.{numbers_of, Shows, ShowsIn, AreOf, AreKept, AreNodes, row_in, row_with, held_out};
ghost use Rattle.mn_reflect_telling.specs.Names.{named, key_in};
ghost use Rattle.mn_reflect_telling.specs.Passing.{IsPassable, IfPassable};
ghost use Rattle.mn_reflect_telling.specs.declared.name.Name.{Name as NameOf};
ghost use Rattle.mn_reflect_telling.specs.Telling.{posted, passed_bytes, withdrawal_bytes, change_bytes};

use crate::mentions::{Mentions, plain};
use crate::name::Name;
use crate::updates::send;
use mn_bgp_reflected::write_reflected;
use mn_bgp_wire::{BgpMessage, Update, read_bgp, write_reach, write_unreach};
use mn_edges::loopback_of;
use mn_mail::Mail;
use mn_offers::{Offered, Offers};
use mn_prefix::Prefix;
use mn_vpn_nlri::VpnRoute;

/// A route with its VRF's distinguisher.
fn route_of(topology: &Topology, offered: &Offered) -> VpnRoute
    requires { offered.now.vrf < length topology.now.vrfs }
    ensures { result ≡ vpn_route_of topology.now offered.now }
{
    VpnRoute {
        rd: topology.vrfs()[usize::from(offered.vrf().0)].rd,
        prefix: offered.prefix(),
        label: offered.label(),
    }
}

/// A withdrawal of a route.
fn withdrawal(
    alloc: Global,
    topology: &Topology,
    vrf: VrfNo,
    prefix: Prefix,
) -> Result<Vec<u8>, AllocError>
    requires { vrf.0 < length topology.now.vrfs }
    ensures written { IfOk result (λ bytes. bytes.items ≡ withdrawal_bytes topology.now (named vrf prefix)) }
    ensures read_again { IfOk result (λ bytes. IsBgp bytes.items (Message.Update (says_withdrawn (vrf_at topology.now vrf.0).rd prefix))) }
{
    topology.laws();
    write_unreach(alloc, topology.vrfs()[usize::from(vrf.0)].rd, prefix)
}

/// An announcement of a route, as its own edge says it.
fn announcement(
    alloc: Global,
    topology: &Topology,
    offered: &Offered,
) -> Result<Vec<u8>, AllocError>
    requires { IsPassable topology.now offered.now }
    ensures { IfOk result (λ bytes. IsBgp bytes.items (Message.Update (says_announced (next_hop topology.now offered.now.vrf) (vpn_route_of topology.now offered.now) offered.now.targets))) }
{
    topology.laws();
    let hop = loopback_of(topology, topology.edge_of(offered.vrf()));
    let route = route_of(topology, offered);
    write_reach(alloc, hop, &route, offered.targets())
}

/// The UPDATE that bytes spell.
fn update_of(alloc: Global, bytes: &[u8]) -> Result<Update, AllocError>
    requires { (says : Says) × IsBgp bytes.now (Message.Update says) }
    ensures { IfOk result (λ update. (says : Says) → IsBgp bytes.now (Message.Update says) → update ≡ says) }
{
    match read_bgp(alloc, bytes) {
        Ok(BgpMessage::Update(update)) => Ok(update),
        _ => Err(AllocError),
    }
}

/// Whether an announcement says another thing than one of before.
fn is_new(old: &Offered, new: &Offered) -> bool
    ensures { result ≡ not (says_same old.now new.now) }
{
    old.label() != new.label() || old.targets() != new.targets() || old.clusters() != new.clusters()
}

/// Whether a node is one of these reflectors.
pub fn is_among(reflectors: &[NodeNo], node: NodeNo) -> bool
    ensures { result ≡ is_reflector (numbers_of reflectors.now) node.0 }
{
    reflectors.iter().any(|other| other.0 == node.0)
}

impl<'r> Teller<'r> {
    /// What it holds out to a peer: to another reflector what the route's edge announced, and to an edge what it picked for VRFs of
    /// other edges.
    fn held_out<'h>(&self, mentions: &Mentions<'h>, peer: NodeNo) -> Option<&'h Offered>
        requires mentions { AreOf self.now.topology.now mentions.now }
        requires reflectors { AreNodes self.now.topology.now self.now.reflectors.now }
        ensures said { (row : Row) → ShowsIn mentions.now row → option_map (λ offered. offered.now) result
            ≡ held_out self.now.topology.now (numbers_of self.now.reflectors.now) row self.now.node.0 peer.0 (named mentions.now.vrf mentions.now.prefix) }
        ensures passable { IfPassable self.now.topology.now (option_map (λ offered. offered.now) result) }
    {
        let home = self.topology.edge_of(mentions.vrf);
        if is_among(self.reflectors, peer) {
            return mentions.by(home);
        }
        if home.0 == peer.0 {
            return None;
        }
        mentions.pick(self.node, home, self.reflectors)
    }

    /// The addresses of the reflectors through which a route came that this one passes on: its own in front.
    fn clusters(&self, offered: &Offered) -> Result<Vec<u32>, AllocError>
        requires node { self.now.node.0 < length self.now.topology.now.loopbacks }
        ensures { IfOk result (λ clusters. clusters.items ≡ loopback self.now.topology.now self.now.node.0 ∷ offered.now.clusters) }
    {
        let mut clusters = Vec::new(self.alloc);
        clusters.push(loopback_of(self.topology, self.node))?;
        clusters.extend_from_slice(offered.clusters())?;
        Ok(clusters)
    }

    /// A route as it passes it on.
    fn passed_on(&self, offered: &Offered) -> Result<Vec<u8>, AllocError>
        requires node { self.now.node.0 < length self.now.topology.now.loopbacks }
        requires passable { IsPassable self.now.topology.now offered.now }
        ensures { IfOk result (λ bytes. bytes.items ≡ passed_bytes self.now.topology.now self.now.node.0 offered.now) }
    {
        self.topology.laws();
        let hop = loopback_of(self.topology, self.topology.edge_of(offered.vrf()));
        let route = route_of(self.topology, offered);
        let clusters = self.clusters(offered)?;
        write_reflected(self.alloc, hop, &route, offered.targets(), hop, &clusters)
    }

    /// What it says of a route that it held out so, and holds out now.
    fn change(
        &self,
        vrf: VrfNo,
        prefix: Prefix,
        old: Option<&Offered>,
        new: Option<&Offered>,
    ) -> Result<Option<Vec<u8>>, AllocError>
        requires node { self.now.node.0 < length self.now.topology.now.loopbacks }
        requires vrf { vrf.0 < length self.now.topology.now.vrfs }
        requires passable { IfPassable self.now.topology.now (option_map (λ offered. offered.now) new) }
        ensures { IfOk result (λ bytes. option_map (λ bytes. bytes.items) bytes
            ≡ change_bytes self.now.topology.now self.now.node.0 (named vrf prefix) (option_map (λ offered. offered.now) old.entry) (option_map (λ offered. offered.now) new.entry)) }
    {
        match (old, new) {
            (None, None) => Ok(None),
            (Some(_), None) => Ok(Some(withdrawal(self.alloc, self.topology, vrf, prefix)?)),
            (None, Some(new)) => Ok(Some(self.passed_on(new)?)),
            (Some(old), Some(new)) => {
                if is_new(old, new) {
                    return Ok(Some(self.passed_on(new)?));
                }
                Ok(None)
            }
        }
    }

    /// Advertises to a peer a route of which this was sent and is sent now.
    fn tell_peer(
        &self,
        mail: &mut Mail,
        peer: NodeNo,
        before: &Mentions<'_>,
        after: &Mentions<'_>,
    ) -> Result<(), AllocError>
        requires node { self.now.node.0 < length self.now.topology.now.loopbacks }
        requires peer { peer.0 < length self.now.topology.now.loopbacks }
        requires nodes { mail.old.nodes ≡ length self.now.topology.now.loopbacks }
        requires reflectors { AreNodes self.now.topology.now self.now.reflectors.now }
        requires before { AreOf self.now.topology.now before.now }
        requires after { AreOf self.now.topology.now after.now }
        requires name { named before.now.vrf before.now.prefix ≡ named after.now.vrf after.now.prefix }
        ensures told { (was row : Row) → ShowsIn before.now was → ShowsIn after.now row →
            OnOk result (mail.new ≡ posted (change_letters self.now.topology.now self.now.node.0 peer.0 (named after.now.vrf after.now.prefix)
            (offered_of self.now.topology.now (numbers_of self.now.reflectors.now) was self.now.node.0 peer.0 (named after.now.vrf after.now.prefix))
            (offered_of self.now.topology.now (numbers_of self.now.reflectors.now) row self.now.node.0 peer.0 (named after.now.vrf after.now.prefix))) mail.old) }
        ensures nodes { mail.new.nodes ≡ mail.old.nodes }
    {
        let old = self.held_out(before, peer);
        let new = self.held_out(after, peer);
        match self.change(after.vrf, after.prefix, old, new)? {
            Some(bytes) => send(mail, self.node, peer, bytes),
            None => Ok(()),
        }
    }

    /// Advertises to these peers a route of which this was sent and is sent now.
    fn tell(
        &self,
        mail: &mut Mail,
        peers: &[NodeNo],
        before: &Mentions<'_>,
        after: &Mentions<'_>,
    ) -> Result<(), AllocError>
        requires node { self.now.node.0 < length self.now.topology.now.loopbacks }
        requires peers { AreNodes self.now.topology.now peers.now }
        requires nodes { mail.old.nodes ≡ length self.now.topology.now.loopbacks }
        requires reflectors { AreNodes self.now.topology.now self.now.reflectors.now }
        requires before { AreOf self.now.topology.now before.now }
        requires after { AreOf self.now.topology.now after.now }
        requires name { named before.now.vrf before.now.prefix ≡ named after.now.vrf after.now.prefix }
        ensures told { (was row : Row) → ShowsIn before.now was → ShowsIn after.now row →
            OnOk result (mail.new ≡ posted (flat_map (λ (peer : NodeNumber). change_letters self.now.topology.now self.now.node.0 peer.0 (named after.now.vrf after.now.prefix)
            (offered_of self.now.topology.now (numbers_of self.now.reflectors.now) was self.now.node.0 peer.0 (named after.now.vrf after.now.prefix))
            (offered_of self.now.topology.now (numbers_of self.now.reflectors.now) row self.now.node.0 peer.0 (named after.now.vrf after.now.prefix))) peers.now) mail.old) }
        ensures nodes { mail.new.nodes ≡ mail.old.nodes }
    {
        for peer in peers {
            self.tell_peer(mail, *peer, before, after)?;
        }
        Ok(())
    }

    /// Tells a peer of a route all that it holds out of it.
    fn tell_offer(
        &self,
        mail: &mut Mail,
        peer: NodeNo,
        mentions: &Mentions<'_>,
    ) -> Result<(), AllocError>
        requires node { self.now.node.0 < length self.now.topology.now.loopbacks }
        requires peer { peer.0 < length self.now.topology.now.loopbacks }
        requires nodes { mail.old.nodes ≡ length self.now.topology.now.loopbacks }
        requires reflectors { AreNodes self.now.topology.now self.now.reflectors.now }
        requires mentions { AreOf self.now.topology.now mentions.now }
        ensures told { (row : Row) → ShowsIn mentions.now row →
            OnOk result (mail.new ≡ posted (change_letters self.now.topology.now self.now.node.0 peer.0 (named mentions.now.vrf mentions.now.prefix) None
            (offered_of self.now.topology.now (numbers_of self.now.reflectors.now) row self.now.node.0 peer.0 (named mentions.now.vrf mentions.now.prefix))) mail.old) }
        ensures nodes { mail.new.nodes ≡ mail.old.nodes }
    {
        match self.held_out(mentions, peer) {
            Some(offered) => {
                let bytes = self.passed_on(offered)?;
                send(mail, self.node, peer, bytes)
            }
            None => Ok(()),
        }
    }

    /// Tells a peer all that it offers it of these routes.
    pub fn tell_all(
        &self,
        mail: &mut Mail,
        peer: NodeNo,
        heard: &[Offers],
        names: &[Name],
    ) -> Result<(), AllocError>
        requires node { self.now.node.0 < length self.now.topology.now.loopbacks }
        requires peer { peer.0 < length self.now.topology.now.loopbacks }
        requires nodes { mail.old.nodes ≡ length self.now.topology.now.loopbacks }
        requires reflectors { AreNodes self.now.topology.now self.now.reflectors.now }
        requires heard { AreKept self.now.topology.now heard.now }
        requires names { AllByRecursion (λ (name : NameOf). name.vrf.0 < length self.now.topology.now.vrfs) names.now }
        ensures told { OnOk result (mail.new ≡ posted (reflector_offers self.now.topology.now (numbers_of self.now.reflectors.now) self.now.node.0 peer.0
            (row_in heard.now) (map key_in names.now)) mail.old) }
        ensures nodes { mail.new.nodes ≡ mail.old.nodes }
    {
        for name in names {
            let mentions = plain(heard, name.vrf, name.prefix, self.node);
            self.tell_offer(mail, peer, &mentions)?;
        }
        Ok(())
    }

    /// Tells these peers of a route of which a peer says this now.
    pub fn tell_heard<'h>(
        &self,
        mail: &mut Mail,
        peers: &[NodeNo],
        heard: &'h [Offers],
        peer: NodeNo,
        vrf: VrfNo,
        prefix: Prefix,
        mention: Option<&'h Offered>,
    ) -> Result<(), AllocError>
        requires node { self.now.node.0 < length self.now.topology.now.loopbacks }
        requires peer { peer.0 < length self.now.topology.now.loopbacks }
        requires peers { AreNodes self.now.topology.now peers.now }
        requires nodes { mail.old.nodes ≡ length self.now.topology.now.loopbacks }
        requires reflectors { AreNodes self.now.topology.now self.now.reflectors.now }
        requires heard { AreKept self.now.topology.now heard.now }
        requires vrf { vrf.0 < length self.now.topology.now.vrfs }
        requires mention { IfPassable self.now.topology.now (option_map (λ offered. offered.now) mention) }
        ensures told { (row : Row) → Shows heard.now (named vrf prefix) peer.0 (option_map (λ offered. offered.now) mention.entry) row →
            OnOk result (mail.new ≡ posted (flat_map (λ (other : NodeNumber). change_letters self.now.topology.now self.now.node.0 other.0 (named vrf prefix)
            (offered_of self.now.topology.now (numbers_of self.now.reflectors.now) (row_in heard.now) self.now.node.0 other.0 (named vrf prefix))
            (offered_of self.now.topology.now (numbers_of self.now.reflectors.now) row self.now.node.0 other.0 (named vrf prefix))) peers.now) mail.old) }
        ensures nodes { mail.new.nodes ≡ mail.old.nodes }
    {
        let before = plain(heard, vrf, prefix, peer);
        let after = Mentions {
            heard,
            vrf,
            prefix,
            peer,
            mention,
        };
        self.tell(mail, peers, &before, &after)
    }

    /// Tells these peers of a route of what a peer announced and that is forgotten.
    fn tell_lost(
        &self,
        mail: &mut Mail,
        peers: &[NodeNo],
        heard: &[Offers],
        peer: NodeNo,
        gone: &Offers,
        name: Name,
    ) -> Result<(), AllocError>
        requires node { self.now.node.0 < length self.now.topology.now.loopbacks }
        requires peers { AreNodes self.now.topology.now peers.now }
        requires nodes { mail.old.nodes ≡ length self.now.topology.now.loopbacks }
        requires reflectors { AreNodes self.now.topology.now self.now.reflectors.now }
        requires heard { AreKept self.now.topology.now heard.now }
        requires gone { AllByRecursion (IsPassable self.now.topology.now) gone.now }
        requires name { name.vrf.0 < length self.now.topology.now.vrfs }
        ensures told { (was row : Row) → Shows heard.now (key_in name) peer.0 (heard_at name.vrf.0 name.prefix gone.now) was → Shows heard.now (key_in name) peer.0 None row →
            OnOk result (mail.new ≡ posted (flat_map (λ (other : NodeNumber). change_letters self.now.topology.now self.now.node.0 other.0 (key_in name)
            (offered_of self.now.topology.now (numbers_of self.now.reflectors.now) was self.now.node.0 other.0 (key_in name))
            (offered_of self.now.topology.now (numbers_of self.now.reflectors.now) row self.now.node.0 other.0 (key_in name))) peers.now) mail.old) }
        ensures nodes { mail.new.nodes ≡ mail.old.nodes }
    {
        let before = Mentions {
            heard,
            vrf: name.vrf,
            prefix: name.prefix,
            peer,
            mention: gone.get(name.vrf, name.prefix),
        };
        let after = Mentions {
            mention: None,
            ..before
        };
        self.tell(mail, peers, &before, &after)
    }

    /// Tells these peers of all routes that a peer announced and that are forgotten.
    pub fn tell_gone(
        &self,
        mail: &mut Mail,
        peers: &[NodeNo],
        heard: &[Offers],
        peer: NodeNo,
        gone: &Offers,
    ) -> Result<(), AllocError>
        requires node { self.now.node.0 < length self.now.topology.now.loopbacks }
        requires peers { AreNodes self.now.topology.now peers.now }
        requires nodes { mail.old.nodes ≡ length self.now.topology.now.loopbacks }
        requires reflectors { AreNodes self.now.topology.now self.now.reflectors.now }
        requires heard { AreKept self.now.topology.now heard.now }
        requires gone { AllByRecursion (IsPassable self.now.topology.now) gone.now }
        requires forgotten { slice_index_or heard.now peer.0 [] ≡ [] }
        ensures told { OnOk result (mail.new ≡ posted (reflector_news self.now.topology.now (numbers_of self.now.reflectors.now) self.now.node.0 peers.now
            (row_with heard.now peer.0 gone.now) (row_in heard.now) (names_in gone.now)) mail.old) }
        ensures nodes { mail.new.nodes ≡ mail.old.nodes }
    {
        for offered in gone.iter() {
            let name = Name {
                vrf: offered.vrf(),
                prefix: offered.prefix(),
            };
            self.tell_lost(mail, peers, heard, peer, gone, name)?;
        }
        Ok(())
    }

    /// What an edge is to take of a route, by what reflectors announced of it, as the route's own edge would say it.
    pub fn decision(
        &self,
        heard: &[Offers],
        vrf: VrfNo,
        prefix: Prefix,
    ) -> Result<Update, AllocError>
        requires node { self.now.node.0 < length self.now.topology.now.loopbacks }
        requires reflectors { AreNodes self.now.topology.now self.now.reflectors.now }
        requires heard { AreKept self.now.topology.now heard.now }
        requires vrf { vrf.0 < length self.now.topology.now.vrfs }
        ensures says { IfOk result (λ update. update ≡ decision_says self.now.topology.now (named vrf prefix)
            (reflected_to (numbers_of self.now.reflectors.now) (row_in heard.now) self.now.node.0 (named vrf prefix))) }
        ensures labels { IfOk result (λ update. AreLabelled update.reached) }
    {
        let mentions = plain(heard, vrf, prefix, self.node);
        let bytes = match mentions.by_reflectors(self.node, self.reflectors) {
            Some(offered) => announcement(self.alloc, self.topology, offered)?,
            None => withdrawal(self.alloc, self.topology, vrf, prefix)?,
        };
        update_of(self.alloc, &bytes)
    }
}
