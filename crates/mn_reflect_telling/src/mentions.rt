//! What a node's peers last sent of a route.
use mn_base::{NodeNo, VrfNo};
use mn_offers::{Offered, Offers};
use mn_prefix::Prefix;

/// What a node's peers last sent of a route, where one of them says this.
#[derive(Clone, Copy)]
pub(crate) struct Mentions<'h> {
    /// What the node has received, by peer.
    pub(crate) heard: &'h [Offers],
    pub(crate) vrf: VrfNo,
    pub(crate) prefix: Prefix,
    pub(crate) peer: NodeNo,
    pub(crate) mention: Option<&'h Offered>,
}

ghost use Rattle.std.specs.Prelude.{◌≡◌, ◌<◌, length, option_map};
ghost use Rattle.std.specs.List.{AllByRecursion};
ghost use Rattle.mn_base.specs.declared.numbers.NodeNo.{NodeNo as NodeNumber};
ghost use Rattle.mn_ledger.specs.Prelude.{Network, edge_of};
ghost use Rattle.mn_reflect_world_laws.specs.Choice.{Row, kept_of, reflected_to, picked_by};
ghost use Rattle.mn_reflect_telling.specs.Mentions.{numbers_of, ShowsIn, AreOf, AreKept, row_in};
ghost use Rattle.mn_reflect_telling.specs.Names.{named};
ghost use Rattle.mn_reflect_telling.specs.Passing.{IfPassable};

impl<'h> Mentions<'h> {
    /// What a peer announced. None where its last mention is no announcement.
    pub(crate) fn by(&self, peer: NodeNo) -> Option<&'h Offered>
        requires { peer.0 < length self.now.heard.now }
        ensures said { (row : Row) → ShowsIn self.now row → option_map (λ offered. offered.now) result ≡ kept_of row (named self.now.vrf self.now.prefix) peer.0 }
        ensures passable { (topology : Network) → AreOf topology self.now → IfPassable topology (option_map (λ offered. offered.now) result) }
    {
        if peer.0 == self.peer.0 {
            return self.mention;
        }
        let heard = self.heard;
        heard[usize::from(peer.0)].get(self.vrf, self.prefix)
    }

    /// What the first of these reflectors announced that isn't the node itself and announced it.
    pub(crate) fn by_reflectors(&self, node: NodeNo, reflectors: &[NodeNo]) -> Option<&'h Offered>
        requires { AllByRecursion (λ (reflector : NodeNumber). reflector.0 < length self.now.heard.now) reflectors.now }
        ensures said { (row : Row) → ShowsIn self.now row →
            option_map (λ offered. offered.now) result ≡ reflected_to (numbers_of reflectors.now) row node.0 (named self.now.vrf self.now.prefix) }
        ensures passable { (topology : Network) → AreOf topology self.now → IfPassable topology (option_map (λ offered. offered.now) result) }
    {
        for reflector in reflectors {
            if reflector.0 != node.0 {
                if let Some(offered) = self.by(*reflector) {
                    return Some(offered);
                }
            }
        }
        None
    }

    /// What a reflector picks of it: what the route's own edge announced, or else the first of the reflectors.
    pub(crate) fn pick(
        &self,
        node: NodeNo,
        home: NodeNo,
        reflectors: &[NodeNo],
    ) -> Option<&'h Offered>
        requires home { home.0 < length self.now.heard.now }
        requires reflectors { AllByRecursion (λ (reflector : NodeNumber). reflector.0 < length self.now.heard.now) reflectors.now }
        ensures said { (topology : Network) (row : Row) → home.0 ≡ edge_of topology self.now.vrf.0 → ShowsIn self.now row →
            option_map (λ offered. offered.now) result ≡ picked_by topology (numbers_of reflectors.now) row node.0 (named self.now.vrf self.now.prefix) }
        ensures passable { (topology : Network) → AreOf topology self.now → IfPassable topology (option_map (λ offered. offered.now) result) }
    {
        match self.by(home) {
            Some(offered) => Some(offered),
            None => self.by_reflectors(node, reflectors),
        }
    }
}

/// What a node's peers last sent of a route.
pub(crate) fn plain<'h>(
    heard: &'h [Offers],
    vrf: VrfNo,
    prefix: Prefix,
    node: NodeNo,
) -> Mentions<'h>
    requires { node.0 < length heard.now }
    ensures row { ShowsIn result (row_in heard.now) }
    ensures passable { (topology : Network) → AreKept topology heard.now → vrf.0 < length topology.vrfs → AreOf topology result }
    ensures vrf { result.vrf ≡ vrf }
    ensures prefix { result.prefix ≡ prefix }
{
    Mentions {
        heard,
        vrf,
        prefix,
        peer: node,
        mention: heard[usize::from(node.0)].get(vrf, prefix),
    }
}
