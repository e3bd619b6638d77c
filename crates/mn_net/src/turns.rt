//! The steps of the transport alone, and those of the routes alone.
ghost use Rattle.std.specs.Prelude.{◌≡◌};
ghost use Rattle.mn_net.specs.Turns.{link_step, route_step};

use mn_base::{LinkNo, NodeNo, Rt, SiteNo, VrfNo};
use mn_prefix::Prefix;
use mn_topo::Step;
use mn_wiring::Dir;

/// A step of links or LDP that cuts no link off.
#[derive(Clone, Copy)]
pub(crate) enum LinkTurn {
    Up(LinkNo),
    Learn(NodeNo, LinkNo),
    LdpAdmin(LinkNo, bool),
    HearLdp(LinkNo, Dir),
}

impl LinkTurn {
    pub(crate) fn step(&self) -> Step
        ensures { result ≡ link_step self.now }
    {
        match *self {
            LinkTurn::Up(link) => Step::LinkUp(link),
            LinkTurn::Learn(node, link) => Step::Learn(node, link),
            LinkTurn::LdpAdmin(link, on) => Step::LdpAdmin(link, on),
            LinkTurn::HearLdp(link, dir) => Step::HearLdp(link, dir),
        }
    }
}

/// A step of BGP, routes or targets.
#[derive(Clone, Copy)]
pub(crate) enum RouteTurn {
    BgpUp(NodeNo, NodeNo),
    BgpDown(NodeNo, NodeNo),
    HearBgp(NodeNo, NodeNo),
    AddRoute(SiteNo, Prefix),
    DelRoute(SiteNo, Prefix),
    Import(VrfNo, bool, Rt),
    Export(VrfNo, bool, Rt),
}

impl RouteTurn {
    pub(crate) fn step(&self) -> Step
        ensures { result ≡ route_step self.now }
    {
        match *self {
            RouteTurn::BgpUp(a, b) => Step::BgpUp(a, b),
            RouteTurn::BgpDown(a, b) => Step::BgpDown(a, b),
            RouteTurn::HearBgp(a, b) => Step::HearBgp(a, b),
            RouteTurn::AddRoute(site, prefix) => Step::AddRoute(site, prefix),
            RouteTurn::DelRoute(site, prefix) => Step::DelRoute(site, prefix),
            RouteTurn::Import(vrf, on, target) => Step::Import(vrf, on, target),
            RouteTurn::Export(vrf, on, target) => Step::Export(vrf, on, target),
        }
    }
}
