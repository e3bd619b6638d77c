//! The steps of BGP, and of routes and targets.
ghost use Rattle.std.specs.Prelude.{◌≡◌, ◌<◌, ◌≤◌, ◌^◌, [], true, false, IfOk, OnOk, OnErr};
ghost use Rattle.std.specs.List.{All};
ghost use Rattle.mn_routing_laws.specs.Steps.{MayDo, Did};
ghost use Rattle.mn_net.specs.Prelude.{MayBeDone, IsDone, HasFailed};
ghost use Rattle.mn_net.specs.Turns.{route_step};

use crate::doing::do_step;
use crate::net::Net;
use crate::turns::RouteTurn;
use mn_flight::Clock;
use mn_net_tally::count_static;
use mn_routing::Routes;
use mn_topo::Topology;
use std::alloc::AllocError;

/// The routes do their part of a step that the transport has none in. It answers how many messages that made.
fn act(
    routes: &mut Routes,
    topology: &Topology,
    turn: &RouteTurn,
    clock: Clock,
) -> Result<u64, AllocError>
    requires tick { clock.tick ≤ 2 ^ 63 }
    requires numbers { clock.number ≤ 2 ^ 62 }
    requires messages { All (λ item. item.number < clock.number) routes.old.messages }
    requires may { MayDo topology.now (route_step turn.now) routes.old }
    ensures did { IfOk result (λ made. Did topology.now clock.tick clock.number (route_step turn.now) routes.old routes.new made) }
{
    match *turn {
        RouteTurn::BgpUp(a, b) => routes.bgp_up(topology, a, b, clock),
        RouteTurn::BgpDown(a, b) => routes.bgp_down(topology, a, b, clock),
        RouteTurn::HearBgp(a, b) => routes.hear_bgp(topology, a, b, clock),
        RouteTurn::AddRoute(site, prefix) => routes.add_route(topology, site, prefix, clock),
        RouteTurn::DelRoute(site, prefix) => routes.del_route(topology, site, prefix, clock),
        RouteTurn::Import(vrf, on, target) => routes.import(topology, vrf, target, on, clock),
        RouteTurn::Export(vrf, on, target) => routes.export(topology, vrf, target, on, clock),
    }
}

impl Net {
    /// A step of BGP, routes or targets.
    pub(crate) fn turn_route(&mut self, turn: RouteTurn) -> Result<(), AllocError>
        requires may { MayBeDone self.old (route_step turn) [] }
        ensures done { OnOk result (IsDone self.old self.new (route_step turn) []) }
        ensures failed { OnErr result (HasFailed self.old self.new) }
    {
        let step = turn.step();
        do_step!(self, clock, step => {
            let more = act(&mut self.routes, &self.topology, &turn, clock)?;
            self.transit.begin();
            count_static(&mut self.tally, &step);
            more
        });
        Ok(())
    }
}
