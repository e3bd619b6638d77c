//! The causes for which a step is refused, one by one.
ghost use Rattle.std.specs.Prelude.{◌≡◌, ◌<◌, ◌≤◌, ◌+◌, ◌*◌, ℕ, true, length, nat_le, unwrap_or, Some};
ghost use Rattle.mn_ledger.specs.Prelude.{most_targets, fits, agree, takes_out};
ghost use Rattle.mn_net.specs.Prelude.{Moving, Routed, Carried, VrfState, of_vrf, is_so, has_nothing, of_static, has_all_targets, has_given_all, has_no_room, has_too_much};
ghost use Rattle.mn_net_laws.specs.Tallies.{Tally as Counts};
ghost use Rattle.mn_net.specs.Parts.{HaveSizes, HaveFecs, shown, targets_of, asked_in, packed_of, seen_in};

use crate::vrfs::{has_target, is_attached, site_with, targets_of};
use mn_base::{LinkNo, MOST_FLYING_BYTES, MOST_IN_FLIGHT, MOST_STATIC_ROUTES, MOST_TARGETS, VrfNo};
use mn_flight::Flight;
use mn_ledger::Refused;
use mn_net_tally::Tally;
use mn_routing::Routes;
use mn_topo::{Step, Topology};
use mn_transit::Transit;
use mn_transport::Transport;
use mn_wiring::channel_of;

/// It is as it is to be.
fn agree(on: bool, is: bool) -> bool
    ensures { result ≡ agree on is }
{
    if on { is } else { !is }
}

/// The link, LDP switch, session, target or attachment is already so.
pub(crate) fn is_so(
    topology: &Topology,
    transport: &Transport,
    routes: &Routes,
    step: &Step,
) -> bool
    requires sizes { HaveSizes topology.now transport.now routes.now }
    requires fits { fits topology.now step.now ≡ true }
    ensures { (moving : Moving) (tally : Counts) (made : ℕ) (steps : ℕ) → result ≡ is_so topology.now (seen_in transport.now routes.now moving tally made steps) step.now }
{
    topology.laws();
    match *step {
        Step::LinkUp(link) => transport.is_link_up(link),
        Step::LinkDown(link) => !transport.is_link_up(link),
        Step::LdpAdmin(link, on) => agree(on, transport.ldp_on(link)),
        Step::BgpUp(a, b) => routes.lives(a, b),
        Step::BgpDown(a, b) => !routes.lives(a, b),
        Step::Import(vrf, on, target) => agree(
            on,
            has_target(topology, routes, vrf, false, target),
        ),
        Step::Export(vrf, on, target) => agree(on, has_target(topology, routes, vrf, true, target)),
        Step::Attach(site) => is_attached(topology, routes, site),
        Step::Detach(site) => !is_attached(topology, routes, site),
        Step::Learn(_, _)
        | Step::HearLdp(_, _)
        | Step::HearBgp(_, _)
        | Step::AddRoute(_, _)
        | Step::DelRoute(_, _)
        | Step::Inject(_, _)
        | Step::Carry(_, _, _)
        | Step::Lose(_, _, _)
        | Step::Tick(_) => false,
    }
}

/// The channel of a pair of numbers, of so many.
fn pair(one: u16, of: usize, other: u16) -> u32
    requires { of ≤ 256 }
    ensures { result ≡ one * of + other }
{
    u32::from(one) * of as u32 + u32::from(other)
}

/// Nothing flies on the channel, or no frame at the place.
pub(crate) fn has_nothing(
    topology: &Topology,
    transport: &Transport,
    routes: &Routes,
    transit: &Transit,
    step: &Step,
) -> bool
    ensures { (made : ℕ) → result ≡ has_nothing topology.now (packed_of transport.now routes.now transit.now made) step.now }
{
    topology.laws();
    let nodes = topology.nodes().len();
    match *step {
        Step::Learn(node, link) => transport.notices().count(pair(link.0, nodes, node.0)) == 0,
        Step::HearLdp(link, dir) => transport.messages().count(channel_of(link, dir)) == 0,
        Step::HearBgp(a, b) => routes.messages().count(pair(a.0, nodes, b.0)) == 0,
        Step::Carry(link, dir, place) => transit.flying(link, dir) <= u64::from(place),
        Step::Lose(link, dir, place) => transit.flying(link, dir) <= u64::from(place),
        Step::LinkUp(_)
        | Step::LinkDown(_)
        | Step::LdpAdmin(_, _)
        | Step::BgpUp(_, _)
        | Step::BgpDown(_, _)
        | Step::AddRoute(_, _)
        | Step::DelRoute(_, _)
        | Step::Import(_, _, _)
        | Step::Export(_, _, _)
        | Step::Attach(_)
        | Step::Detach(_)
        | Step::Inject(_, _)
        | Step::Tick(_) => false,
    }
}

/// A prefix that the VRF has, or one too many; or one that it hasn't over the site.
pub(crate) fn of_static(
    topology: &Topology,
    routes: &Routes,
    tally: &Tally,
    step: &Step,
) -> Option<Refused>
    requires edges { length routes.now.edges ≡ length topology.now.loopbacks }
    requires fits { fits topology.now step.now ≡ true }
    ensures { (transport : Carried) (moving : Moving) (made : ℕ) (steps : ℕ) → result ≡ of_static topology.now (seen_in transport routes.now moving tally.now made steps) step.now }
{
    match *step {
        Step::AddRoute(site, prefix) => {
            if let Some(site) = site_with(topology, routes, topology.vrf_of(site), prefix) {
                return Some(Refused::PrefixTaken { site });
            }
            if tally.statics() >= MOST_STATIC_ROUTES {
                return Some(Refused::RoutesFull);
            }
            None
        }
        Step::DelRoute(site, prefix) => {
            if let Some(there) = site_with(topology, routes, topology.vrf_of(site), prefix) {
                if there.0 == site.0 {
                    return None;
                }
            }
            Some(Refused::NoRouteThere)
        }
        _ => None,
    }
}

/// A VRF exports 16 targets, or imports so many.
fn holds_all(topology: &Topology, routes: &Routes, vrf: VrfNo, exported: bool) -> bool
    requires edges { length routes.now.edges ≡ length topology.now.loopbacks }
    requires there { vrf.0 < length topology.now.vrfs }
    ensures { result ≡ nat_le most_targets (unwrap_or (of_vrf topology.now (shown routes.now) vrf.0 (λ (state : VrfState). Some (length (targets_of exported state)))) 0) }
{
    match targets_of(topology, routes, vrf, exported) {
        Some(targets) => targets.as_slice().len() >= MOST_TARGETS,
        None => false,
    }
}

/// The set has 16 targets.
pub(crate) fn has_all_targets(topology: &Topology, routes: &Routes, step: &Step) -> bool
    requires edges { length routes.now.edges ≡ length topology.now.loopbacks }
    requires fits { fits topology.now step.now ≡ true }
    ensures { result ≡ has_all_targets topology.now (shown routes.now) step.now }
{
    match *step {
        Step::Import(vrf, on, _) => {
            if on {
                return holds_all(topology, routes, vrf, false);
            }
            false
        }
        Step::Export(vrf, on, _) => {
            if on {
                return holds_all(topology, routes, vrf, true);
            }
            false
        }
        _ => false,
    }
}

/// No label is left at the site's node.
pub(crate) fn has_given_all(topology: &Topology, transport: &Transport, step: &Step) -> bool
    requires nodes { length transport.now.nodes ≡ length topology.now.loopbacks }
    requires fecs { HaveFecs topology.now transport.now }
    requires fits { fits topology.now step.now ≡ true }
    ensures { result ≡ has_given_all topology.now (asked_in transport.now) step.now }
{
    match *step {
        Step::Attach(site) => {
            let node = topology.home_of(site);
            transport.node(node).labels().next().is_none()
        }
        _ => false,
    }
}

/// The step takes something out of flight, or lets time go by.
fn takes_out(step: &Step) -> bool
    ensures { result ≡ takes_out step.now }
{
    match *step {
        Step::Learn(_, _)
        | Step::HearLdp(_, _)
        | Step::HearBgp(_, _)
        | Step::Carry(_, _, _)
        | Step::Lose(_, _, _)
        | Step::Tick(_) => true,
        _ => false,
    }
}

/// Too many bytes would fly with this packet.
fn has_no_room(transit: &Transit, step: &Step, packet: &[u8]) -> bool
    ensures { (transport : Carried) (routes : Routed) (made : ℕ) → result ≡ has_no_room (packed_of transport routes transit.now made) step.now packet.now }
{
    match *step {
        Step::Inject(_, _) => transit.flying_bytes().saturating_add(packet.len() as u64)
            > MOST_FLYING_BYTES,
        _ => false,
    }
}

/// Too much news is in flight, or too many bytes with this packet.
pub(crate) fn has_too_much(
    transport: &Transport,
    routes: &Routes,
    transit: &Transit,
    step: &Step,
    packet: &[u8],
) -> bool
    ensures { (made : ℕ) → result ≡ has_too_much (packed_of transport.now routes.now transit.now made) step.now packet.now }
{
    let messages = transport
        .messages()
        .len()
        .saturating_add(routes.messages().len());
    let news = transport.notices().len().saturating_add(messages);
    if !takes_out(step) {
        if news >= MOST_IN_FLIGHT {
            return true;
        }
    }
    has_no_room(transit, step, packet)
}
