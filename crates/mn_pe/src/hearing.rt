// What a peer advertised, taken into the VRFs or out of them.
ghost use Rattle.std.specs.Prelude.{◌≡◌, ◌<◌, ◌^◌, map, take, drop, ◌++◌, length, OnOk};
ghost use Rattle.mn_pe.specs.Edge.{after_withdrawn, after_reached};
ghost use Rattle.mn_pe.specs.Held.{far_over};
ghost use Rattle.mn_rib_in.specs.Heard.{with_heard, without_heard};
ghost use Rattle.mn_pe.specs.Pe.{AreOfEdge, AreLabelled, taking, offering, giving, far_route, after_giving, after_taking, after_forgetting};

use mn_base::{NodeNo, Rd, Rt};
use mn_prefix::Prefix;
use mn_rib_in::RibIn;
use mn_vpn_nlri::VpnRoute;
use mn_vrf::{Source, Vrf};
use std::alloc::AllocError;

/// Where a peer's route comes from.
pub(crate) fn far_source(loopback: u32, peer: NodeNo, rd: Rd, label: u32) -> Source
    ensures { result ≡ far_over loopback rd.0 peer.0 label }
{
    Source::Far {
        loopback,
        rd,
        edge: peer,
        label,
    }
}

/// A VRF holds a route of these targets if it imports one of them, and else nothing in its place.
fn take_route(
    vrf: &mut Vrf,
    prefix: Prefix,
    source: Source,
    targets: &[Rt],
) -> Result<(), AllocError>
    ensures ok { OnOk result (vrf.new ≡ taking (prefix, source) targets.now vrf.old) }
{
    if vrf.imports().meets(targets) {
        return vrf.replace(prefix, source);
    }
    vrf.withdraw(prefix, &source);
    Ok(())
}

/// A VRF holds a route of these targets if it imports one of them. It holds nothing in its place before.
fn offer_route(
    vrf: &mut Vrf,
    prefix: Prefix,
    source: Source,
    targets: &[Rt],
) -> Result<(), AllocError>
    ensures ok { OnOk result (vrf.new ≡ offering (prefix, source) targets.now vrf.old) }
{
    if vrf.imports().meets(targets) {
        return vrf.replace(prefix, source);
    }
    Ok(())
}

/// Each VRF takes a route in whose place none holds anything.
fn offer_in_all(
    vrfs: &mut Vec<Vrf>,
    prefix: Prefix,
    source: Source,
    targets: &[Rt],
) -> Result<(), AllocError>
    ensures ok { OnOk result (vrfs.new.items ≡ map (offering (prefix, source) targets.now) vrfs.old.items) }
{
    for at in 0..vrfs.len() {
        offer_route(&mut vrfs[at], prefix, source, targets)?;
    }
    Ok(())
}

/// Each VRF takes a route.
fn take_in_all(
    vrfs: &mut Vec<Vrf>,
    prefix: Prefix,
    source: Source,
    targets: &[Rt],
) -> Result<(), AllocError>
    ensures ok { OnOk result (vrfs.new.items ≡ map (taking (prefix, source) targets.now) vrfs.old.items) }
{
    for at in 0..vrfs.len() {
        take_route(&mut vrfs[at], prefix, source, targets)?;
    }
    Ok(())
}

/// Each VRF gives a route up.
fn give_in_all(vrfs: &mut Vec<Vrf>, prefix: Prefix, source: Source)
    ensures { vrfs.new.items ≡ map (giving (prefix, source)) vrfs.old.items }
{
    for at in 0..vrfs.len() {
        vrfs[at].withdraw(prefix, &source);
    }
}

/// A peer's route is withdrawn. If it wasn't received, no VRF holds it.
fn hear_one_withdrawn(
    vrfs: &mut Vec<Vrf>,
    heard: &mut RibIn,
    peer: NodeNo,
    loopback: u32,
    route: &VpnRoute,
)
    requires { AreOfEdge vrfs.old.items heard.old loopback peer.0 }
    ensures heard { heard.new ≡ without_heard route.now.rd route.now.prefix heard.old }
    ensures vrfs { vrfs.new.items ≡ map (giving (far_route loopback peer.0 route.now.rd route.now.prefix 0)) vrfs.old.items }
    ensures edge { AreOfEdge vrfs.new.items heard.new loopback peer.0 }
{
    if heard.remove(route.rd, route.prefix) {
        give_in_all(vrfs, route.prefix, far_source(loopback, peer, route.rd, 0));
    }
}

/// A peer's routes are withdrawn.
pub(crate) fn hear_withdrawn(
    vrfs: &mut Vec<Vrf>,
    heard: &mut RibIn,
    peer: NodeNo,
    loopback: u32,
    routes: &[VpnRoute],
)
    requires { AreOfEdge vrfs.old.items heard.old loopback peer.0 }
    ensures heard { heard.new ≡ after_withdrawn heard.old routes.now }
    ensures vrfs { vrfs.new.items ≡ after_giving loopback peer.0 vrfs.old.items routes.now }
    ensures edge { AreOfEdge vrfs.new.items heard.new loopback peer.0 }
{
    for route in routes {
        hear_one_withdrawn(vrfs, heard, peer, loopback, route);
    }
}

/// A peer's route is announced. If it wasn't received before, no VRF holds anything in its place.
fn hear_one_reached(
    vrfs: &mut Vec<Vrf>,
    heard: &mut RibIn,
    peer: NodeNo,
    loopback: u32,
    route: &VpnRoute,
    targets: &[Rt],
) -> Result<(), AllocError>
    requires edge { AreOfEdge vrfs.old.items heard.old loopback peer.0 }
    requires label { route.now.label < 2 ^ 20 }
    ensures heard { OnOk result (heard.new ≡ with_heard (record { rd = route.now.rd; prefix = route.now.prefix; label = route.now.label; targets = targets.now }) heard.old) }
    ensures vrfs { OnOk result (vrfs.new.items ≡ map (taking (far_route loopback peer.0 route.now.rd route.now.prefix route.now.label) targets.now) vrfs.old.items) }
    ensures edge { OnOk result (AreOfEdge vrfs.new.items heard.new loopback peer.0) }
{
    let source = far_source(loopback, peer, route.rd, route.label);
    if heard.has(route.rd, route.prefix) {
        take_in_all(vrfs, route.prefix, source, targets)?;
    } else {
        offer_in_all(vrfs, route.prefix, source, targets)?;
    }
    heard.set(route.rd, route.prefix, route.label, targets)
}

/// A peer's routes are announced.
pub(crate) fn hear_reached(
    vrfs: &mut Vec<Vrf>,
    heard: &mut RibIn,
    peer: NodeNo,
    loopback: u32,
    routes: &[VpnRoute],
    targets: &[Rt],
) -> Result<(), AllocError>
    requires edge { AreOfEdge vrfs.old.items heard.old loopback peer.0 }
    requires labels { AreLabelled routes.now }
    ensures heard { OnOk result (heard.new ≡ after_reached targets.now heard.old routes.now) }
    ensures vrfs { OnOk result (vrfs.new.items ≡ after_taking loopback peer.0 targets.now vrfs.old.items routes.now) }
{
    for route in routes {
        hear_one_reached(vrfs, heard, peer, loopback, route, targets)?;
    }
    Ok(())
}

/// VRFs hold none of a peer's routes.
pub(crate) fn forget_in_all(vrfs: &mut Vec<Vrf>, heard: &RibIn, peer: NodeNo, loopback: u32)
    ensures { vrfs.new.items ≡ after_forgetting loopback peer.0 vrfs.old.items heard.now }
{
    for route in heard.iter() {
        give_in_all(
            vrfs,
            route.prefix(),
            far_source(loopback, peer, route.rd(), 0),
        );
    }
}
