// Routes that come to VRFs, or go, as a target comes to a set or leaves it, and as a site gets a label or loses it.
ghost use Rattle.std.specs.Prelude.{◌≡◌, ◌<◌, ◌≤◌, ◌==◌, ◌&&◌, not, map, length, Some, OnOk, slice_index_or, slice_set};
ghost use Rattle.std.specs.List.{range_with_len};
ghost use Rattle.mn_pe.specs.Prelude.{Ascends, has_target, Holding};
ghost use Rattle.mn_pe.specs.Pe.{by_number, told};
ghost use Rattle.mn_pe.specs.Switched.{meet_else, meet_alone, import_alone, turned, turned_if, after_statics, after_vrfs, after_heard, after_all, at_vrf, importing, telling_statics, exporting, source_for, after_over, turning_over, attaching, IsBy};

use crate::changes::place_of;
use crate::hearing::far_source;
use crate::look::{label_at, loopback_at};
use mn_base::{NodeNo, Rt, SiteNo, VrfNo};
use mn_prefix::Prefix;
use mn_rib_in::RibIn;
use mn_targets::Targets;
use mn_vrf::{Routes, Source, Vrf};
use std::alloc::AllocError;

/// Whether one of the targets is imported that is another than this one.
fn meet_else(target: Rt, targets: &[Rt], imports: &Targets) -> bool
    ensures { result ≡ meet_else target targets.now imports.now }
{
    targets
        .iter()
        .any(|other| other.0 != target.0 && imports.has(*other))
}

/// Whether the target is one of these.
fn has_target(target: Rt, targets: &[Rt]) -> bool
    ensures { result ≡ has_target target targets.now }
{
    targets.iter().any(|other| other.0 == target.0)
}

/// Whether this one of the targets alone is imported, where it is.
fn meet_alone(target: Rt, targets: &[Rt], imports: &Targets) -> bool
    ensures { result ≡ meet_alone target targets.now imports.now }
{
    has_target(target, targets) && !meet_else(target, targets, imports)
}

/// A route comes into its place, or its place is left empty.
fn turn(held: &mut Routes, prefix: Prefix, source: Source, on: bool) -> Result<(), AllocError>
    ensures { OnOk result (held.new ≡ turned on (prefix, source) held.old) }
{
    if on {
        return held.offer(prefix, source);
    }
    held.retract(prefix, &source);
    Ok(())
}

/// The same, if its site has a label.
fn turn_if(
    held: &mut Routes,
    label: Option<u32>,
    prefix: Prefix,
    source: Source,
    on: bool,
) -> Result<(), AllocError>
    ensures { OnOk result (held.new ≡ turned_if on label (prefix, source) held.old) }
{
    match label {
        None => Ok(()),
        Some(_) => turn(held, prefix, source, on),
    }
}

/// Statics of another VRF.
fn turn_statics(
    held: &mut Routes,
    labels: &[Option<u32>],
    teller: &Vrf,
    on: bool,
) -> Result<(), AllocError>
    ensures { OnOk result (held.new ≡ after_statics on teller.now.vrf.number labels.now held.old teller.now.vrf.statics) }
{
    for route in teller.statics() {
        let site = route.site();
        turn_if(
            held,
            label_at(labels, site),
            route.prefix(),
            Source::Near(teller.number(), site),
            on,
        )?;
    }
    Ok(())
}

/// Those of the edge's other VRFs whose targets are imported by this one alone.
fn turn_near(
    held: &mut Routes,
    labels: &[Option<u32>],
    vrfs: &[Vrf],
    imports: &Targets,
    number: VrfNo,
    target: Rt,
    on: bool,
) -> Result<(), AllocError>
    ensures { OnOk result (held.new ≡ after_vrfs on target labels.now number.0 imports.now held.old (map (λ (holding : Holding). holding.vrf) vrfs.now)) }
{
    for vrf in vrfs {
        if vrf.number().0 != number.0 && meet_alone(target, vrf.exports().as_slice(), imports) {
            turn_statics(held, labels, vrf, on)?;
        }
    }
    Ok(())
}

/// Those received from a peer.
fn turn_far(
    held: &mut Routes,
    loopback: u32,
    peer: NodeNo,
    imports: &Targets,
    heard: &RibIn,
    target: Rt,
    on: bool,
) -> Result<(), AllocError>
    ensures { OnOk result (held.new ≡ after_heard on target loopback peer.0 imports.now held.old heard.now) }
{
    for route in heard.iter() {
        if meet_alone(target, route.targets(), imports) {
            let source = far_source(loopback, peer, route.rd(), route.label());
            turn(held, route.prefix(), source, on)?;
        }
    }
    Ok(())
}

/// Those received from all peers.
fn turn_heard(
    held: &mut Routes,
    loopbacks: &[u32],
    imports: &Targets,
    heard: &[RibIn],
    target: Rt,
    on: bool,
) -> Result<(), AllocError>
    requires { length heard.now ≤ 65536 }
    ensures { OnOk result (held.new ≡ after_all on target loopbacks.now heard.now imports.now held.old (range_with_len 0 (length heard.now))) }
{
    for at in 0..heard.len() {
        let peer = NodeNo(at as u16);
        let loopback = loopback_at(loopbacks, peer);
        turn_far(held, loopback, peer, imports, &heard[at], target, on)?;
    }
    Ok(())
}

/// The VRF at a place holds what it imports more by this target, or no longer what it imported by it alone.
fn import_at(
    vrfs: &mut Vec<Vrf>,
    labels: &[Option<u32>],
    loopbacks: &[u32],
    heard: &[RibIn],
    at: usize,
    target: Rt,
    on: bool,
) -> Result<(), AllocError>
    requires there { at < length vrfs.old.items }
    requires few { length heard.now ≤ 65536 }
    ensures { OnOk result ((d : Holding) → vrfs.new.items ≡ slice_set vrfs.old.items at (importing on target labels.now loopbacks.now heard.now (told vrfs.old.items) (slice_index_or vrfs.old.items at d))) }
{
    let mut held = vrfs[at].take_held();
    let number = vrfs[at].number();
    turn_near(
        &mut held,
        labels,
        vrfs,
        vrfs[at].imports(),
        number,
        target,
        on,
    )?;
    turn_heard(&mut held, loopbacks, vrfs[at].imports(), heard, target, on)?;
    vrfs[at].hold(held);
    Ok(())
}

/// The same of the VRF of a number, whose import set has changed.
pub(crate) fn switch_import(
    vrfs: &mut Vec<Vrf>,
    labels: &[Option<u32>],
    loopbacks: &[u32],
    heard: &[RibIn],
    number: VrfNo,
    target: Rt,
    on: bool,
) -> Result<(), AllocError>
    requires few { length heard.now ≤ 65536 }
    requires order { Ascends by_number (told vrfs.old.items) }
    ensures { OnOk result (vrfs.new.items ≡ map (at_vrf number.0 (importing on target labels.now loopbacks.now heard.now (told vrfs.old.items))) vrfs.old.items) }
{
    match place_of(vrfs, number) {
        None => Ok(()),
        Some(at) => import_at(vrfs, labels, loopbacks, heard, at, target, on),
    }
}

/// Whether routes with this target are imported by it alone.
fn import_alone(target: Rt, targets: &[Rt], imports: &Targets) -> bool
    ensures { result ≡ import_alone target targets.now imports.now }
{
    imports.has(target) && !meet_else(target, targets, imports)
}

/// Whether a VRF imports what another exports by this target alone.
fn is_told(vrf: &Vrf, teller: &Vrf, target: Rt) -> bool
    ensures { result ≡ (not (vrf.now.vrf.number == teller.now.vrf.number) && import_alone target teller.now.vrf.exports vrf.now.vrf.imports) }
{
    vrf.number().0 != teller.number().0
        && import_alone(target, teller.exports().as_slice(), vrf.imports())
}

/// The statics of the one VRF come to the other, or go.
fn tell(
    vrfs: &mut Vec<Vrf>,
    labels: &[Option<u32>],
    at: usize,
    to: usize,
    on: bool,
) -> Result<(), AllocError>
    requires there { at < length vrfs.old.items }
    requires here { to < length vrfs.old.items }
    ensures { OnOk result ((d : Holding) → vrfs.new.items ≡ slice_set vrfs.old.items to (telling_statics on labels.now (slice_index_or vrfs.old.items at d).vrf (slice_index_or vrfs.old.items to d))) }
{
    let mut held = vrfs[to].take_held();
    turn_statics(&mut held, labels, &vrfs[at], on)?;
    vrfs[to].hold(held);
    Ok(())
}

/// The same, if that one imports them by this target alone.
fn tell_if(
    vrfs: &mut Vec<Vrf>,
    labels: &[Option<u32>],
    at: usize,
    to: usize,
    target: Rt,
    on: bool,
) -> Result<(), AllocError>
    requires there { at < length vrfs.old.items }
    requires here { to < length vrfs.old.items }
    ensures { OnOk result ((d : Holding) → vrfs.new.items ≡ slice_set vrfs.old.items to (exporting on target labels.now (slice_index_or vrfs.old.items at d).vrf (slice_index_or vrfs.old.items to d))) }
{
    if !is_told(&vrfs[to], &vrfs[at], target) {
        return Ok(());
    }
    tell(vrfs, labels, at, to, on)
}

/// Each VRF holds what the VRF at a place exports more by this target, or no longer what it imported of that by it alone.
fn export_at(
    vrfs: &mut Vec<Vrf>,
    labels: &[Option<u32>],
    at: usize,
    target: Rt,
    on: bool,
) -> Result<(), AllocError>
    requires there { at < length vrfs.old.items }
    ensures { OnOk result ((d : Holding) → vrfs.new.items ≡ map (exporting on target labels.now (slice_index_or vrfs.old.items at d).vrf) vrfs.old.items) }
{
    for to in 0..vrfs.len() {
        tell_if(vrfs, labels, at, to, target, on)?;
    }
    Ok(())
}

/// The same of the VRF of a number, whose export set has changed.
pub(crate) fn switch_export(
    vrfs: &mut Vec<Vrf>,
    labels: &[Option<u32>],
    number: VrfNo,
    target: Rt,
    on: bool,
) -> Result<(), AllocError>
    ensures { OnOk result (IsBy number.0 (exporting on target labels.now) vrfs.old.items vrfs.new.items) }
{
    match place_of(vrfs, number) {
        None => Ok(()),
        Some(at) => export_at(vrfs, labels, at, target, on),
    }
}

/// Where a VRF holds a site's routes from, which are of the other VRF: its own, or another's whose targets it imports.
fn source_for(vrf: &Vrf, teller: &Vrf, site: SiteNo) -> Option<Source>
    ensures { result ≡ source_for vrf.now.vrf teller.now.vrf site.0 }
{
    if vrf.number().0 == teller.number().0 {
        return Some(Source::Own(site));
    }
    if vrf.imports().meets(teller.exports().as_slice()) {
        return Some(Source::Near(teller.number(), site));
    }
    None
}

/// Statics of a VRF over a site.
fn turn_over(
    held: &mut Routes,
    teller: &Vrf,
    site: SiteNo,
    source: Source,
    on: bool,
) -> Result<(), AllocError>
    ensures { OnOk result (held.new ≡ after_over on site.0 source held.old teller.now.vrf.statics) }
{
    for route in teller.statics() {
        if route.site().0 == site.0 {
            turn(held, route.prefix(), source, on)?;
        }
    }
    Ok(())
}

/// The statics of the one VRF over the site come to the other, or go.
fn attach_from(
    vrfs: &mut Vec<Vrf>,
    at: usize,
    to: usize,
    site: SiteNo,
    source: Source,
    on: bool,
) -> Result<(), AllocError>
    requires there { at < length vrfs.old.items }
    requires here { to < length vrfs.old.items }
    ensures { OnOk result ((d : Holding) → vrfs.new.items ≡ slice_set vrfs.old.items to (turning_over on site.0 (slice_index_or vrfs.old.items at d).vrf (Some source) (slice_index_or vrfs.old.items to d))) }
{
    let mut held = vrfs[to].take_held();
    turn_over(&mut held, &vrfs[at], site, source, on)?;
    vrfs[to].hold(held);
    Ok(())
}

/// The same, if it is to hold them.
fn attach_to(
    vrfs: &mut Vec<Vrf>,
    at: usize,
    to: usize,
    site: SiteNo,
    on: bool,
) -> Result<(), AllocError>
    requires there { at < length vrfs.old.items }
    requires here { to < length vrfs.old.items }
    ensures { OnOk result ((d : Holding) → vrfs.new.items ≡ slice_set vrfs.old.items to (attaching on site.0 (slice_index_or vrfs.old.items at d).vrf (slice_index_or vrfs.old.items to d))) }
{
    match source_for(&vrfs[to], &vrfs[at], site) {
        None => Ok(()),
        Some(source) => attach_from(vrfs, at, to, site, source, on),
    }
}

/// Each VRF holds the statics over a site of the VRF at a place, or no longer.
fn attach_at(vrfs: &mut Vec<Vrf>, at: usize, site: SiteNo, on: bool) -> Result<(), AllocError>
    requires there { at < length vrfs.old.items }
    ensures { OnOk result ((d : Holding) → vrfs.new.items ≡ map (attaching on site.0 (slice_index_or vrfs.old.items at d).vrf) vrfs.old.items) }
{
    for to in 0..vrfs.len() {
        attach_to(vrfs, at, to, site, on)?;
    }
    Ok(())
}

/// The same of the VRF of a number, whose site has got a label or lost it.
pub(crate) fn switch_site(
    vrfs: &mut Vec<Vrf>,
    number: VrfNo,
    site: SiteNo,
    on: bool,
) -> Result<(), AllocError>
    ensures { OnOk result (IsBy number.0 (attaching on site.0) vrfs.old.items vrfs.new.items) }
{
    match place_of(vrfs, number) {
        None => Ok(()),
        Some(at) => attach_at(vrfs, at, site, on),
    }
}
