// A static that comes to the VRFs that are to hold it, or goes.
ghost use Rattle.std.specs.Prelude.{◌≡◌, ◌<◌, [], ◌∷◌, map, length, OnOk, None, slice_index_or};
ghost use Rattle.mn_vrf.specs.Vrf.{Holding};
ghost use Rattle.mn_pe.specs.Changes.{change_of, with_changes, spread_by, spread_over, present_of, spreading, IsSpread};

use crate::changes::place_of;
use crate::look::label_at;
use mn_base::VrfNo;
use mn_prefix::Prefix;
use mn_vrf::{Source, StaticRoute, Vrf};
use std::alloc::AllocError;

/// A VRF holds a route, or nothing in its place.
fn hold_or_not(vrf: &mut Vrf, prefix: Prefix, source: Source, on: bool) -> Result<(), AllocError>
    ensures ok { OnOk result (vrf.new ≡ with_changes (change_of on (prefix, source) ∷ []) vrf.old) }
{
    if on {
        return vrf.replace(prefix, source);
    }
    vrf.withdraw(prefix, &source);
    Ok(())
}

/// One VRF, of which the static is, or which imports it.
fn spread_one(
    vrf: &mut Vrf,
    teller: VrfNo,
    meets: bool,
    route: StaticRoute,
    on: bool,
) -> Result<(), AllocError>
    ensures ok { OnOk result (vrf.new ≡ with_changes (spread_by teller.0 meets on route vrf.old.vrf) vrf.old) }
{
    if vrf.number().0 == teller.0 {
        return hold_or_not(vrf, route.prefix(), Source::Own(route.site()), on);
    }
    if meets {
        return hold_or_not(vrf, route.prefix(), Source::Near(teller, route.site()), on);
    }
    Ok(())
}

/// Each VRF, where the static is of the VRF at a place.
pub(crate) fn spread(
    vrfs: &mut Vec<Vrf>,
    at: usize,
    route: StaticRoute,
    on: bool,
) -> Result<(), AllocError>
    requires there { at < length vrfs.old.items }
    ensures ok { OnOk result ((d : Holding) → vrfs.new.items ≡ map (spreading (slice_index_or vrfs.old.items at d).vrf on route) vrfs.old.items) }
{
    let teller = vrfs[at].number();
    for i in 0..vrfs.len() {
        let meets = vrfs[i].imports().meets(vrfs[at].exports().as_slice());
        spread_one(&mut vrfs[i], teller, meets, route, on)?;
    }
    Ok(())
}

/// A static of the VRF at a place comes to the VRFs that are to hold it, or goes. Without a label of its site it is nowhere.
fn spread_if(
    vrfs: &mut Vec<Vrf>,
    labels: &[Option<u32>],
    at: usize,
    route: StaticRoute,
    on: bool,
) -> Result<(), AllocError>
    requires there { at < length vrfs.old.items }
    ensures { OnOk result ((d : Holding) →
        vrfs.new.items ≡ map (λ (h : Holding). with_changes (spread_over (slice_index_or vrfs.old.items at d).vrf on (present_of (slice_index_or labels.now route.site None) route) h.vrf) h) vrfs.old.items) }
{
    if label_at(labels, route.site()).is_none() {
        return Ok(());
    }
    spread(vrfs, at, route, on)
}

/// The same of a static of the VRF of a number.
pub(crate) fn spread_present(
    vrfs: &mut Vec<Vrf>,
    labels: &[Option<u32>],
    number: VrfNo,
    route: StaticRoute,
    on: bool,
) -> Result<(), AllocError>
    ensures { OnOk result (IsSpread labels.now number.0 on route vrfs.old.items vrfs.new.items) }
{
    match place_of(vrfs, number) {
        None => Ok(()),
        Some(at) => spread_if(vrfs, labels, at, route, on),
    }
}
