// What the VRF of a number is told.
ghost use Rattle.std.specs.Prelude.{◌≡◌, MatchOption, slice_set};
ghost use Rattle.mn_pe.specs.Prelude.{Ascends, target_set, VrfState, with_static, without_static, with_imports, with_exports, add_refused, del_refused, set_refused};
ghost use Rattle.mn_pe.specs.Changes.{IsTelling};
ghost use Rattle.mn_pe.specs.Pe.{by_number, IsAbsent, IsAt, is_want, told};

use mn_base::{Rt, SiteNo, VrfNo};
use mn_prefix::Prefix;
use mn_vrf::{Vrf, VrfBad};

/// Whether it means out of memory.
pub(crate) fn is_want(bad: VrfBad) -> bool
    ensures { result ≡ is_want bad }
{
    match bad {
        VrfBad::NoMemory => true,
        _ => false,
    }
}

/// A site has this label, or none.
#[tactic(auto, using(crate::proofs::Walks::set_beyond))]
pub(crate) fn set_label(labels: &mut Vec<Option<u32>>, site: SiteNo, label: Option<u32>)
    ensures { labels.new.items ≡ slice_set labels.old.items site.0 label }
{
    let at = site.0 as usize;
    if at < labels.len() {
        labels[at] = label;
    }
}

/// Where the VRF of a number stands.
pub(crate) fn place_of(vrfs: &[Vrf], number: VrfNo) -> Option<usize>
    ensures { MatchOption result (IsAbsent number.0 vrfs.now) (IsAt number.0 vrfs.now) }
{
    for (at, vrf) in vrfs.iter().enumerate() {
        if vrf.number().0 == number.0 {
            return Some(at);
        }
    }
    None
}

/// The VRF of a number imports routes with a target, or doesn't. An `Err` changes nothing.
pub(crate) fn import_in(
    vrfs: &mut Vec<Vrf>,
    number: VrfNo,
    target: Rt,
    on: bool,
) -> Result<(), VrfBad>
    requires { Ascends by_number (told vrfs.old.items) }
    ensures { IsTelling number.0 (with_imports (target_set target on)) (λ (vrf : VrfState). set_refused target on vrf.imports) vrfs.old.items vrfs.new.items result }
{
    match place_of(vrfs, number) {
        None => Ok(()),
        Some(at) => vrfs[at].import(target, on),
    }
}

/// The VRF of a number exports routes with a target, or doesn't. An `Err` changes nothing.
pub(crate) fn export_in(
    vrfs: &mut Vec<Vrf>,
    number: VrfNo,
    target: Rt,
    on: bool,
) -> Result<(), VrfBad>
    requires { Ascends by_number (told vrfs.old.items) }
    ensures { IsTelling number.0 (with_exports (target_set target on)) (λ (vrf : VrfState). set_refused target on vrf.exports) vrfs.old.items vrfs.new.items result }
{
    match place_of(vrfs, number) {
        None => Ok(()),
        Some(at) => vrfs[at].export(target, on),
    }
}

/// The VRF of a number has a prefix over a site. An `Err` changes nothing.
pub(crate) fn add_in(
    vrfs: &mut Vec<Vrf>,
    number: VrfNo,
    prefix: Prefix,
    site: SiteNo,
) -> Result<(), VrfBad>
    requires { Ascends by_number (told vrfs.old.items) }
    ensures { IsTelling number.0 (with_static (record { prefix = prefix; site = site.0 })) (λ (vrf : VrfState). add_refused prefix vrf) vrfs.old.items vrfs.new.items result }
{
    match place_of(vrfs, number) {
        None => Ok(()),
        Some(at) => vrfs[at].add_static(prefix, site),
    }
}

/// The VRF of a number has a prefix over a site no longer. An `Err` changes nothing.
pub(crate) fn del_in(
    vrfs: &mut Vec<Vrf>,
    number: VrfNo,
    prefix: Prefix,
    site: SiteNo,
) -> Result<(), VrfBad>
    requires { Ascends by_number (told vrfs.old.items) }
    ensures { IsTelling number.0 (without_static (record { prefix = prefix; site = site.0 })) (λ (vrf : VrfState). del_refused prefix site.0 vrf) vrfs.old.items vrfs.new.items result }
{
    match place_of(vrfs, number) {
        None => Ok(()),
        Some(at) => vrfs[at].del_static(prefix, site),
    }
}
