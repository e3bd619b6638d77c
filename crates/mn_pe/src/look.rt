// The VRF of a number, a site's label, and a node's loopback.
ghost use Rattle.std.specs.Prelude.{◌≡◌, slice_index_or, None, Some, option_map};
ghost use Rattle.mn_pe.specs.Pe.{numbered};

use mn_base::{NodeNo, SiteNo, VrfNo};
use mn_vrf::Vrf;

/// The VRF of this number.
pub(crate) fn vrf_in(vrfs: &[Vrf], number: VrfNo) -> Option<&Vrf>
    ensures { option_map (λ vrf. vrf.now) result ≡ numbered number.0 Some vrfs.now }
{
    for vrf in vrfs {
        if vrf.number().0 == number.0 {
            return Some(vrf);
        }
    }
    None
}

/// The label of a site's present attachment.
pub(crate) fn label_at(labels: &[Option<u32>], site: SiteNo) -> Option<u32>
    ensures { result ≡ slice_index_or labels.now site.0 None }
{
    match labels.get(site.0 as usize) {
        Some(label) => *label,
        None => None,
    }
}

/// A node's loopback.
pub(crate) fn loopback_at(loopbacks: &[u32], node: NodeNo) -> u32
    ensures { result ≡ slice_index_or loopbacks.now node.0 0 }
{
    match loopbacks.get(node.0 as usize) {
        Some(address) => *address,
        None => 0,
    }
}
