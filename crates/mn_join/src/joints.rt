//! The joints, by site.
ghost use Rattle.std.specs.Prelude.{◌≡◌, ◌<◌, ℕ, None, map, replicate, slice_get, IfOk};
ghost use Rattle.std.specs.List.{All};
ghost use Rattle.mn_join_laws.specs.Pairing.{partner_in};
ghost use Rattle.mn_join.specs.Pairs.{joint_of, joined_to};
ghost use Rattle.mn_join.specs.Ends.{here_of, there_of, LeadBelow};

use mn_base::SiteNo;
use mn_join_laws::Which;
use std::alloc::{AllocError, Global};

/// The ends of a joint: the one in this network, and the other.
fn ends(which: Which, joint: (SiteNo, SiteNo)) -> (SiteNo, SiteNo)
    ensures { result ≡ (here_of which joint, there_of which joint) }
{
    let (first, second) = joint;
    match which {
        Which::First => (first, second),
        Which::Second => (second, first),
    }
}

/// No site is joined.
fn none_joined(alloc: Global, sites: usize) -> Result<Vec<Option<SiteNo>>, AllocError>
    ensures { IfOk result (λ partners. partners.items ≡ replicate sites None) }
{
    let mut partners = Vec::with_capacity(alloc, sites)?;
    for _site in 0..sites {
        partners.push(None)?;
    }
    Ok(partners)
}

/// Of each of so many sites of a network, the site to which it is joined.
pub(crate) fn partners_of(
    alloc: Global,
    which: Which,
    sites: usize,
    joints: &[(SiteNo, SiteNo)],
) -> Result<Vec<Option<SiteNo>>, AllocError>
    requires { All (λ joint. (here_of which joint).0 < sites) joints.now }
    ensures joined { IfOk result (λ partners. (s : ℕ) → joined_to (slice_get partners.items s) ≡ partner_in which s (map joint_of joints.now)) }
    ensures below { IfOk result (λ partners. (most : ℕ) → All (λ joint. (there_of which joint).0 < most) joints.now → LeadBelow most partners.items) }
{
    let mut partners = none_joined(alloc, sites)?;
    for joint in joints {
        let (here, there) = ends(which, *joint);
        let at = usize::from(here.0);
        if partners[at].is_none() {
            partners[at] = Some(there);
        }
    }
    Ok(partners)
}
