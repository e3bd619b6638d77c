//! Routes by name, and VRFs by their distinguishers.
ghost use Rattle.std.specs.Prelude.{◌≡◌, IfOk};
ghost use Rattle.mn_reflect_telling.specs.Found.{vrf_with, FindsEach};

use mn_base::{Rd, VrfNo};
use mn_prefix::Prefix;
use mn_topo::Topology;
use std::alloc::{AllocError, Global};
use std::collections::BTreeMap;

/// A route is named by the VRF that exports it and its prefix.
#[derive(Clone, Copy)]
pub struct Name {
    pub vrf: VrfNo,
    pub prefix: Prefix,
}

/// VRFs by their distinguishers, which differ.
pub type Distinguishers = BTreeMap<u64, VrfNo>;

/// The VRFs of a topology.
pub fn distinguishers(alloc: Global, topology: &Topology) -> Result<Distinguishers, AllocError>
    ensures { IfOk result (λ vrfs. FindsEach topology.now vrfs) }
{
    topology.laws();
    let mut vrfs = BTreeMap::new(alloc);
    for number in 0..topology.vrfs().len() {
        vrfs.insert(topology.vrfs()[number].rd.0, VrfNo(number as u16))?;
    }
    Ok(vrfs)
}

/// The VRF of a distinguisher.
pub fn vrf_with(vrfs: &Distinguishers, rd: Rd) -> Option<VrfNo>
    ensures { result ≡ vrf_with vrfs.now rd.0 }
{
    match vrfs.get(&rd.0) {
        Some(vrf) => Some(*vrf),
        None => None,
    }
}
