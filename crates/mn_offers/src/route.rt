// One route.
ghost use Rattle.std.specs.Prelude.{◌≡◌, ◌&&◌, ◌==◌, IfOk};
ghost use Rattle.mn_offers.specs.Heard.{Heard};

use mn_base::{Rt, VrfNo};
use mn_prefix::Prefix;
use std::alloc::{AllocError, Global};
use std::marker::Model;

/// A route as its last mention announced it.
#[derive(Debug, Drop)]
pub struct Offered {
    pub(crate) vrf: VrfNo,
    pub(crate) prefix: Prefix,
    pub(crate) label: u32,
    pub(crate) targets: Vec<Rt>,
    pub(crate) clusters: Vec<u32>,
}

impl Model for Offered {
    ghost use Rattle.mn_offers.specs.Heard.{Heard};

    ghost Value = { Heard };

    ghost view = { λ r. record { vrf = r.vrf.0; prefix = r.prefix; label = r.label; targets = r.targets.items; clusters = r.clusters.items } };
}

impl Offered {
    /// A route of a VRF's prefix, with the label that the VRF's edge gave for it, its targets, and the addresses of the reflectors
    /// through which it came, the last one first.
    pub fn new(
        vrf: VrfNo,
        prefix: Prefix,
        label: u32,
        targets: Vec<Rt>,
        clusters: Vec<u32>,
    ) -> Offered
        ensures { result ≡ record { vrf = vrf.0; prefix = prefix; label = label; targets = targets.items; clusters = clusters.items } }
    {
        Offered {
            vrf,
            prefix,
            label,
            targets,
            clusters,
        }
    }

    /// The VRF that exports it.
    pub fn vrf(&self) -> VrfNo
        ensures { result.0 ≡ self.now.vrf }
    {
        self.vrf
    }

    /// The customer's prefix.
    pub fn prefix(&self) -> Prefix
        ensures { result ≡ self.now.prefix }
    {
        self.prefix
    }

    /// The label that the VRF's edge gave for it.
    pub fn label(&self) -> u32
        ensures { result ≡ self.now.label }
    {
        self.label
    }

    /// Its targets, in the order in which they were advertised.
    pub fn targets(&self) -> &[Rt]
        ensures { result.now ≡ self.now.targets }
    {
        &self.targets
    }

    /// The addresses of the reflectors through which it came, the last one first. None from the VRF's edge itself.
    pub fn clusters(&self) -> &[u32]
        ensures { result.now ≡ self.now.clusters }
    {
        &self.clusters
    }

    /// The same route once more.
    pub fn copy(&self, alloc: Global) -> Result<Offered, AllocError>
        ensures { IfOk result (λ copied. copied ≡ self.now) }
    {
        Ok(Offered {
            vrf: self.vrf,
            prefix: self.prefix,
            label: self.label,
            targets: Vec::from_slice(alloc, &self.targets)?,
            clusters: Vec::from_slice(alloc, &self.clusters)?,
        })
    }
}
