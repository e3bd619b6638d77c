//! The sites.
ghost use Rattle.std.specs.Prelude.{◌≡◌, ◌<◌, ◌^◌, ◌++◌, ◌∷◌, [], false, length, OnOk};
ghost use Rattle.mn_topo.specs.Names.{has_name};

use crate::names::Names;
use mn_prefix::Prefix;
use mn_wiring::{ListOf, VrfNo};
use std::alloc::{AllocError, Global};
use std::marker::Model;

/// A customer's site, attached to a VRF.
#[derive(Drop)]
pub struct SiteDef {
    pub vrf: VrfNo,
    /// What is reached over the site; a prefix stands in a VRF once.
    pub prefixes: ListOf<Prefix>,
}

/// The sites in order.
pub struct Sites {
    names: Names,
    sites: Vec<SiteDef>,
}

impl Model for Sites {
    ghost use Rattle.mn_topo.specs.SiteTable.{SiteTable};

    ghost Value = { SiteTable };

    ghost view = { λ a. record { names = a.names; sites = a.sites.items } };
}

/// By hand, so that whoever owns them drops them by one call.
impl Drop for Sites {
    fn drop(self) {
        let Sites { names: _, sites: _ } = self;
    }
}

ghost use Rattle.mn_topo.specs.SiteTable.{no_sites};

impl Sites {
    /// No sites.
    pub fn new(alloc: Global) -> Sites
        ensures { result ≡ no_sites }
    {
        Sites {
            names: Names::new(alloc),
            sites: Vec::new(alloc),
        }
    }

    /// Their names.
    pub fn names(&self) -> &Names
        ensures { result.now ≡ self.now.names }
    {
        &self.names
    }

    /// The sites in order.
    pub fn as_slice(&self) -> &[SiteDef]
        ensures { result.now ≡ self.now.sites }
    {
        &self.sites
    }

    /// Adds a site, of a new name.
    pub fn put(&mut self, alloc: Global, name: &[u8], site: SiteDef) -> Result<(), AllocError>
        requires room { length self.old.names < 2 ^ 16 }
        requires fresh { has_name self.old.names name.now ≡ false }
        ensures { OnOk result (self.new ≡ record { names = self.old.names ++ name.now ∷ []; sites = self.old.sites ++ site ∷ [] }) }
    {
        self.names.put(alloc, name)?;
        self.sites.push(site)?;
        Ok(())
    }
}
