//! The sites so far, numbered by their names.
ghost use Rattle.std.specs.Prelude.{◌≡◌, ◌<◌, ◌^◌, ◌++◌, ◌∷◌, [], false, length, IfOk, OnOk};
ghost use Rattle.mn_topo.specs.Names.{has_name};
ghost use Rattle.mn_topo_toml.specs.Numbered.{names_in};
ghost use Rattle.mn_topo.specs.SiteTable.{no_sites};

use indexmap::IndexSet;
use mn_topo::{SiteDef, Sites};
use std::alloc::{AllocError, Global};
use std::marker::Model;

/// Sites, and their names in the order in which they came: the next site's number is how many there are.
#[derive(Drop)]
pub(crate) struct NumberedSites {
    names: IndexSet<Vec<u8>>,
    sites: Sites,
}

impl Model for NumberedSites {
    ghost use Rattle.std.specs.Prelude.{◌≡◌};
    ghost use Rattle.mn_topo_toml.specs.Numbered.{names_in};
    ghost use Rattle.mn_topo.specs.SiteTable.{SiteTable};

    ghost Value = { SiteTable };

    ghost view = { λ a. a.sites };

    ghost invariant = { λ a. names_in a.names.keys ≡ a.sites.names };
}

/// One name more.
fn put_name(alloc: Global, names: &mut IndexSet<Vec<u8>>, name: &[u8]) -> Result<(), AllocError>
    requires { has_name (names_in names.old.keys) name.now ≡ false }
    ensures { OnOk result (names_in names.new.keys ≡ names_in names.old.keys ++ name.now ∷ []) }
{
    let copy = Vec::from_slice(alloc, name)?;
    names.insert(copy)?;
    Ok(())
}

impl NumberedSites {
    pub(crate) fn new(alloc: Global) -> NumberedSites
        ensures { result ≡ no_sites }
    {
        NumberedSites {
            names: IndexSet::new(alloc),
            sites: Sites::new(alloc),
        }
    }

    /// The number of the next one.
    pub(crate) fn next(&self) -> usize
        ensures { result ≡ length self.now.names }
    {
        self.names.len()
    }

    /// Whether one of them has the name.
    pub(crate) fn has(&self, name: &[u8]) -> bool
        ensures { result ≡ has_name self.now.names name.now }
    {
        self.names.contains(name)
    }

    /// With one more, of a new name.
    pub(crate) fn with(
        self,
        alloc: Global,
        name: &[u8],
        site: SiteDef,
    ) -> Result<NumberedSites, AllocError>
        requires room { length self.names < 2 ^ 16 }
        requires fresh { has_name self.names name.now ≡ false }
        ensures { IfOk result (λ more. more ≡ record { names = self.names ++ name.now ∷ []; sites = self.sites ++ site ∷ [] }) }
    {
        let NumberedSites {
            mut names,
            mut sites,
        } = self;
        put_name(alloc, &mut names, name)?;
        sites.put(alloc, name, site)?;
        Ok(NumberedSites { names, sites })
    }

    pub(crate) fn sites(self) -> Sites
        ensures { result ≡ self }
    {
        let NumberedSites { names: _, sites } = self;
        sites
    }
}
