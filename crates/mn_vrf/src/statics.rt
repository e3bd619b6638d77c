// The prefixes that a VRF has over its sites.
ghost use Rattle.std.specs.Prelude.{◌≡◌, [], length, OnOk, OnErr, slice_get};
ghost use Rattle.std.specs.Map.Iter.{ShowsInOrder, deref};
ghost use Rattle.mn_base.specs.Ordered.{with_one, without_one};
ghost use Rattle.mn_vrf.specs.Vrf.{Static, static_before, static_of};

use mn_base::SiteNo;
use mn_prefix::Prefix;
use std::alloc::{AllocError, Global};
use std::collections::BTreeMap;
use std::collections::btree_map::Values;
use std::marker::Model;

/// A prefix that a VRF has over a site.
#[derive(Clone, Copy, Debug)]
pub struct StaticRoute {
    prefix: Prefix,
    site: SiteNo,
}

impl Model for StaticRoute {
    ghost use Rattle.mn_vrf.specs.Vrf.{Static};

    ghost Value = { Static };

    ghost view = { λ s. record { prefix = s.prefix; site = s.site.0 } };

    ghost inverse = { λ v. record { prefix = v.prefix; site = record { 0 = v.site } } };
}

impl StaticRoute {
    /// The prefix over the site.
    pub fn new(prefix: Prefix, site: SiteNo) -> StaticRoute
        ensures { result ≡ record { prefix = prefix; site = site.0 } }
    {
        StaticRoute { prefix, site }
    }

    /// The customer's prefix.
    pub fn prefix(&self) -> Prefix
        ensures { result ≡ self.now.prefix }
    {
        self.prefix
    }

    /// The site that it is over.
    pub fn site(&self) -> SiteNo
        ensures { result ≡ record { 0 = self.now.site } }
    {
        self.site
    }
}

/// Statics in the order of their prefixes. Contracts see the list of them, which ascends.
#[derive(Drop)]
pub struct Statics {
    by_prefix: BTreeMap<Prefix, StaticRoute>,
}

impl Model for Statics {
    ghost use Rattle.std.specs.Prelude.{List};
    ghost use Rattle.std.specs.BTreeMap.{values};
    ghost use Rattle.mn_vrf.specs.Vrf.{Static};
    ghost use Rattle.mn_vrf.specs.Kept.{AreByPrefix};

    ghost Value = { List Static };

    ghost view = { λ s. values s.by_prefix };

    ghost invariant = { λ s. AreByPrefix s.by_prefix.entries };
}

impl Statics {
    /// None.
    pub fn new(alloc: Global) -> Statics
        ensures { result ≡ [] }
    {
        Statics {
            by_prefix: BTreeMap::new(alloc),
        }
    }

    /// Has a static, in place of one of its prefix.
    pub fn put(&mut self, route: StaticRoute) -> Result<(), AllocError>
        ensures ok { OnOk result (self.new ≡ with_one static_before route self.old) }
        ensures err { OnErr result (self.new ≡ self.old) }
    {
        self.by_prefix.insert(route.prefix, route)?;
        Ok(())
    }

    /// Has none of its prefix. It takes no memory.
    pub fn take(&mut self, route: &StaticRoute)
        ensures { self.new ≡ without_one static_before route.now self.old }
    {
        self.by_prefix.remove(&route.prefix);
    }

    /// The static of a prefix. It takes no memory.
    pub fn of_prefix(&self, prefix: Prefix) -> Option<StaticRoute>
        ensures { result ≡ static_of prefix self.now }
    {
        self.by_prefix.get(&prefix).copied()
    }

    /// The static of this number. It takes no memory.
    pub fn at(&self, k: u32) -> Option<StaticRoute>
        ensures { result ≡ slice_get self.now k }
    {
        self.by_prefix.values().nth(k as usize).copied()
    }

    /// All of them. It takes no memory.
    pub fn iter(&self) -> Values<'_, Prefix, StaticRoute>
        ensures rest { result ≡ self.now }
        ensures runs { ShowsInOrder (deref {X = Static}) }
    {
        self.by_prefix.values()
    }

    /// How many there are.
    pub fn len(&self) -> usize
        ensures { result ≡ length self.now }
    {
        self.by_prefix.len()
    }
}
