// All routes of one peer.
ghost use Rattle.std.specs.Prelude.{◌≡◌, [], length, OnOk, OnErr, option_map, slice_get};
ghost use Rattle.std.specs.Map.Iter.{ShowsInOrder, deref};
ghost use Rattle.mn_rib_in.specs.Heard.{Heard, with_heard, without_heard, has_heard};

use crate::HeardRoute;
use mn_base::{Rd, Rt};
use mn_prefix::Prefix;
use std::alloc::{AllocError, Global};
use std::collections::BTreeMap;
use std::collections::btree_map::Values;
use std::marker::Model;

/// The routes received from one peer. Contracts see the list of them, which ascends.
#[derive(Drop)]
pub struct RibIn {
    alloc: Global,
    by_place: BTreeMap<(Rd, Prefix), HeardRoute>,
}

impl Model for RibIn {
    ghost use Rattle.std.specs.Prelude.{List};
    ghost use Rattle.std.specs.BTreeMap.{values};
    ghost use Rattle.mn_rib_in.specs.Heard.{Heard};
    ghost use Rattle.mn_rib_in.specs.Kept.{AreByPlace};

    ghost Value = { List Heard };

    ghost view = { λ r. values r.by_place };

    ghost invariant = { λ r. AreByPlace r.by_place.entries };
}

impl RibIn {
    /// Nothing was received yet. It takes no memory.
    pub fn new(alloc: Global) -> RibIn
        ensures { result ≡ [] }
    {
        RibIn {
            alloc,
            by_place: BTreeMap::new(alloc),
        }
    }

    /// Takes an announcement. An `Err` changes nothing.
    pub fn set(
        &mut self,
        rd: Rd,
        prefix: Prefix,
        label: u32,
        targets: &[Rt],
    ) -> Result<(), AllocError>
        ensures ok { OnOk result (self.new ≡ with_heard (record { rd = rd; prefix = prefix; label = label; targets = targets.now }) self.old) }
        ensures err { OnErr result (self.new ≡ self.old) }
    {
        let targets = Vec::from_slice(self.alloc, targets)?;
        let route = HeardRoute {
            rd,
            prefix,
            label,
            targets,
        };
        self.by_place.insert((rd, prefix), route)?;
        Ok(())
    }

    /// Takes a withdrawal, and answers whether the route was there.
    pub fn remove(&mut self, rd: Rd, prefix: Prefix) -> bool
        ensures removed { self.new ≡ without_heard rd prefix self.old }
        ensures there { result ≡ has_heard rd prefix self.old }
    {
        self.by_place.remove(&(rd, prefix)).is_some()
    }

    /// Whether a route of this distinguisher and prefix is among them.
    pub fn has(&self, rd: Rd, prefix: Prefix) -> bool
        ensures { result ≡ has_heard rd prefix self.now }
    {
        self.by_place.contains_key(&(rd, prefix))
    }

    /// Forgets all routes.
    pub fn clear(&mut self)
        ensures { self.new ≡ [] }
    {
        self.by_place.clear();
    }

    /// All of them. It takes no memory.
    pub fn iter(&self) -> Values<'_, (Rd, Prefix), HeardRoute>
        ensures rest { result ≡ self.now }
        ensures runs { ShowsInOrder (deref {X = Heard}) }
    {
        self.by_place.values()
    }

    /// How many routes there are.
    pub fn len(&self) -> usize
        ensures { result ≡ length self.now }
    {
        self.by_place.len()
    }

    /// The route at a place, from 0.
    pub fn at(&self, k: usize) -> Option<&HeardRoute>
        ensures { option_map (λ route. route.now) result ≡ slice_get self.now k }
    {
        self.by_place.values().nth(k)
    }
}
