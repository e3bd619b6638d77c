// All routes of one peer.
ghost use Rattle.std.specs.Prelude.{◌≡◌, [], length, OnOk, OnErr, option_map};
ghost use Rattle.std.specs.Map.Iter.{ShowsInOrder, deref};
ghost use Rattle.mn_offers.specs.Heard.{Heard, with_heard, without_heard, heard_at};

use crate::Offered;
use mn_base::VrfNo;
use mn_prefix::Prefix;
use std::alloc::{AllocError, Global};
use std::collections::BTreeMap;
use std::collections::btree_map::Values;
use std::marker::Model;

/// The routes received from one peer. Contracts see the list of them, which ascends.
#[derive(Drop)]
pub struct Offers {
    by_name: BTreeMap<(u16, Prefix), Offered>,
}

impl Model for Offers {
    ghost use Rattle.std.specs.Prelude.{List};
    ghost use Rattle.std.specs.BTreeMap.{values};
    ghost use Rattle.mn_offers.specs.Heard.{Heard};
    ghost use Rattle.mn_offers.specs.Kept.{AreByName};

    ghost Value = { List Heard };

    ghost view = { λ r. values r.by_name };

    ghost invariant = { λ r. AreByName r.by_name.entries };
}

impl Offers {
    /// Nothing was received yet. It takes no memory.
    pub fn new(alloc: Global) -> Offers
        ensures { result ≡ [] }
    {
        Offers {
            by_name: BTreeMap::new(alloc),
        }
    }

    /// Takes an announcement. An `Err` changes nothing.
    pub fn set(&mut self, route: Offered) -> Result<(), AllocError>
        ensures ok { OnOk result (self.new ≡ with_heard route self.old) }
        ensures err { OnErr result (self.new ≡ self.old) }
    {
        self.by_name.insert((route.vrf.0, route.prefix), route)?;
        Ok(())
    }

    /// Takes a withdrawal.
    pub fn remove(&mut self, vrf: VrfNo, prefix: Prefix)
        ensures { self.new ≡ without_heard vrf.0 prefix self.old }
    {
        self.by_name.remove(&(vrf.0, prefix));
    }

    /// The route of a VRF's prefix. None where it isn't among them.
    pub fn get(&self, vrf: VrfNo, prefix: Prefix) -> Option<&Offered>
        ensures { option_map (λ route. route.now) result ≡ heard_at vrf.0 prefix self.now }
    {
        self.by_name.get(&(vrf.0, prefix))
    }

    /// Forgets all routes.
    pub fn clear(&mut self)
        ensures { self.new ≡ [] }
    {
        self.by_name.clear();
    }

    /// All of them, in their order. It takes no memory.
    pub fn iter(&self) -> Values<'_, (u16, Prefix), Offered>
        ensures rest { result ≡ self.now }
        ensures runs { ShowsInOrder (deref {X = Heard}) }
    {
        self.by_name.values()
    }

    /// How many there are.
    pub fn len(&self) -> usize
        ensures { result ≡ length self.now }
    {
        self.by_name.len()
    }
}
