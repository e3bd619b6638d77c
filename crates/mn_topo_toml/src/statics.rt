//! The prefixes that stand in VRFs, to look among while sites are read.
ghost use Rattle.std.specs.Prelude.{◌≡◌, ◌++◌, ◌∷◌, [], true, false, length, OnOk, IfOk, MatchBool};
ghost use Rattle.mn_topo.specs.SiteTable.{stands, is_one_taken, in_vrf};

use indexmap::IndexSet;
use mn_prefix::Prefix;
use std::alloc::{AllocError, Global};
use std::marker::Model;

/// The prefixes in the order in which they came: the VRF, the address and the length of each.
#[derive(Drop)]
pub(crate) struct Statics {
    statics: IndexSet<(u16, u32, u8)>,
}

impl Model for Statics {
    ghost use Rattle.std.specs.Prelude.{List, map};
    ghost use Rattle.mn_topo.specs.SiteTable.{Static};

    ghost Value = { List Static };

    ghost view = { λ a. map (λ key. (key.0, record { address = key.1; length = key.2 })) a.statics.keys };
}

impl Statics {
    pub(crate) fn new(alloc: Global) -> Statics
        ensures { result ≡ [] }
    {
        Statics {
            statics: IndexSet::new(alloc),
        }
    }

    pub(crate) fn len(&self) -> usize
        ensures { result ≡ length self.now }
    {
        self.statics.len()
    }

    fn has(&self, vrf: u16, prefix: Prefix) -> bool
        ensures { result ≡ stands self.now vrf prefix }
    {
        self.statics
            .contains(&(vrf, prefix.address(), prefix.length()))
    }

    fn put(&mut self, vrf: u16, prefix: Prefix) -> Result<(), AllocError>
        requires { stands self.old vrf prefix ≡ false }
        ensures { OnOk result (self.new ≡ self.old ++ (vrf, prefix) ∷ []) }
    {
        self.statics
            .insert((vrf, prefix.address(), prefix.length()))?;
        Ok(())
    }

    /// Adds the prefixes to those of the VRF. `false` where one of them stands there already.
    pub(crate) fn add_all(&mut self, vrf: u16, prefixes: &[Prefix]) -> Result<bool, AllocError>
        ensures { IfOk result (λ added. MatchBool added ((is_one_taken prefixes.now self.old vrf ≡ false) × (self.new ≡ self.old ++ in_vrf vrf prefixes.now)) (is_one_taken prefixes.now self.old vrf ≡ true)) }
    {
        for prefix in prefixes {
            if self.has(vrf, *prefix) {
                return Ok(false);
            }
            self.put(vrf, *prefix)?;
        }
        Ok(true)
    }
}
