//! The names of all routes that a node has received.
use crate::name::Name;
use mn_offers::Offers;
use mn_prefix::Prefix;
use std::alloc::{AllocError, Global};
use std::collections::BTreeMap;
use std::marker::Model;

/// Names in their order, each once.
#[derive(Drop)]
pub(crate) struct Names {
    by_name: BTreeMap<(u16, Prefix), Name>,
}

impl Model for Names {
    ghost use Rattle.std.specs.Prelude.{List, map};
    ghost use Rattle.std.specs.BTreeMap.{values};
    ghost use Rattle.mn_reflect_ledger_laws.specs.Words.{Key};
    ghost use Rattle.mn_reflect_telling.specs.Names.{key_in, AreByName};

    ghost Value = { List Key };

    ghost view = { λ n. map key_in (values n.by_name) };

    ghost invariant = { λ n. AreByName n.by_name.entries };
}

ghost use Rattle.std.specs.Prelude.{◌≡◌, [], ◌++◌, length, map, OnOk, IfOk};
ghost use Rattle.std.specs.List.{flat_map};
ghost use Rattle.mn_reflect_telling.specs.Prelude.{with_one, key_before, names_in, all_names};
ghost use Rattle.mn_reflect_telling.specs.Names.{key_in, with_names};

impl Names {
    /// No name.
    fn new(alloc: Global) -> Names
        ensures { result ≡ [] }
    {
        Names {
            by_name: BTreeMap::new(alloc),
        }
    }

    /// With one more, if it isn't there.
    fn add(&mut self, name: Name) -> Result<(), AllocError>
        ensures { OnOk result (self.new ≡ with_one key_before (key_in name) self.old) }
    {
        self.by_name.insert((name.vrf.0, name.prefix), name)?;
        Ok(())
    }

    /// With those of a peer's routes.
    fn add_all(&mut self, offers: &Offers) -> Result<(), AllocError>
        ensures { OnOk result (self.new ≡ with_names (names_in offers.now) self.old) }
    {
        for offered in offers.iter() {
            self.add(Name {
                vrf: offered.vrf(),
                prefix: offered.prefix(),
            })?;
        }
        Ok(())
    }

    /// All of them, in their order.
    pub(crate) fn list(&self, alloc: Global) -> Result<Vec<Name>, AllocError>
        ensures { IfOk result (λ names. map key_in names.items ≡ self.now) }
    {
        let mut names = Vec::new(alloc);
        for name in self.by_name.values() {
            names.push(*name)?;
        }
        Ok(names)
    }
}

/// The names of all routes that a node received from its peers.
fn collected(alloc: Global, heard: &[Offers]) -> Result<Names, AllocError>
    ensures { IfOk result (λ names. names ≡ with_names (flat_map names_in heard.now) []) }
{
    let mut names = Names::new(alloc);
    for offers in heard {
        names.add_all(offers)?;
    }
    Ok(names)
}

/// The names of all routes that a node received from its peers, in order, each once.
pub fn names_of(alloc: Global, heard: &[Offers]) -> Result<Vec<Name>, AllocError>
    ensures { IfOk result (λ names. map key_in names.items ≡ all_names heard.now) }
{
    let names = collected(alloc, heard)?;
    names.list(alloc)
}
