// A table of prefixes with a map of addresses for each length.
ghost use Rattle.std.specs.Prelude.{◌≡◌, ◌≤◌, ℕ, [], None, option_map};
ghost use Rattle.std.specs.Option.{option_copied};
ghost use Rattle.mn_prefix.specs.Prefix.{AddressBlock};
ghost use Rattle.mn_prefix.specs.Table.{IsTable};
ghost use Rattle.mn_lpm.specs.Levels.{level_of, network, prefix_at, pair_at};

use mn_prefix::{Prefix, PrefixTable};
use std::alloc::{AllocError, Global};
use std::array;
use std::collections::BTreeMap;
use std::marker::Model;

/// How many lengths there are: 0 to 32.
const LENGTHS: usize = 33;

/// Values by prefix, in a map of addresses for each length.
#[derive(Drop)]
pub struct LengthTable<T> {
    levels: [BTreeMap<u32, T>; LENGTHS],
}

impl<T> Model for LengthTable<T> {
    ghost use Rattle.std.specs.Prelude.{List};
    ghost use Rattle.mn_prefix.specs.Prefix.{AddressBlock};
    ghost use Rattle.mn_lpm.specs.Levels.{pairs_from, AreLevels};

    ghost Value = { List (AddressBlock × T) };

    ghost view = { λ t. pairs_from 0 t.levels };

    ghost invariant = { λ t. AreLevels t.levels };
}

/// The first bits of an address, and then zeros.
fn network(address: u32, length: u8) -> u32
    requires { length ≤ 32 }
    ensures { result ≡ network length address }
{
    let host = 32 - length;
    (u64::from(address) >> host << host) as u32
}

impl<T> LengthTable<T> {
    /// An empty table. It takes no memory.
    pub fn new(alloc: Global) -> LengthTable<T>
        ensures { result ≡ [] }
    {
        LengthTable {
            levels: array::from_fn(|_| BTreeMap::new(alloc)),
        }
    }

    /// The prefixes of a length: their addresses, with their values.
    pub fn level(&self, length: u8) -> &BTreeMap<u32, T>
        requires { length ≤ 32 }
        ensures { result.now.entries ≡ level_of length self.now }
    {
        &self.levels[usize::from(length)]
    }

    /// The pair of this length whose prefix contains the address.
    pub fn of_length(&self, length: u8, address: u32) -> Option<(Prefix, &T)>
        requires { length ≤ 32 }
        ensures pair { option_map (λ found. (found.0, found.1.now)) result ≡ pair_at (prefix_at length address) self.now }
        ensures table { IsTable self.now }
    {
        let network = network(address, length);
        let value = self.levels[usize::from(length)].get(&network)?;
        let prefix = Prefix::new(network, length)?;
        Some((prefix, value))
    }
}

impl<T: Drop> PrefixTable<T> for LengthTable<T> {
    ghost pairs = { λ t. t };

    fn insert(&mut self, prefix: Prefix, value: T) -> Result<Option<T>, AllocError> {
        let level = &mut self.levels[usize::from(prefix.length())];
        Ok(level.insert(prefix.address(), value)?)
    }

    fn remove(&mut self, prefix: Prefix) -> Option<T> {
        let level = &mut self.levels[usize::from(prefix.length())];
        level.remove(&prefix.address())
    }

    fn get(&self, prefix: Prefix) -> Option<&T> {
        self.levels[usize::from(prefix.length())].get(&prefix.address())
    }

    fn longest(&self, address: u32) -> Option<(Prefix, &T)> {
        for shorter in 0..33 {
            let found = self.of_length(32 - shorter, address);
            if found.is_some() {
                return found;
            }
        }
        None
    }
}
