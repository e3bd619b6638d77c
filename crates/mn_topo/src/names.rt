//! Names, numbered from 0 in their order.
ghost use Rattle.std.specs.Prelude.{◌≡◌, ◌≤◌, ◌<◌, ◌^◌, ◌++◌, ◌∷◌, [], false, Some, IfSome, OnOk, length, slice_get};
ghost use Rattle.mn_topo.specs.Names.{number_of, has_name};

use std::alloc::{AllocError, Global};
use std::collections::HashMap;
use std::marker::Model;

/// At most 2^16 names, in the order in which they came, and the number of each to look up.
pub struct Names {
    names: Vec<Vec<u8>>,
    numbers: HashMap<Vec<u8>, u16>,
}

impl Model for Names {
    ghost use Rattle.std.specs.Prelude.{ℕ, List, map, length, ◌≤◌, ◌^◌};
    ghost use Rattle.mn_topo.specs.Numbers.{AreNumbers};

    ghost Value = { List (List ℕ) };

    ghost view = { λ a. map (λ name. name.items) a.names.items };

    ghost invariant = { λ a. AreNumbers a.numbers (map (λ name. name.items) a.names.items) × (length a.names.items ≤ 2 ^ 16) };
}

/// By hand, so that whoever owns them drops them by one call.
impl Drop for Names {
    fn drop(self) {
        let Names {
            names: _,
            numbers: _,
        } = self;
    }
}

impl Names {
    /// No names.
    pub fn new(alloc: Global) -> Names
        ensures { result ≡ [] }
    {
        Names {
            names: Vec::new(alloc),
            numbers: HashMap::new(alloc),
        }
    }

    /// How many there are.
    pub fn len(&self) -> usize
        ensures value { result ≡ length self.now }
        ensures most { result ≤ 2 ^ 16 }
    {
        self.names.len()
    }

    /// The number of the name.
    pub fn number_of(&self, name: &[u8]) -> Option<u16>
        ensures value { result ≡ number_of self.now name.now }
        ensures within { IfSome result (λ n. n < length self.now) }
    {
        self.numbers.get(name).copied()
    }

    /// Whether the name is among them.
    pub fn has(&self, name: &[u8]) -> bool
        ensures { result ≡ has_name self.now name.now }
    {
        self.numbers.contains_key(name)
    }

    /// The name of the number.
    pub fn name_of(&self, number: u16) -> &[u8]
        requires { number < length self.now }
        ensures { slice_get self.now number ≡ Some result.now }
    {
        self.names[usize::from(number)].as_slice()
    }

    /// Adds a name.
    pub fn put(&mut self, alloc: Global, name: &[u8]) -> Result<(), AllocError>
        requires room { length self.old < 2 ^ 16 }
        requires fresh { has_name self.old name.now ≡ false }
        ensures { OnOk result (self.new ≡ self.old ++ name.now ∷ []) }
    {
        let copy = Vec::from_slice(alloc, name)?;
        let key = Vec::from_slice(alloc, name)?;
        let number = self.names.len() as u16;
        self.names.reserve(1)?;
        self.numbers.insert(key, number)?;
        self.names.push(copy)?;
        Ok(())
    }
}
