//! The plainest table of prefixes, its pairs in a `Vec`. It shows that the clauses of
//! `PrefixTable` can be met; tables for use are in other crates.
ghost use Rattle.std.specs.Prelude.{◌≡◌, ◌<◌, ◌+◌, [], length, position};
ghost use Rattle.mn_prefix.specs.Prefix.{same_prefix};
ghost use Rattle.mn_prefix.specs.Places.{IsBestPlace};

use mn_prefix::{Prefix, PrefixTable};
use std::alloc::{AllocError, Global};
use std::marker::Model;
use std::mem;

/// PlainTable of a prefix and a value in the order in which they came.
#[derive(Drop)]
pub struct PlainTable<T> {
    pairs: Vec<(Prefix, T)>,
}

impl<T> Model for PlainTable<T> {
    ghost use Rattle.std.specs.Prelude.{List};
    ghost use Rattle.mn_prefix.specs.Prefix.{AddressBlock};
    ghost use Rattle.mn_prefix.specs.Table.{IsTable};

    ghost Value = { List (AddressBlock × T) };

    ghost view = { λ t. t.pairs.items };

    ghost invariant = { λ t. IsTable t.pairs.items };
}

impl<T> PlainTable<T> {
    /// An empty table.
    pub fn new(alloc: Global) -> PlainTable<T>
        ensures { result ≡ [] }
    {
        PlainTable {
            pairs: Vec::new(alloc),
        }
    }
}

/// Where the pair with the prefix stands.
fn place<T>(pairs: &[(Prefix, T)], prefix: Prefix) -> Option<usize>
    ensures { result ≡ position (λ pair. same_prefix prefix pair.0) pairs.now }
{
    pairs.iter().position(|pair| prefix == pair.0)
}

/// Of the first `i + 1` pairs, where the longest stands that contains the address, `best` being
/// that of the first `i`.
fn longer_place<T>(
    pairs: &[(Prefix, T)],
    address: u32,
    i: usize,
    best: Option<usize>,
) -> Option<usize>
    requires there { i < length pairs.now }
    requires best { IsBestPlace address pairs.now i best }
    ensures { IsBestPlace address pairs.now (i + 1) result }
{
    let pair = &pairs[i];
    if !pair.0.contains(address) {
        return best;
    }
    let Some(at) = best else {
        return Some(i);
    };
    let found = &pairs[at];
    if pair.0.length() <= found.0.length() {
        Some(at)
    } else {
        Some(i)
    }
}

/// Where the longest pair stands that contains the address.
fn longest_place<T>(pairs: &[(Prefix, T)], address: u32) -> Option<usize>
    ensures { IsBestPlace address pairs.now (length pairs.now) result }
{
    let mut best = None;
    for i in 0..pairs.len() {
        best = longer_place(pairs, address, i, best);
    }
    best
}

impl<T: Drop> PrefixTable<T> for PlainTable<T> {
    ghost pairs = { λ t. t };

    fn insert(&mut self, prefix: Prefix, value: T) -> Result<Option<T>, AllocError> {
        // Reading it tells that the prefix is of its form, which the table keeps.
        let _form = prefix.length();
        match place(&self.pairs, prefix) {
            Some(i) => {
                let pair = &mut self.pairs[i];
                Ok(Some(mem::replace(&mut pair.1, value)))
            }
            None => {
                self.pairs.push((prefix, value))?;
                Ok(None)
            }
        }
    }

    fn remove(&mut self, prefix: Prefix) -> Option<T> {
        let i = place(&self.pairs, prefix)?;
        let (_, value) = self.pairs.remove(i);
        Some(value)
    }

    fn get(&self, prefix: Prefix) -> Option<&T> {
        match place(&self.pairs, prefix) {
            Some(i) => Some(&self.pairs[i].1),
            None => None,
        }
    }

    fn longest(&self, address: u32) -> Option<(Prefix, &T)> {
        let i = longest_place(&self.pairs, address)?;
        Some((self.pairs[i].0, &self.pairs[i].1))
    }
}
