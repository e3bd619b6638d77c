// The routes that a VRF holds: the sources of each prefix in a table, and the prefixes in order.
ghost use Rattle.std.specs.Prelude.{◌≡◌, ◌+◌, ℕ, [], Some, IsSome, OnOk, OnErr, slice_get, option_map, ◌≢◌, ◌≤◌, filter};
ghost use Rattle.mn_vrf.specs.Prelude.{AddressBlock, IsPrefix, longest_match, value_at, ChangesOnly, first_of, with_one, without_one, prefix_at};
ghost use Rattle.mn_vrf.specs.Routes.{route_before, is_held, sources_of, unless_empty, is_open, open_among, found_among};
ghost use Rattle.mn_vrf.specs.Vrf.{heads, IsHeldAt};

use crate::{Source, Sources};
use mn_lpm::LengthTable;
use mn_prefix::{Prefix, PrefixTable};
use std::alloc::{AllocError, Global};
use std::collections::BTreeSet;
use std::marker::Model;
use std::mem;
use std::ops::Bound;

/// Held routes, by prefix and of one prefix by preference. Contracts see the list of them, which ascends.
#[derive(Drop)]
pub struct Routes {
    alloc: Global,
    table: LengthTable<Sources>,
    prefixes: BTreeSet<Prefix>,
}

impl Model for Routes {
    ghost use Rattle.std.specs.Prelude.{List};
    ghost use Rattle.mn_prefix.specs.Prefix.{AddressBlock};
    ghost use Rattle.mn_vrf.specs.declared.source.Source.{Source as From};
    ghost use Rattle.mn_vrf.specs.Kept.{in_order, IsKept};

    ghost Value = { List (AddressBlock × From) };

    ghost view = { λ r. in_order r.table r.prefixes.keys };

    ghost invariant = { λ r. IsKept r.table r.prefixes.keys };
}

/// Puts the sources of a prefix that has some, and answers those. A table takes no memory for a prefix that it holds.
fn swap(
    table: &mut LengthTable<Sources>,
    alloc: Global,
    prefix: Prefix,
    sources: Sources,
) -> Sources
    requires { IsSome (value_at prefix table.old) }
    ensures before { Some result ≡ value_at prefix table.old }
    ensures changed { ChangesOnly table.old table.new prefix (Some sources) }
{
    match table.insert(prefix, sources) {
        Ok(Some(before)) => before,
        _ => Sources::new(alloc),
    }
}

/// The preferred of a prefix's sources.
fn best_of(prefix: Prefix, sources: &Sources) -> Option<(Prefix, Source)>
    ensures { result ≡ option_map (λ source. (prefix, source)) (first_of sources.now) }
{
    let source = sources.as_slice().first()?;
    Some((prefix, *source))
}

impl Routes {
    /// None. It takes no memory.
    pub fn new(alloc: Global) -> Routes
        ensures { result ≡ [] }
    {
        Routes {
            alloc,
            table: LengthTable::new(alloc),
            prefixes: BTreeSet::new(alloc),
        }
    }

    /// All of them, and holds none. It takes no memory.
    pub(crate) fn take(&mut self) -> Routes
        ensures all { result ≡ self.old }
        ensures left { self.new ≡ [] }
    {
        let none = Routes::new(self.alloc);
        mem::replace(self, none)
    }

    /// Holds a route, in place of one of its prefix that is preferred as much.
    pub fn offer(&mut self, prefix: Prefix, source: Source) -> Result<(), AllocError>
        ensures ok { OnOk result (self.new ≡ with_one route_before (prefix, source) self.old) }
        ensures err { OnErr result (self.new ≡ self.old) }
    {
        if self.table.get(prefix).is_none() {
            return self.begin(prefix, source);
        }
        let mut sources = swap(
            &mut self.table,
            self.alloc,
            prefix,
            Sources::new(self.alloc),
        );
        let put = sources.put(source);
        swap(&mut self.table, self.alloc, prefix, sources);
        put
    }

    /// Holds the first route of a prefix.
    fn begin(&mut self, prefix: Prefix, source: Source) -> Result<(), AllocError>
        requires { sources_of prefix self.old ≡ [] }
        ensures ok { OnOk result (self.new ≡ with_one route_before (prefix, source) self.old) }
        ensures err { OnErr result (self.new ≡ self.old) }
    {
        let mut sources = Sources::for_one(self.alloc)?;
        sources.put(source)?;
        self.table.insert(prefix, sources)?;
        let Ok(_) = self.prefixes.insert(prefix) else {
            self.table.remove(prefix);
            return Err(AllocError);
        };
        Ok(())
    }

    /// Holds none of this prefix that is preferred as much. It takes no memory.
    pub fn retract(&mut self, prefix: Prefix, source: &Source)
        ensures { self.new ≡ without_one route_before (prefix, source.now) self.old }
    {
        if self.table.get(prefix).is_none() {
            return;
        }
        let mut sources = swap(
            &mut self.table,
            self.alloc,
            prefix,
            Sources::new(self.alloc),
        );
        sources.take(source);
        if sources.is_empty() {
            self.table.remove(prefix);
            self.prefixes.remove(&prefix);
        } else {
            swap(&mut self.table, self.alloc, prefix, sources);
        }
    }

    /// The first of the longest prefix that contains the address. It takes no memory.
    pub fn lookup(&self, address: u32) -> Option<(Prefix, Source)>
        ensures { result ≡ longest_match address self.now }
    {
        match self.table.longest(address) {
            Some(found) => best_of(found.0, found.1),
            None => None,
        }
    }

    /// The first open route of the prefix of this length that contains the address.
    fn at_length(&self, length: u8, address: u32, ways: &[bool]) -> Option<(Prefix, Source)>
        requires { length ≤ 32 }
        ensures found { result ≡ option_map (λ source. (prefix_at length address, source)) (first_of (filter (is_open ways.now) (sources_of (prefix_at length address) self.now))) }
        ensures formed { (p : AddressBlock) → sources_of p self.now ≢ [] → IsPrefix p.address p.length }
    {
        match self.table.of_length(length, address) {
            Some(found) => match found.1.first_open(ways) {
                Some(source) => Some((found.0, source)),
                None => None,
            },
            None => None,
        }
    }

    /// The first open route of the longest prefix that contains the address and has one: own routes, those of other VRFs of
    /// the edge, and those of the edges that are among these. It takes no memory.
    pub fn lookup_open(&self, address: u32, ways: &[bool]) -> Option<(Prefix, Source)>
        ensures { result ≡ longest_match address (open_among ways.now self.now) }
    {
        let _ = &self.table;
        for shorter in 0..33 {
            let found = self.at_length(32 - shorter, address, ways);
            if found.is_some() {
                return found;
            }
        }
        None
    }

    /// The same, and where no route is open the first of the longest prefix of all. It takes no memory.
    pub fn lookup_among(&self, address: u32, ways: &[bool]) -> Option<(Prefix, Source)>
        ensures { result ≡ found_among ways.now address self.now }
    {
        match self.lookup_open(address, ways) {
            Some(found) => Some(found),
            None => self.lookup(address),
        }
    }

    /// The first open route of a prefix. It takes no memory.
    pub(crate) fn open_at(&self, prefix: Prefix, ways: &[bool]) -> Option<Source>
        ensures { result ≡ first_of (filter (is_open ways.now) (sources_of prefix self.now)) }
    {
        match self.table.get(prefix) {
            Some(sources) => sources.first_open(ways),
            None => None,
        }
    }

    /// The held prefix of this number, with the best of its routes. It takes no memory.
    pub fn held(&self, k: u32) -> Option<(Prefix, Source)>
        ensures { result ≡ slice_get (heads self.now) k }
    {
        let prefix = *self.prefixes.iter().nth(k as usize)?;
        match self.table.get(prefix) {
            Some(sources) => best_of(prefix, sources),
            None => None,
        }
    }

    /// The held prefix after a held one, with the best of its routes. It takes no memory.
    pub fn after(&self, last: Prefix) -> Option<(Prefix, Source)>
        ensures { (k : ℕ) → IsHeldAt last (slice_get (heads self.now) k) → result ≡ slice_get (heads self.now) (k + 1) }
    {
        let prefix = *self
            .prefixes
            .range((Bound::Excluded(last), Bound::Unbounded))
            .next()?;
        match self.table.get(prefix) {
            Some(sources) => best_of(prefix, sources),
            None => None,
        }
    }

    /// Whether the route is held. It takes no memory.
    pub fn has(&self, prefix: Prefix, source: &Source) -> bool
        ensures { result ≡ is_held (prefix, source.now) self.now }
    {
        match self.table.get(prefix) {
            Some(sources) => sources.has(source),
            None => false,
        }
    }

    /// The held prefixes, and no others, each with its sources. It takes no memory.
    pub fn table(&self) -> &LengthTable<Sources>
        ensures { (prefix : AddressBlock) → value_at prefix result.now ≡ unless_empty (sources_of prefix self.now) }
    {
        &self.table
    }
}
