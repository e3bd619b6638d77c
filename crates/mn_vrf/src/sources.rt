// The sources of one prefix, by a binary search over a vector.
ghost use Rattle.std.specs.Prelude.{◌≡◌, ◌==◌, [], true, false, length, IfOk, OnOk, OnErr};
ghost use Rattle.mn_base.specs.Ordered.{IsPlaceFor, StandsAt, StandsBehind, with_one, without_one};
ghost use Rattle.mn_vrf.specs.Routes.{source_before, has_source, is_open};
ghost use Rattle.mn_prefix.specs.Table.{first_of};
ghost use Rattle.std.specs.Prelude.{filter};

use crate::Source;
use crate::source::{are_same, is_open};
use std::alloc::{AllocError, Global};
use std::marker::Model;

/// Where the held routes of one prefix come from, the preferred first. Contracts see the list of them, which ascends.
#[derive(Drop)]
pub struct Sources {
    sources: Vec<Source>,
}

impl Model for Sources {
    ghost use Rattle.std.specs.Prelude.{List};
    ghost use Rattle.mn_base.specs.Ordered.{Ascends};
    ghost use Rattle.mn_vrf.specs.declared.source.Source.{Source as From};
    ghost use Rattle.mn_vrf.specs.Routes.{source_before};

    ghost Value = { List From };

    ghost view = { λ s. s.sources.items };

    ghost invariant = { λ s. Ascends source_before s.sources.items };
}

impl Sources {
    /// None. It takes no memory.
    pub(crate) fn new(alloc: Global) -> Sources
        ensures { result ≡ [] }
    {
        Sources {
            sources: Vec::new(alloc),
        }
    }

    /// None, with room for one: most prefixes have no more.
    pub(crate) fn for_one(alloc: Global) -> Result<Sources, AllocError>
        ensures { IfOk result (λ sources. sources ≡ []) }
    {
        Ok(Sources {
            sources: Vec::with_capacity(alloc, 1)?,
        })
    }

    /// All of them, in their order.
    pub fn as_slice(&self) -> &[Source]
        ensures { result.now ≡ self.now }
    {
        &self.sources
    }

    /// The preferred of those that are open.
    pub(crate) fn first_open(&self, ways: &[bool]) -> Option<Source>
        ensures { result ≡ first_of (filter (is_open ways.now) self.now) }
    {
        for source in self.as_slice() {
            if is_open(source, ways) {
                return Some(*source);
            }
        }
        None
    }

    /// Whether there is none.
    pub(crate) fn is_empty(&self) -> bool
        ensures { result ≡ (length self.now == 0) }
    {
        self.sources.is_empty()
    }

    /// Puts a source, in place of one that is preferred as much.
    pub(crate) fn put(&mut self, source: Source) -> Result<(), AllocError>
        ensures ok { OnOk result (self.new ≡ with_one source_before source self.old) }
        ensures err { OnErr result (self.new ≡ self.old) }
    {
        let at = self.place(&source);
        if self.is_taken(at, &source) {
            self.sources[at] = source;
            return Ok(());
        }
        self.sources.insert(at, source)?;
        Ok(())
    }

    /// Takes out the one that is preferred as much. It takes no memory.
    pub(crate) fn take(&mut self, source: &Source)
        ensures { self.new ≡ without_one source_before source.now self.old }
    {
        let at = self.place(source);
        if self.is_taken(at, source) {
            self.sources.remove(at);
        }
    }

    /// Whether the source is one of them.
    pub(crate) fn has(&self, source: &Source) -> bool
        ensures { result ≡ has_source source.now self.now }
    {
        let at = self.place(source);
        self.is_taken(at, source) && are_same(source, &self.sources[at])
    }

    /// Where a source stands, or would stand.
    fn place(&self, source: &Source) -> usize
        ensures { IsPlaceFor source_before self.now source.now result }
    {
        let mut low = 0;
        let mut high = self.sources.len();
        while low < high {
            let middle = low + (high - low) / 2;
            if self.sources[middle].is_before(source) {
                low = middle + 1;
            } else {
                high = middle;
            }
        }
        low
    }

    /// Whether one stands at its place.
    fn is_taken(&self, at: usize, source: &Source) -> bool
        requires { IsPlaceFor source_before self.now source.now at }
        ensures taken { result ≡ true → StandsAt source_before self.now source.now at }
        ensures free { result ≡ false → StandsBehind source_before self.now source.now at }
    {
        at < self.sources.len() && !source.is_before(&self.sources[at])
    }
}
