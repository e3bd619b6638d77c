//! What one node has of each origin.
ghost use Rattle.std.specs.Prelude.{◌≡◌, ◌<◌, ◌≤◌, ◌^◌, length, map, slice_index_or, slice_set, None, Some, IfOk};
ghost use Rattle.std.specs.List.{range_with_len};
ghost use Rattle.mn_flood_laws.specs.Flood.{age, first_of, is_news, lists};

use crate::advert::Advert;
use mn_base::{LinkNo, NodeNo};
use std::alloc::{AllocError, Global};
use std::marker::Model;

/// By origin, the advert that a node has of it.
#[derive(Drop)]
pub(crate) struct Database {
    adverts: Vec<Option<Advert>>,
}

impl Model for Database {
    ghost use Rattle.std.specs.Prelude.{List, Option};
    ghost use Rattle.mn_flood_laws.specs.Flood.{Advert as Value_};

    ghost Value = { List (Option Value_) };

    ghost view = { λ d. d.adverts.items };
}

/// What a node has of an origin at the start: of itself an advert of number 0 and no links, of any other none.
fn first_of(alloc: Global, node: NodeNo, origin: u32) -> Result<Option<Advert>, AllocError>
    ensures { IfOk result (λ advert. advert ≡ first_of node.0 origin) }
{
    if origin == u32::from(node.0) {
        let own = Advert::new(alloc, node, 0, Vec::new(alloc))?;
        Ok(Some(own))
    } else {
        Ok(None)
    }
}

impl Database {
    /// The first database of a node, one of so many.
    pub(crate) fn first(alloc: Global, nodes: u32, node: NodeNo) -> Result<Database, AllocError>
        ensures { IfOk result (λ database. database ≡ map (first_of node.0) (range_with_len 0 nodes)) }
    {
        let mut adverts = Vec::with_capacity(alloc, nodes as usize)?;
        for origin in 0..nodes {
            adverts.push(first_of(alloc, node, origin)?)?;
        }
        Ok(Database { adverts })
    }

    /// The adverts by origin.
    pub(crate) fn adverts(&self) -> &[Option<Advert>]
        ensures { result.now ≡ self.now }
    {
        &self.adverts
    }

    /// How new the advert of an origin is: its number plus one, and 0 where there is none.
    pub(crate) fn age(&self, origin: NodeNo) -> u32
        requires there { origin.0 < length self.now }
        requires fits { age (slice_index_or self.now origin.0 None) < 2 ^ 32 }
        ensures { result ≡ age (slice_index_or self.now origin.0 None) }
    {
        match &self.adverts[usize::from(origin.0)] {
            Some(advert) => advert.number + 1,
            None => 0,
        }
    }

    /// Whether an advert is newer than what the node has of its origin, or the node has none.
    pub(crate) fn is_news(&self, advert: &Advert) -> bool
        requires { advert.now.origin < length self.now }
        ensures { result ≡ is_news (slice_index_or self.now advert.now.origin None) advert.now }
    {
        match &self.adverts[usize::from(advert.origin.0)] {
            Some(kept) => kept.number < advert.number,
            None => true,
        }
    }

    /// Whether the advert of an origin lists the link.
    pub(crate) fn lists(&self, origin: NodeNo, link: LinkNo) -> bool
        requires { origin.0 < length self.now }
        ensures { result ≡ lists (slice_index_or self.now origin.0 None) link.0 }
    {
        match &self.adverts[usize::from(origin.0)] {
            Some(advert) => advert.lists(link),
            None => false,
        }
    }

    /// Keeps an advert in place of the one of its origin.
    pub(crate) fn keep(&mut self, advert: Advert)
        requires { advert.origin < length self.old }
        ensures { self.new ≡ slice_set self.old advert.origin (Some advert) }
    {
        let origin = usize::from(advert.origin.0);
        self.adverts[origin] = Some(advert);
    }
}
