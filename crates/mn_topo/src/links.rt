//! The links.
ghost use Rattle.std.specs.Prelude.{◌≡◌, ◌<◌, ◌^◌, ◌++◌, ◌∷◌, [], false, length, position, OnOk, IfSome, is_some};
ghost use Rattle.mn_topo.specs.Links.{joins, are_joined};

use mn_wiring::LinkEnds;
use std::alloc::{AllocError, Global};
use std::collections::HashMap;
use std::marker::Model;

/// The links in order, and the number of each by the pair of nodes that it joins.
pub struct Links {
    links: Vec<LinkEnds>,
    pairs: HashMap<(u16, u16), u16>,
}

impl Model for Links {
    ghost use Rattle.std.specs.Prelude.{◌≤◌, ◌^◌, List, length};
    ghost use Rattle.mn_wiring.specs.declared.links.LinkEnds.{LinkEnds};
    ghost use Rattle.mn_topo.specs.Numbers.{ArePairs};

    ghost Value = { List LinkEnds };

    ghost view = { λ a. a.links.items };

    ghost invariant = { λ a. ArePairs a.pairs a.links.items × (length a.links.items ≤ 2 ^ 16) };
}

/// By hand, so that whoever owns them drops them by one call.
impl Drop for Links {
    fn drop(self) {
        let Links { links: _, pairs: _ } = self;
    }
}

impl Links {
    /// No links.
    pub fn new(alloc: Global) -> Links
        ensures { result ≡ [] }
    {
        Links {
            links: Vec::new(alloc),
            pairs: HashMap::new(alloc),
        }
    }

    /// The links in order.
    pub fn as_slice(&self) -> &[LinkEnds]
        ensures { result.now ≡ self.now }
    {
        &self.links
    }

    /// The link that joins two nodes.
    pub fn joining(&self, m: u16, n: u16) -> Option<u16>
        ensures value { result ≡ position (joins m n) self.now }
        ensures within { IfSome result (λ l. l < length self.now) }
        ensures found { is_some result ≡ are_joined self.now m n }
    {
        self.pairs.get(&(m.min(n), m.max(n))).copied()
    }

    /// Whether a link joins the two nodes.
    pub fn are_joined(&self, m: u16, n: u16) -> bool
        ensures { result ≡ are_joined self.now m n }
    {
        self.pairs.contains_key(&(m.min(n), m.max(n)))
    }

    /// Adds a link, between two nodes that no link joins.
    pub fn put(&mut self, link: LinkEnds) -> Result<(), AllocError>
        requires room { length self.old < 2 ^ 16 }
        requires fresh { are_joined self.old link.a.0 link.b.0 ≡ false }
        ensures { OnOk result (self.new ≡ self.old ++ link ∷ []) }
    {
        let (a, b) = (link.a.0, link.b.0);
        let number = self.links.len() as u16;
        self.links.reserve(1)?;
        self.pairs.insert((a.min(b), a.max(b)), number)?;
        self.links.push(link)?;
        Ok(())
    }
}
