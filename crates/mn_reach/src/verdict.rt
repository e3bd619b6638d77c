//! What becomes of a pair's packets.
ghost use Rattle.std.specs.Prelude.{◌≡◌, ◌≤◌, ◌++◌, ◌∷◌, [], OnOk};
ghost use Rattle.mn_ledger.specs.Held.{HeldRoute};
ghost use Rattle.mn_reach_laws.specs.Fates.{ends_along};
ghost use Rattle.mn_reach.specs.Plans.{numbers_of};
ghost use Rattle.mn_reach.specs.Verdicts.{fate_as};

use mn_base::{NodeNo, SiteNo};
use mn_drops::Rule;
use std::alloc::{AllocError, Global};

/// On what terms packets are sent.
#[derive(Clone, Copy)]
pub struct Terms {
    /// Their time to live, 2 to 255.
    pub ttl: u32,
    /// Whether routes to whose edge no label path leads stand aside for the others.
    pub resolve: bool,
}

/// Where packets end.
#[derive(Clone, Copy)]
pub enum End {
    /// Delivered at a site, with this time to live.
    Arrives { site: SiteNo, ttl: u32 },
    /// Dropped at a node.
    Falls { rule: Rule, node: NodeNo },
}

/// Where packets end, and the nodes at which they were.
#[derive(Drop)]
pub struct Verdict {
    pub end: End,
    pub path: Vec<NodeNo>,
}

impl Verdict {
    /// A verdict that is still to be filled.
    pub fn new(alloc: Global) -> Verdict
        ensures { result.path.items ≡ [] }
    {
        Verdict {
            end: End::Falls {
                rule: Rule::NoRoute,
                node: NodeNo(0),
            },
            path: Vec::new(alloc),
        }
    }

    /// They are dropped at a node by this rule, and the node is their path's last.
    pub(crate) fn fall(&mut self, rule: Rule, node: NodeNo) -> Result<(), AllocError>
        ensures { OnOk result (fate_as self.new ≡ Falls rule node.0 (numbers_of self.old.path.items ++ node.0 ∷ [])) }
    {
        self.path.push(node)?;
        self.end = End::Falls { rule, node };
        Ok(())
    }

    /// They go along the path to the site of a route, unless their time to live ends on the way.
    pub(crate) fn end_along(&mut self, site: SiteNo, ttl: u32)
        requires least { 2 ≤ ttl }
        requires most { ttl ≤ 255 }
        ensures { (route : HeldRoute) → route.site ≡ site.0 → fate_as self.new ≡ ends_along route ttl (numbers_of self.old.path.items) }
    {
        let nodes = self.path.len();
        if nodes < ttl as usize {
            self.end = End::Arrives {
                site,
                ttl: ttl - nodes as u32,
            };
        } else {
            self.end = End::Falls {
                rule: Rule::TtlExpired,
                node: self.path[ttl as usize - 1],
            };
            self.path.truncate(ttl as usize);
        }
    }
}

ghost use Rattle.mn_fate_laws.specs.Fate.{Falls};
