use mn_base::{LinkNo, NodeNo, SiteNo};
use mn_drops::Rule;
use mn_topo::Dir;

/// What became of a packet. It takes 8 bytes: the time to live stands first, beside the tag.
#[derive(Clone, Copy, Debug, PartialEq, Eq)]
pub enum Verdict {
    /// It reached a site with this time to live. `copy` counts the deliveries up to this one.
    Delivered { ttl: u8, site: SiteNo, copy: u32 },
    /// It was dropped at a node.
    Dropped { rule: Rule, node: NodeNo },
    /// It is on its way over a link.
    Flying { link: LinkNo, dir: Dir },
}

const _: () = prove!(size_of::<Verdict>() == 8);
