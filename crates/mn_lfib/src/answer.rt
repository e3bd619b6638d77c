use mn_base::{NodeNo, SiteNo};
use mn_drops::Rule;

/// What becomes of a frame at a node.
#[derive(Clone, Copy, Debug, PartialEq, Eq)]
pub enum Forwarded {
    /// It goes on to this neighbour.
    Next(NodeNo),
    /// Its packet goes to this site.
    Site(SiteNo),
    /// It is dropped by this rule.
    Drop(Rule),
}

/// What a label is used for.
#[derive(Clone, Copy, Debug, PartialEq, Eq)]
pub enum Use {
    /// A FEC: the next hop, and the label to be sent there; 3 says that none is (RFC 3032, section 2.1).
    Fec(NodeNo, u32),
    /// An attachment of a site.
    Site(SiteNo),
    /// An attachment that has ended.
    Ended,
}
