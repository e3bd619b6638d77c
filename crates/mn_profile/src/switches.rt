/// Which of several next hops of equal cost packets are sent to.
#[derive(Clone, Copy, Debug, PartialEq, Eq)]
pub enum EqualCost {
    /// The neighbour of least number.
    Least,
    /// Each packet to any of those that gave a label.
    All,
    /// Each node has taken one of them, and nobody knows which.
    Any,
}

/// Which routes of other edges take part where the best for an address is sought.
#[derive(Clone, Copy, Debug, PartialEq, Eq)]
pub enum Resolve {
    /// As the topology says: all, or those to whose edge labels lead.
    AsTopology,
    /// All.
    Never,
    /// Those to whose edge links lead.
    ByRoute,
    /// Those to whose edge labels lead.
    ByLabel,
}

/// For what a VPN label stands.
#[derive(Clone, Copy, Debug, PartialEq, Eq)]
pub enum LabelMode {
    /// For a site: the packet is delivered there.
    PerSite,
    /// For a VRF: the packet is looked up again in it.
    PerVrf,
}

/// How all routers of a network choose.
#[derive(Clone, Copy, Debug, PartialEq, Eq)]
pub struct Profile {
    pub equal: EqualCost,
    pub resolve: Resolve,
    /// A link without LDP costs the most that a link can.
    pub sync: bool,
    pub labels: LabelMode,
}
