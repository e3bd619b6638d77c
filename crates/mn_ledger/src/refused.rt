use mn_base::SiteNo;

/// Why a step is refused: the first of these causes that holds.
#[derive(Clone, Copy, Debug, PartialEq, Eq)]
pub enum Refused {
    /// The link, LDP switch, BGP session, target or attachment is already so.
    Unchanged,
    /// Nothing is there to be learned, received, carried or lost.
    Empty,
    /// The damaged message can be read; the ledger says so of no step.
    StillReads,
    /// The VRF has the prefix already, at this site.
    PrefixTaken { site: SiteNo },
    /// The VRF hasn't the prefix at the site.
    NoRouteThere,
    /// The network has 65,536 static routes, those of detached sites among them.
    RoutesFull,
    /// The set has 16 targets.
    TargetsFull,
    /// The attachments that the node's sites have had and the other nodes make 1,048,560.
    LabelsSpent,
    /// 2,000,000 notices and messages are in flight, and the step takes nothing out of flight; or the packet's bytes and
    /// those of all flying packets would pass 268,435,456.
    NetFull,
    /// The journal has 4,000,000 steps.
    TooManySteps,
    /// Memory ran out; the ledger never says so.
    NoMemory,
}
