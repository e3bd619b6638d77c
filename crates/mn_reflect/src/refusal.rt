use mn_base::SiteNo;
use thiserror::Error;

/// Why a step isn't done. All but the last are tried in this order.
#[derive(Clone, Copy, Debug, PartialEq, Eq, Error)]
pub enum ReflectBad {
    /// The session, target or attachment is already so.
    #[error("unchanged")]
    Unchanged,
    /// No message flies from the one node to the other.
    #[error("nothing to hear")]
    Empty,
    /// The site's VRF has the prefix over a site.
    #[error("the prefix is there")]
    PrefixTaken { site: SiteNo },
    /// The site's VRF hasn't the prefix over the site.
    #[error("no such route")]
    NoRouteThere,
    /// There are as many routes over sites as there may be.
    #[error("too many routes")]
    RoutesFull,
    /// The set has as many targets as one may have.
    #[error("too many targets")]
    TargetsFull,
    /// The site's edge has given all labels.
    #[error("no label is left")]
    LabelsSpent,
    /// As many messages fly as may.
    #[error("too many messages in flight")]
    NetFull,
    /// There was no memory for the step. Each later step is answered so.
    #[error("no memory")]
    NoMemory,
}
