use mn_base::SiteNo;
use thiserror::Error;

/// Why a VRF isn't changed.
#[derive(Clone, Copy, Debug, PartialEq, Eq, Error)]
pub enum VrfBad {
    /// The VRF has the prefix, over this site, attached or not.
    #[error("the VRF has the prefix over site {}", site.0)]
    PrefixTaken { site: SiteNo },
    /// The VRF hasn't the prefix over the site.
    #[error("the VRF hasn't the prefix over this site")]
    NoRouteThere,
    /// The set is so already.
    #[error("the set is so already")]
    Unchanged,
    /// The set has 16 targets.
    #[error("the set has 16 targets")]
    TargetsFull,
    /// There was no memory.
    #[error("no memory")]
    NoMemory,
}
