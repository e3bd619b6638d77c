use thiserror::Error;

/// Why bytes aren't a route or targets, in the order in which the rules of a route are tried.
#[derive(Clone, Copy, Debug, PartialEq, Eq, Error)]
pub enum NlriBad {
    /// No byte is there; and, tried behind `BadLength`, the bytes end within the route. Of targets: the length isn't a
    /// multiple of eight.
    #[error("cut short")]
    Short,
    /// The length in bits is below 88 or above 120.
    #[error("a route of no such length")]
    BadLength,
    /// The type of the route distinguisher is neither 0 nor 1.
    #[error("a route distinguisher of unknown type")]
    BadRd,
    /// A bit past the prefix's length is set.
    #[error("a prefix with host bits")]
    HostBits,
    /// There was no memory for the answer.
    #[error("no memory")]
    NoMemory,
}
