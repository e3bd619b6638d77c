use thiserror::Error;

/// Why an event isn't done, in the order in which the causes are tried.
#[derive(Clone, Copy, Debug, PartialEq, Eq, Error)]
pub enum FloodBad {
    /// The link is up or down already, as it is to be.
    #[error("the link is so already")]
    Unchanged,
    /// A link is to change while 100,000 adverts fly, or more.
    #[error("too many adverts in flight")]
    FloodFull,
    /// An advert is to be received where none flies.
    #[error("no advert flies in this direction")]
    Empty,
    /// Memory was refused, in this call or an earlier one.
    #[error("out of memory")]
    NoMemory,
}
