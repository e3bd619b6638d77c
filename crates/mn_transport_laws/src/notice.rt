//! What flies on a notice's channel.

/// That a link has changed, on its way to a node.
#[derive(Clone, Copy, Debug, PartialEq, Eq)]
pub struct Notice {}
