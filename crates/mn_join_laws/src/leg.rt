//! The legs of a packet.

/// One of two networks that are joined.
#[derive(Clone, Copy, Debug, PartialEq, Eq)]
pub enum Which {
    First,
    Second,
}

/// A leg of a packet: an injection, by its network and its number there.
#[derive(Clone, Copy, Debug, PartialEq, Eq)]
pub struct Leg {
    pub which: Which,
    /// From 0.
    pub packet: u32,
}
