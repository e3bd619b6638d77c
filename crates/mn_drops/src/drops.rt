/// The rule by which a packet is dropped.
///
/// The first nine are tried in this order as a packet enters at a site.
#[derive(Clone, Copy, Debug, PartialEq, Eq)]
pub enum Rule {
    /// The site is detached.
    SiteDown,
    /// The packet is empty, or its version isn't 4 (RFC 791, section 3.1).
    NotIpv4,
    /// The header is said to be shorter than 20 bytes, or, where the bytes reach that field, longer than the total length.
    Malformed,
    /// Fewer bytes are there than the header or the packet is said to have.
    Truncated,
    /// The header's checksum is wrong (RFC 791, section 3.1).
    BadChecksum,
    /// The time to live doesn't let the packet go on.
    TtlExpired,
    /// The destination is in 0.0.0.0/8, 127.0.0.0/8, 224.0.0.0/4 or 240.0.0.0/4.
    NotUnicast,
    /// No route that the VRF holds contains the destination.
    NoRoute,
    /// The packet's entry node has no label path to the route's edge (RFC 3031, section 3.15).
    NoLsp,
    /// A node on the way has no label path to the route's edge.
    NoEntry,
    /// The attachment for which the packet was bound has ended.
    SiteGone,
    /// The frame was lost on a link.
    Lost,
    /// The link went down under the frame.
    LinkCut,
    /// The frame was on the link for longer than the link's life.
    Overdue,
}
