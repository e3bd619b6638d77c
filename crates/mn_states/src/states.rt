/// The state of one end of an LDP session (RFC 5036, section 2.5.4).
#[derive(Clone, Copy, Debug, PartialEq, Eq)]
pub enum LdpState {
    /// The passive end, which has received nothing yet.
    Initialized,
    /// The active end, which has sent its Initialization and received nothing yet.
    OpenSent,
    /// The other end's Initialization was received.
    OpenRec,
    /// A KeepAlive was received too: labels are exchanged.
    Operational,
}

/// The state of one end of a BGP session (RFC 4271, section 8.2.2).
#[derive(Clone, Copy, Debug, PartialEq, Eq)]
pub enum BgpState {
    /// There is no session.
    Idle,
    /// OPEN was sent.
    OpenSent,
    /// The peer's OPEN was received.
    OpenConfirm,
    /// A KEEPALIVE was received too: routes are exchanged.
    Established,
}
