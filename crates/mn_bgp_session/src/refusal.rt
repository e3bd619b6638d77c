use crate::BgpKind;
use mn_states::BgpState;
use thiserror::Error;

/// Why a message isn't taken.
#[derive(Clone, Copy, Debug, PartialEq, Eq, Error)]
pub enum BgpBad {
    /// The table has no row for the state and the message's kind.
    #[error("a message that is not expected in this state")]
    Unexpected { state: BgpState, kind: BgpKind },
    /// An OPEN of another AS or speaker, or of one that doesn't take VPN-IPv4 routes.
    #[error("an OPEN of another AS or speaker, or one without VPN-IPv4 routes")]
    BadPeer,
}
