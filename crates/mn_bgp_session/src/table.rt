// The table of a session's states: RFC 4271, section 8.2.2.
ghost use Rattle.std.specs.Prelude.{◌≡◌};
ghost use Rattle.mn_bgp_session.specs.Table.{kind_of, has_row, next_state, reply_in};

use mn_bgp_wire::BgpMessage;
use mn_states::BgpState;

/// The kind of a message.
#[derive(Clone, Copy, Debug, PartialEq, Eq)]
pub enum BgpKind {
    Opening,
    Update,
    Notification,
    KeepAlive,
}

/// What a message asks of the end that received it.
#[derive(Clone, Copy, Debug, PartialEq, Eq)]
pub struct BgpReply {
    /// A KEEPALIVE is to be sent.
    pub say_keep: bool,
    /// The end has become Established: its routes are to be advertised.
    pub became_established: bool,
}

/// The kind of a message.
pub(crate) fn kind_of(message: &BgpMessage) -> BgpKind
    ensures { result ≡ kind_of message.now }
{
    match message {
        BgpMessage::Opening { .. } => BgpKind::Opening,
        BgpMessage::Update(_) => BgpKind::Update,
        BgpMessage::Notification { .. } => BgpKind::Notification,
        BgpMessage::KeepAlive => BgpKind::KeepAlive,
    }
}

/// Whether the table has a row.
pub(crate) fn has_row(state: BgpState, kind: BgpKind) -> bool
    ensures { result ≡ has_row state kind }
{
    match (state, kind) {
        (BgpState::OpenSent, BgpKind::Opening) => true,
        (BgpState::OpenConfirm, BgpKind::KeepAlive) => true,
        (BgpState::Established, BgpKind::KeepAlive | BgpKind::Update) => true,
        _ => false,
    }
}

/// The state behind the row's.
pub(crate) fn next_state(state: BgpState) -> BgpState
    ensures { result ≡ next_state state }
{
    match state {
        BgpState::OpenSent => BgpState::OpenConfirm,
        BgpState::OpenConfirm => BgpState::Established,
        other => other,
    }
}

pub(crate) fn reply_in(state: BgpState) -> BgpReply
    ensures { result ≡ reply_in state }
{
    BgpReply {
        say_keep: state == BgpState::OpenSent,
        became_established: state == BgpState::OpenConfirm,
    }
}
