ghost use Rattle.std.specs.Prelude.{◌≡◌, ◌≢◌, None, Some, true, false, IfSome, IfOk, IfErr, OnOk, OnErr};
ghost use Rattle.mn_ldp_session.specs.Table.{kind_of, opened, refusal, is_from, is_acceptable, row, first_kind, says_initialization, says_keepalive, begins};

use crate::kind::{LdpKind, kind_of};
use crate::refusal::SessionBad;
use mn_ldp_wire::{LdpBody, LdpId, LdpMessage};
use mn_states::LdpState;

/// The version of the protocol: RFC 5036, section 3.5.3.
const VERSION: u16 = 1;

/// What an end is to say as its session begins, and to a message.
#[derive(Clone, Copy, Debug, PartialEq, Eq)]
pub enum Reply {
    /// Nothing.
    Nothing,
    /// Its Initialization: so the active end begins.
    Initialization,
    /// Its Initialization, and then a KeepAlive.
    Both,
    /// A KeepAlive.
    KeepAlive,
    /// The session is OPERATIONAL: an Address is to be sent, and a Mapping of each FEC that is offered.
    Begins,
}

impl Reply {
    /// Whether its Initialization is sent.
    pub fn says_initialization(self) -> bool
        ensures { result ≡ says_initialization self }
    {
        matches!(self, Reply::Initialization | Reply::Both)
    }

    /// Whether a KeepAlive is sent.
    pub fn says_keepalive(self) -> bool
        ensures { result ≡ says_keepalive self }
    {
        matches!(self, Reply::Both | Reply::KeepAlive)
    }

    /// Whether the session became OPERATIONAL.
    pub fn begins(self) -> bool
        ensures { result ≡ begins self }
    {
        matches!(self, Reply::Begins)
    }
}

/// One end of a session between two routers, each named by its loopback.
#[derive(Clone, Copy, Debug, PartialEq, Eq)]
pub struct Session {
    /// Its own loopback.
    pub me: u32,
    /// The other end's.
    pub peer: u32,
    /// Where it stands in the table.
    pub state: LdpState,
}

/// Whether the sender is this peer, for the labels of the whole router: RFC 5036, section 2.2.2.
fn is_from(peer: u32, from: LdpId) -> bool
    ensures { result ≡ is_from peer from }
{
    from.lsr == peer && from.space == 0
}

/// Whether an Initialization asks for a session that this end takes part in.
fn is_acceptable(me: u32, body: &LdpBody) -> bool
    ensures { result ≡ is_acceptable me body.now }
{
    match body {
        LdpBody::Initialization {
            version,
            keepalive,
            receiver,
            ..
        } => *version == VERSION && *keepalive != 0 && is_from(me, *receiver),
        _ => true,
    }
}

/// The table: what is sent, and the state then; none where it has no row (RFC 5036, section 2.5.4).
fn row(state: LdpState, kind: LdpKind) -> Option<(Reply, LdpState)>
    ensures { result ≡ row state kind }
{
    use LdpState::{Initialized, OpenRec, OpenSent, Operational};

    match (state, kind) {
        (Initialized, LdpKind::Initialization) => Some((Reply::Both, OpenRec)),
        (OpenSent, LdpKind::Initialization) => Some((Reply::KeepAlive, OpenRec)),
        (OpenRec, LdpKind::KeepAlive) => Some((Reply::Begins, Operational)),
        (Operational, LdpKind::KeepAlive) => Some((Reply::Nothing, Operational)),
        (Operational, LdpKind::Address) => Some((Reply::Nothing, Operational)),
        (Operational, LdpKind::Mapping) => Some((Reply::Nothing, Operational)),
        (Operational, LdpKind::Withdraw) => Some((Reply::Nothing, Operational)),
        (Operational, LdpKind::Release) => Some((Reply::Nothing, Operational)),
        _ => None,
    }
}

impl Session {
    /// An end whose session begins, between two different loopbacks: the greater one is active (RFC 5036, section 2.5.2).
    pub fn open(me: u32, peer: u32) -> Session
        requires { me ≢ peer }
        ensures { result ≡ opened me peer }
    {
        let state = if me > peer {
            LdpState::OpenSent
        } else {
            LdpState::Initialized
        };
        Session { me, peer, state }
    }

    /// What an end says as its session begins: the active one its Initialization.
    pub fn first(&self) -> Option<LdpKind>
        ensures { result ≡ first_kind self.now }
    {
        match self.state {
            LdpState::OpenSent => Some(LdpKind::Initialization),
            _ => None,
        }
    }

    /// The state of the end.
    pub fn state(&self) -> LdpState
        ensures { result ≡ self.now.state }
    {
        self.state
    }

    /// Receives a message of this sender.
    ///
    /// `Unexpected` comes exactly where the table has no row for the state and the message's kind, and `BadParameters`
    /// exactly where it has one, and the sender isn't the peer with label space 0, or an Initialization isn't for version
    /// 1, has no keepalive time, or is for another receiver (RFC 5036, section 3.5.3). An `Err` changes nothing.
    pub fn hear(&mut self, from: LdpId, message: &LdpMessage) -> Result<Reply, SessionBad>
        ensures accepted { OnOk result (refusal self.old from message.now.body ≡ None) }
        ensures refused { IfErr result (λ bad. refusal self.old from message.now.body ≡ Some bad) }

        // What is sent and the state then are those of the table's row; the addresses stay.
        ensures table { IfOk result (λ reply. row self.old.state (kind_of message.now.body) ≡ Some (reply, self.new.state)) }
        ensures ends { OnOk result (self.new ≡ record self.old { state = self.new.state }) }
        ensures unchanged { OnErr result (self.new ≡ self.old) }
    {
        let kind = kind_of(&message.body);
        match row(self.state, kind) {
            None => Err(SessionBad::Unexpected {
                state: self.state,
                kind,
            }),
            Some((reply, state)) => {
                if !is_from(self.peer, from) || !is_acceptable(self.me, &message.body) {
                    return Err(SessionBad::BadParameters);
                }
                self.state = state;
                Ok(reply)
            }
        }
    }
}
