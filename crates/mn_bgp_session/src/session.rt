// One end, which receives one message after another.
ghost use Rattle.std.specs.Prelude.{◌≡◌};
ghost use Rattle.mn_states.specs.declared.states.BgpState.TheVariants.{OpenSent};
ghost use Rattle.mn_bgp_session.specs.Table.{is_of_peer, answer_in, after_message};

use crate::table::{has_row, kind_of, next_state, reply_in};
use crate::{BgpBad, BgpReply};
use mn_bgp_wire::BgpMessage;
use mn_states::BgpState;

/// One end of a session.
#[derive(Clone, Copy, Debug, PartialEq, Eq)]
pub struct BgpSession {
    pub(crate) asn: u16,
    pub(crate) me: u32,
    pub(crate) peer: u32,
    pub(crate) state: BgpState,
}

impl BgpSession {
    /// An end that has sent OPEN: of an AS, with its own address and the peer's.
    pub fn open(asn: u16, me: u32, peer: u32) -> BgpSession
        ensures { result ≡ record { asn = asn; me = me; peer = peer; state = OpenSent } }
    {
        BgpSession {
            asn,
            me,
            peer,
            state: BgpState::OpenSent,
        }
    }

    /// Takes a message. An `Err` changes nothing.
    pub fn hear(&mut self, message: &BgpMessage) -> Result<BgpReply, BgpBad>
        ensures answer { result ≡ answer_in self.old message.now }
        ensures after { self.new ≡ after_message self.old message.now }
    {
        let state = self.state;
        let kind = kind_of(message);
        if !has_row(state, kind) {
            return Err(BgpBad::Unexpected { state, kind });
        }
        if !self.is_of_peer(message) {
            return Err(BgpBad::BadPeer);
        }
        self.state = next_state(state);
        Ok(reply_in(state))
    }

    /// The state.
    pub fn state(&self) -> BgpState
        ensures { result ≡ self.now.state }
    {
        self.state
    }

    /// Whether an OPEN is of this AS and peer, which takes VPN-IPv4 routes.
    fn is_of_peer(&self, message: &BgpMessage) -> bool
        ensures { result ≡ is_of_peer self.now message.now }
    {
        match message {
            BgpMessage::Opening { asn, id, vpn, .. } => {
                *asn == self.asn && *id == self.peer && *vpn
            }
            _ => true,
        }
    }
}
