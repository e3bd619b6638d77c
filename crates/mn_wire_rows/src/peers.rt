//! One end of a BGP session: at 192.0.2.3 of AS 65000, with 192.0.2.1.
use crate::bgp::message_from;
use mn_bgp_session::{BgpBad, BgpKind, BgpReply, BgpSession};
use mn_bgp_wire::read_bgp;
use mn_rows::{Answer, Call, displayed, shown};
use mn_states::BgpState;
use std::alloc::Global;

/// The end at 192.0.2.3, which has sent OPEN.
pub(crate) fn second_edge() -> BgpSession {
    BgpSession::open(65_000, 0xC000_0203, 0xC000_0201)
}

/// What an end is to say, `keep` for a KEEPALIVE and `routes` for its routes, and its state then.
fn answered(alloc: Global, heard: Result<BgpReply, BgpBad>, state: BgpState) -> Answer {
    let text = match heard {
        Err(bad) => format!(in alloc; "{bad:?} {state:?}")?,
        Ok(reply) => {
            let keep = if reply.say_keep { "keep " } else { "" };
            let routes = if reply.became_established {
                "routes "
            } else {
                ""
            };
            format!(in alloc; "{keep}{routes}{state:?}")?
        }
    };
    Ok(Some(text))
}

fn hear(alloc: Global, peer: &mut BgpSession, call: Call<'_>) -> Answer {
    let Some(bytes) = message_from(alloc, call)? else {
        return Ok(None);
    };
    match read_bgp(alloc, &bytes) {
        Ok(message) => {
            let heard = peer.hear(&message);
            answered(alloc, heard, peer.state())
        }
        Err(bad) => shown(alloc, &bad),
    }
}

fn open(alloc: Global, peer: &mut BgpSession) -> Answer {
    *peer = second_edge();
    shown(alloc, &peer.state())
}

fn says(alloc: Global, call: Call<'_>) -> Answer {
    match call.word(2) {
        Some(b"Unexpected") => displayed(
            alloc,
            &BgpBad::Unexpected {
                state: BgpState::OpenSent,
                kind: BgpKind::Update,
            },
        ),
        Some(b"BadPeer") => displayed(alloc, &BgpBad::BadPeer),
        _ => Ok(None),
    }
}

pub(crate) fn peer_row(alloc: Global, peer: &mut BgpSession, call: Call<'_>) -> Answer {
    match call.verb() {
        b"open" => open(alloc, peer),
        b"hear" => hear(alloc, peer, call),
        b"says" => says(alloc, call),
        _ => Ok(None),
    }
}
