//! One end of an LDP session: of 192.0.2.1 with 192.0.2.2, unless a row opens another.
use crate::bytes::bytes_from;
use crate::ldp::{body_from, ldp_id};
use crate::named::named;
use mn_ldp_session::{LdpKind, Reply, Session, SessionBad, kind_of};
use mn_ldp_wire::{LdpMessage, read_pdu};
use mn_rows::{Answer, Call, displayed, done, shown};
use mn_states::LdpState;
use std::alloc::Global;

const STATES: [LdpState; 4] = [
    LdpState::Initialized,
    LdpState::OpenSent,
    LdpState::OpenRec,
    LdpState::Operational,
];

/// The end at 192.0.2.1, which has received nothing.
pub(crate) fn first_router() -> Session {
    Session {
        me: 0xC000_0201,
        peer: 0xC000_0202,
        state: LdpState::Initialized,
    }
}

/// The end at 192.0.2.1 in a state.
fn put_in(alloc: Global, session: &mut Session, call: Call<'_>) -> Answer {
    let Some(state) = named(alloc, call, &STATES)? else {
        return Ok(None);
    };
    *session = Session {
        state,
        ..first_router()
    };
    done(alloc)
}

/// An end whose session begins.
fn open(alloc: Global, session: &mut Session, call: Call<'_>) -> Answer {
    match (call.address(2), call.address(3)) {
        (Some(me), Some(peer)) if me != peer => {
            *session = Session::open(me, peer);
            shown(alloc, &session.state())
        }
        _ => Ok(None),
    }
}

/// What an end is to say, as `keep` for a KeepAlive, and its state then.
fn answered(alloc: Global, heard: Result<Reply, SessionBad>, state: LdpState) -> Answer {
    let text = match heard {
        Err(bad) => format!(in alloc; "{bad:?} {state:?}")?,
        Ok(reply) => {
            let init = if reply.says_initialization() {
                "init "
            } else {
                ""
            };
            let keep = if reply.says_keepalive() { "keep " } else { "" };
            let began = if reply.begins() { "began " } else { "" };
            format!(in alloc; "{init}{keep}{began}{state:?}")?
        }
    };
    Ok(Some(text))
}

fn hear(alloc: Global, session: &mut Session, call: Call<'_>) -> Answer {
    let (Some(from), Some(body)) = (ldp_id(call, 2), body_from(alloc, call, 3)?) else {
        return Ok(None);
    };
    let heard = session.hear(from, &LdpMessage { id: 1, body });
    answered(alloc, heard, session.state())
}

/// The first message of a PDU.
fn hear_bytes(alloc: Global, session: &mut Session, call: Call<'_>) -> Answer {
    let Some(bytes) = bytes_from(alloc, call, 2)? else {
        return Ok(None);
    };
    let Ok(pdu) = read_pdu(alloc, &bytes) else {
        return Ok(None);
    };
    match pdu.messages() {
        [message] => {
            let heard = session.hear(pdu.from(), message);
            answered(alloc, heard, session.state())
        }
        _ => Ok(None),
    }
}

fn kind(alloc: Global, call: Call<'_>) -> Answer {
    match body_from(alloc, call, 2)? {
        Some(body) => shown(alloc, &kind_of(&body)),
        None => Ok(None),
    }
}

fn says(alloc: Global, call: Call<'_>) -> Answer {
    match call.word(2) {
        Some(b"Unexpected") => displayed(
            alloc,
            &SessionBad::Unexpected {
                state: LdpState::OpenSent,
                kind: LdpKind::KeepAlive,
            },
        ),
        Some(b"BadParameters") => displayed(alloc, &SessionBad::BadParameters),
        _ => Ok(None),
    }
}

pub(crate) fn session_row(alloc: Global, session: &mut Session, call: Call<'_>) -> Answer {
    match call.verb() {
        b"in" => put_in(alloc, session, call),
        b"open" => open(alloc, session, call),
        b"first" => shown(alloc, &session.first()),
        b"hear" => hear(alloc, session, call),
        b"hear_bytes" => hear_bytes(alloc, session, call),
        b"kind" => kind(alloc, call),
        b"says" => says(alloc, call),
        _ => Ok(None),
    }
}
