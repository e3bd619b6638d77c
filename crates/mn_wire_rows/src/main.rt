//! `mn_wire_rows`: rows of calls on the wire formats and on one end of a session, each with the answer that it must give.
//!
//! | File | Parts of its rows |
//! |---|---|
//! | `prefixes`, `packets` | `prefix`, `ipv4` |
//! | `frames` | `entry`, `frame` |
//! | `captures` | `pcap`, `scan` |
//! | `ldp`, `sessions` | `ldp`, `session` |
//! | `routes` | `route`, `targets` |
//! | `bgp`, `reflected`, `peers` | `bgp`, `reflected`, `peer` |
//!
//! `bytes` has bytes as the words of a row, and answers of all fronts of some bytes; `named` has values that a row names;
//! `text` has a route as text.
#![tactic(auto)]

mod bgp;
mod bytes;
mod captures;
mod frames;
mod ldp;
mod named;
mod packets;
mod peers;
mod prefixes;
mod reflected;
mod routes;
mod sessions;
mod text;

use bgp::bgp_row;
use captures::{pcap_row, scan_row};
use frames::{entry_row, frame_row};
use ldp::ldp_row;
use mn_bgp_session::BgpSession;
use mn_ldp_session::Session;
use mn_pcap::Scan;
use mn_rows::{Answer, Call, World, run};
use mn_stack::Frame;
use packets::ipv4_row;
use peers::{peer_row, second_edge};
use prefixes::prefix_row;
use reflected::reflected_row;
use routes::{route_row, target_row};
use sessions::{first_router, session_row};
use std::alloc::{AllocError, Global};
use std::io;
use std::process::ExitCode;

/// What the rows speak of.
#[derive(Drop)]
struct Wire {
    frame: Option<Frame>,
    scan: Scan,
    session: Session,
    peer: BgpSession,
}

impl World for Wire {
    fn new(alloc: Global) -> Result<Wire, AllocError> {
        Ok(Wire {
            frame: None,
            scan: Scan::new(alloc),
            session: first_router(),
            peer: second_edge(),
        })
    }

    fn answer(&mut self, alloc: Global, call: Call<'_>) -> Answer {
        match call.part() {
            b"prefix" => prefix_row(alloc, call),
            b"ipv4" => ipv4_row(alloc, call),
            b"entry" => entry_row(alloc, call),
            b"frame" => frame_row(alloc, &mut self.frame, call),
            b"pcap" => pcap_row(alloc, call),
            b"scan" => scan_row(alloc, &mut self.scan, call),
            b"ldp" => ldp_row(alloc, call),
            b"session" => session_row(alloc, &mut self.session, call),
            b"route" => route_row(alloc, call),
            b"targets" => target_row(alloc, call),
            b"bgp" => bgp_row(alloc, call),
            b"reflected" => reflected_row(alloc, call),
            b"peer" => peer_row(alloc, &mut self.peer, call),
            _ => Ok(None),
        }
    }
}

fn main(rt: HostRuntime) -> io::Result<ExitCode> {
    run::<Wire>(&rt)
}
