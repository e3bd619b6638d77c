//! `net do` does the steps and drains of the text, and tells which lines were refused; `net routes COUNT` adds so many. What
//! the network tells: `net steps`, `net tick`, `net packet NUMBER`, `net delivered`, `net given NODE NUMBER`.
use crate::driven::{add_routes, do_script};
use crate::told::{given, packet};
use mn_net::Net;
use mn_rows::{Answer, Call, in_hex, shown};
use std::alloc::Global;

fn delivered(alloc: Global, net: &Net) -> Answer {
    match net.delivered() {
        Some(bytes) => Ok(Some(in_hex(alloc, bytes)?)),
        None => Ok(Some(String::from_str(alloc, "nothing")?)),
    }
}

fn routes(alloc: Global, net: &mut Net, count: Option<u32>) -> Answer {
    match count {
        Some(count) => shown(alloc, &add_routes(net, count)),
        None => Ok(None),
    }
}

pub(crate) fn net_row(alloc: Global, net: &mut Net, record: &[u8], call: Call<'_>) -> Answer {
    match call.verb() {
        b"do" => do_script(alloc, net, call.text(), record),
        b"routes" => routes(alloc, net, call.number_u32(2)),
        b"steps" => shown(alloc, &net.journal().len()),
        b"tick" => shown(alloc, &net.tick()),
        b"packet" => packet(alloc, net, call.number_u32(2)),
        b"delivered" => delivered(alloc, net),
        b"given" => given(alloc, net, call.node(2), call.number_u32(3)),
        _ => Ok(None),
    }
}
