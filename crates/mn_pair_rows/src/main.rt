//! Two providers that are joined VRF to VRF, tried: a packet is sent at a site of the first, to a site of the second.
//!
//! ```text
//! a --- pe1 ----- p ----- pe2 --- b = a --- pe1 ----- p ----- pe2 --- b      10.9.0.0/16
//! ```
//!
//! With TTL 64 and 7 it arrives, less 6; with TTL 6 it expires at the last node of the second.
#![tactic(auto)]

use mn_base::{LinkNo, NodeNo, SiteNo};
use mn_join::{Pair, PairBad, Played, Which};
use mn_ledger::{Refused, Verdict};
use mn_net::Net;
use mn_prefix::Prefix;
use mn_script::Command;
use mn_test_nets::row;
use mn_topo::Step;
use std::alloc::{AllocError, Global};
use std::io;

/// From 10.1.0.1 to 10.9.0.1 with a TTL, and the header's checksum.
fn packet(ttl: u8, checksum: u16) -> [u8; 28] {
    let [high, low] = checksum.to_be_bytes();
    [
        0x45, 0, 0, 28, 0, 0, 0, 0, ttl, 17, high, low, 10, 1, 0, 1, 10, 9, 0, 1, 0, 53, 0, 53, 0,
        8, 0, 0,
    ]
}

/// Two such networks, joined at site b of the first and site a of the second.
fn joined(alloc: Global) -> Result<Pair, AllocError> {
    let first = row(alloc)?;
    let second = row(alloc)?;
    Pair::new(alloc, first, second, &[(SiteNo(1), SiteNo(0))])
}

/// Does a step of one of the networks.
fn done(pair: &mut Pair, which: Which, step: Step, packet: &[u8]) -> Result<Played, PairBad> {
    if !pair.net(which).topology().fits(&step) {
        return Ok(Played::Refused(Refused::Empty));
    }
    pair.play(which, &Command::Do(step), packet)
}

/// Site b gets a route to 10.9.0.0/16, the links and the session come up, and all is learned and received.
fn settle(pair: &mut Pair, which: Which) -> Result<(), PairBad> {
    if let Some(prefix) = Prefix::new(0x0A09_0000, 16) {
        done(pair, which, Step::AddRoute(SiteNo(1), prefix), &[])?;
    }
    done(pair, which, Step::LinkUp(LinkNo(0)), &[])?;
    done(pair, which, Step::LinkUp(LinkNo(1)), &[])?;
    done(pair, which, Step::BgpUp(NodeNo(0), NodeNo(2)), &[])?;
    pair.play(which, &Command::Drain(None), &[])?;
    Ok(())
}

/// The packet is sent at site a of the first network, and goes over both.
fn cross(pair: &mut Pair, packet: &[u8]) -> Result<(), PairBad> {
    settle(pair, Which::First)?;
    settle(pair, Which::Second)?;
    done(pair, Which::First, Step::Inject(SiteNo(0), 1), packet)?;
    pair.play(Which::First, &Command::Flush, &[])?;
    pair.play(Which::Second, &Command::Flush, &[])?;
    Ok(())
}

/// What became of an injection.
fn verdict(net: &Net, packet: u32) -> Option<Verdict> {
    if !net.works() {
        return None;
    }
    net.laws();
    if packet >= net.packets() {
        return None;
    }
    Some(net.verdict(packet))
}

/// Prints the legs of the packet, each with its verdict, and what came out.
fn tell(rt: HostRuntime, pair: &Pair) -> io::Result<()> {
    if pair.packets() == 0 {
        return println!(rt; "no packet");
    }
    for leg in pair.legs(0) {
        let became = verdict(pair.net(leg.which), leg.packet);
        println!(rt; "{leg:?} {became:?}")?;
    }
    if let Some(why) = pair.refused(0) {
        println!(rt; "refused {why:?}")?;
    }
    let Some(out) = pair.delivery(0) else {
        return println!(rt; "nothing came out");
    };
    let (which, site, tick) = (out.which, out.site, out.tick);
    let header = out.bytes.get(8..12);
    println!(rt; "{which:?} {site:?} tick {tick} {header:?}")
}

fn run(rt: HostRuntime, ttl: u8, checksum: u16) -> io::Result<()> {
    println!(rt; "ttl {ttl}")?;
    let Ok(mut pair) = joined(rt.alloc()) else {
        return println!(rt; "memory ran out");
    };
    match cross(&mut pair, &packet(ttl, checksum)) {
        Ok(()) => tell(rt, &pair),
        Err(bad) => println!(rt; "{bad:?}"),
    }
}

fn main(rt: HostRuntime) -> io::Result<()> {
    run(rt, 64, 0x66C6)?;
    run(rt, 7, 0x9FC6)?;
    run(rt, 6, 0xA0C6)
}
