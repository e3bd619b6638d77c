//! Memory first, tried: a hundred frames fly, room is made for a hundred steps, and a hundred steps carry or lose them.
//!
//! Status 0 where all were done, 1 where memory ran out before the room was made, 7 where it ran out afterwards, which
//! `Net::step` says can't be, and 8 where a step was refused for another cause. With each allocation failing in turn
//! (`scripts/try-memory`) it ends by 0 or 1.
#![tactic(auto)]

ghost use Rattle.std.specs.Prelude.{◌≡◌, true, IsErrOf};
ghost use Rattle.mn_ledger.specs.declared.refused.Refused.TheVariants as why;
ghost use Rattle.mn_net_laws.specs.Now.{HasRoom};
ghost use Rattle.mn_net_laws.specs.Done.{TakesOne, is_of_frames};

use mn_base::{LinkNo, NodeNo, SiteNo};
use mn_course_laws::Kind;
use mn_ledger::Refused;
use mn_net::Net;
use mn_test_nets::row;
use mn_topo::Step;
use mn_wiring::Dir;
use std::alloc::Global;
use std::process::ExitCode;

/// Frames that fly, and steps for which room is made.
const FRAMES: u32 = 100;

/// More than the network of two links takes to settle.
const MOST_TURNS: u32 = 1000;

/// From 10.1.0.1 to 10.2.0.1.
const PACKET: [u8; 28] = [
    0x45, 0, 0, 0x1C, 0, 0, 0, 0, 0x40, 0x11, 0x66, 0xCD, 0x0A, 1, 0, 1, 0x0A, 2, 0, 1, 0, 0x35, 0,
    0x35, 0, 8, 0, 0,
];

/// Does a step of the topology.
fn done(net: &mut Net, step: Step, packet: &[u8]) -> Result<(), Refused>
    ensures room { is_of_frames step ≡ true → TakesOne net.old net.new result }
{
    if !net.topology().fits(&step) {
        return Err(Refused::Empty);
    }
    net.step(step, packet)?;
    Ok(())
}

/// What is due next: a notice, or else a message.
fn news(net: &Net) -> Option<Step> {
    let next = match net.coming(Kind::Notice, 1 << 62) {
        Some(item) => Some(item),
        None => net.coming(Kind::Message, 1 << 62),
    };
    match next {
        Some(item) => Some(item.step),
        None => None,
    }
}

/// Brings up the links and the session, and lets all be learned and received.
fn settle(net: &mut Net) -> Result<(), Refused> {
    done(net, Step::LinkUp(LinkNo(0)), &[])?;
    done(net, Step::LinkUp(LinkNo(1)), &[])?;
    done(net, Step::BgpUp(NodeNo(0), NodeNo(2)), &[])?;
    for _ in 0..MOST_TURNS {
        let Some(step) = news(net) else {
            return Ok(());
        };
        done(net, step, &[])?;
    }
    Ok(())
}

/// Sends so many packets in at the first site.
fn send(net: &mut Net, packets: u32) -> Result<(), Refused> {
    for _ in 0..packets {
        done(net, Step::Inject(SiteNo(0), 1), &PACKET)?;
    }
    Ok(())
}

/// Nine frames arrive at the far end of the first link, and each tenth is lost.
fn frame_step(turn: u32) -> Step
    ensures { is_of_frames result ≡ true }
{
    if turn % 10 == 9 {
        Step::Lose(LinkNo(0), Dir::Forth, 0)
    } else {
        Step::Carry(LinkNo(0), Dir::Forth, 0)
    }
}

/// So many steps of frames, for which there is room: memory doesn't run out.
fn carry_all(net: &mut Net, steps: u32) -> Result<(), Refused>
    requires room { HasRoom net.old steps }
    ensures memory { IsErrOf result why.NoMemory → ⊥ }
{
    for turn in 0..steps {
        let step = frame_step(turn);
        done(net, step, &[])?;
    }
    Ok(())
}

fn status(alloc: Global) -> u8 {
    let Ok(topology) = row(alloc) else {
        return 1;
    };
    let Ok(mut net) = Net::new(alloc, topology) else {
        return 1;
    };
    match settle(&mut net) {
        Ok(()) => {}
        Err(Refused::NoMemory) => return 1,
        Err(_) => return 8,
    }
    match send(&mut net, FRAMES) {
        Ok(()) => {}
        Err(Refused::NoMemory) => return 1,
        Err(_) => return 8,
    }
    if net.reserve(FRAMES).is_err() {
        return 1;
    }
    match carry_all(&mut net, FRAMES) {
        Ok(()) => 0,
        Err(Refused::NoMemory) => 7,
        Err(_) => 8,
    }
}

fn main(rt: HostRuntime) -> ExitCode {
    ExitCode::from(status(rt.alloc()))
}
