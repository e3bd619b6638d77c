//! Notices and PDUs in flight.
ghost use Rattle.std.specs.Prelude.{◌≡◌, ◌<◌, ◌≤◌, ◌+◌, ◌*◌, ◌^◌, ◌++◌, ◌∷◌, [], length, map, IfOk, OnOk};
ghost use Rattle.std.specs.List.{All, AllByRecursion};
ghost use Rattle.mn_ledger.specs.Prelude.{nodes_of, wiring_of, channel};
ghost use Rattle.mn_wiring.specs.Wiring.{link as link_of};
ghost use Rattle.mn_transport.specs.Prelude.{IsFlight, pdu_of, channel_from, notices_to, put_pdus, off_link};

use mn_base::{LinkNo, ListOf, NodeNo};
use mn_flight::{Clock, Flight};
use mn_flight_pool::PoolFlight;
use mn_lsr::Said;
use mn_topo::Topology;
use mn_transport_laws::Notice;
use mn_wiring::{Dir, channel_of};
use std::alloc::AllocError;

/// The flight of the notices, with a channel for each link and node. Any `Flight` takes its place here.
pub type Notices = PoolFlight<Notice>;

/// The flight of the PDUs of LDP, with two channels for each link. Any `Flight` takes its place here.
pub type Messages = PoolFlight<ListOf<u8>>;

/// The channel of what an end says on a link.
fn channel_from(topology: &Topology, link: LinkNo, end: NodeNo) -> u32
    requires { link.0 < length topology.now.links }
    ensures { result ≡ channel_from (wiring_of topology.now) link.0 end.0 }
{
    let ends = &topology.links()[usize::from(link.0)];
    if end.0 == ends.a.0 {
        2 * u32::from(link.0)
    } else {
        2 * u32::from(link.0) + 1
    }
}

/// How many nodes there are.
fn count_of(topology: &Topology) -> u32
    ensures count { result ≡ length topology.now.loopbacks }
    ensures few { result ≤ 256 }
{
    topology.laws();
    topology.nodes().len() as u32
}

/// The channel of a node's notices of a link.
pub(crate) fn channel_at(topology: &Topology, link: LinkNo, node: u32) -> u32
    requires link { link.0 < length topology.now.links }
    requires node { node < length topology.now.loopbacks }
    ensures channel { result ≡ link.0 * length topology.now.loopbacks + node }
    ensures there { result < length topology.now.links * length topology.now.loopbacks }
{
    u32::from(link.0) * count_of(topology) + node
}

/// Puts a notice of a link into flight to a node.
fn tell(
    notices: &mut Notices,
    topology: &Topology,
    link: LinkNo,
    node: u32,
    clock: Clock,
) -> Result<(), AllocError>
    requires link { link.0 < length topology.now.links }
    requires node { node < length topology.now.loopbacks }
    requires channels { notices.old.channels ≡ length topology.now.links * length topology.now.loopbacks }
    requires tick { clock.tick ≤ 2 ^ 63 }
    requires number { All (λ item. item.number < clock.number) notices.old.items }
    ensures told { OnOk result (notices.new.items ≡ notices.old.items ++ record { channel = link.0 * length topology.now.loopbacks + node; due = clock.tick + topology.now.notice_delay; number = clock.number; item = record {} } ∷ []) }
    ensures channels { notices.new.channels ≡ notices.old.channels }
    ensures flight { IsFlight notices.new.channels notices.new.items }
{
    let channel = channel_at(topology, link, node);
    let due = clock.tick + u64::from(topology.notice_delay());
    match notices.push(channel, due, clock.number, Notice {}) {
        Ok(()) => Ok(()),
        Err(_) => Err(AllocError),
    }
}

/// Puts a notice of a link into flight to each node, in order. It answers the number after the last one's.
pub(crate) fn tell_all(
    notices: &mut Notices,
    topology: &Topology,
    link: LinkNo,
    clock: Clock,
) -> Result<u64, AllocError>
    requires link { link.0 < length topology.now.links }
    requires channels { notices.old.channels ≡ length topology.now.links * length topology.now.loopbacks }
    requires tick { clock.tick ≤ 2 ^ 63 }
    requires number { All (λ item. item.number < clock.number) notices.old.items }
    requires numbers { clock.number + length topology.now.loopbacks < 2 ^ 64 }
    requires flight { IsFlight notices.old.channels notices.old.items }
    ensures told { OnOk result (notices.new.items ≡ notices.old.items ++ notices_to (link.0 * length topology.now.loopbacks) (clock.tick + topology.now.notice_delay) clock.number (nodes_of (wiring_of topology.now))) }
    ensures next { IfOk result (λ next. next ≡ clock.number + length topology.now.loopbacks) }
    ensures number { IfOk result (λ next. All (λ item. item.number < next) notices.new.items) }
    ensures channels { notices.new.channels ≡ notices.old.channels }
    ensures flight { IsFlight notices.new.channels notices.new.items }
{
    let nodes = count_of(topology);
    let tick = clock.tick;
    let mut number = clock.number;
    for node in 0..nodes {
        tell(notices, topology, link, node, Clock { tick, number })?;
        number += 1;
    }
    Ok(number)
}

/// How many ticks a message takes over a link.
fn delay_of(topology: &Topology, link: LinkNo) -> u32
    requires { link.0 < length topology.now.links }
    ensures { result ≡ (link_of (wiring_of topology.now) link.0).delay }
{
    topology.links()[usize::from(link.0)].delay
}

/// Puts a PDU of a node into flight.
fn send_one(
    messages: &mut Messages,
    topology: &Topology,
    node: NodeNo,
    said: Said,
    clock: Clock,
) -> Result<(), AllocError>
    requires link { said.link.0 < length topology.now.links }
    requires channels { messages.old.channels ≡ 2 * length topology.now.links }
    requires tick { clock.tick ≤ 2 ^ 63 }
    requires number { All (λ item. item.number < clock.number) messages.old.items }
    ensures sent { OnOk result (messages.new.items ≡ messages.old.items ++ record { channel = channel_from (wiring_of topology.now) said.link.0 node.0; due = clock.tick + (link_of (wiring_of topology.now) said.link.0).delay; number = clock.number; item = said.bytes.items } ∷ []) }
    ensures channels { messages.new.channels ≡ messages.old.channels }
    ensures flight { IsFlight messages.new.channels messages.new.items }
{
    let channel = channel_from(topology, said.link, node);
    let due = clock.tick + u64::from(delay_of(topology, said.link));
    match messages.push(channel, due, clock.number, ListOf::from_vec(said.bytes)) {
        Ok(()) => Ok(()),
        Err(_) => Err(AllocError),
    }
}

/// Puts what a node says into flight. It answers the number after the last PDU's.
pub(crate) fn send(
    messages: &mut Messages,
    topology: &Topology,
    node: NodeNo,
    out: Vec<Said>,
    clock: Clock,
) -> Result<u64, AllocError>
    requires links { AllByRecursion (λ said. said.link.0 < length topology.now.links) out.items }
    requires channels { messages.old.channels ≡ 2 * length topology.now.links }
    requires tick { clock.tick ≤ 2 ^ 63 }
    requires number { All (λ item. item.number < clock.number) messages.old.items }
    requires numbers { clock.number + length out.items < 2 ^ 64 }
    requires flight { IsFlight messages.old.channels messages.old.items }
    ensures sent { OnOk result (messages.new.items ≡ messages.old.items ++ put_pdus (wiring_of topology.now) node.0 clock.tick clock.number (map pdu_of out.items)) }
    ensures next { IfOk result (λ next. next ≡ clock.number + length out.items) }
    ensures channels { messages.new.channels ≡ messages.old.channels }
    ensures flight { IsFlight messages.new.channels messages.new.items }
    ensures number { IfOk result (λ next. All (λ item. item.number < next) messages.new.items) }
{
    let tick = clock.tick;
    let mut number = clock.number;
    for said in out {
        send_one(messages, topology, node, said, Clock { tick, number })?;
        number += 1;
    }
    Ok(number)
}

/// Takes all that flies on a link out of flight, in both directions.
pub(crate) fn cut(messages: &mut Messages, link: LinkNo)
    ensures cut { messages.new.items ≡ off_link link.0 messages.old.items }
    ensures channels { messages.new.channels ≡ messages.old.channels }
    ensures flight { IsFlight messages.new.channels messages.new.items }
{
    messages.drop_channel(channel_of(link, Dir::Forth));
    messages.drop_channel(channel_of(link, Dir::Back));
}
