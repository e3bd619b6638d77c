//! BGP messages in flight.
ghost use Rattle.std.specs.Prelude.{◌≡◌, ◌<◌, ◌≤◌, ◌+◌, ◌*◌, ◌^◌, ◌++◌, ◌∷◌, [], length, IfOk, OnOk};
ghost use Rattle.std.specs.List.{All, AllByRecursion};
ghost use Rattle.mn_base.specs.declared.numbers.NodeNo.{NodeNo as NodeNumber};
ghost use Rattle.mn_routing.specs.Prelude.{IsFlight, off_channel, put_all, to_each, news_to, AreSayable};

use mn_base::{ListOf, NodeNo};
use mn_edges::spell;
use mn_flight::{Clock, Flight};
use mn_flight_pool::PoolFlight;
use mn_pe::Export;
use mn_topo::Topology;
use std::alloc::{AllocError, Global};

/// The flight of BGP's messages, with a channel for each two nodes. Any `Flight` takes its place here.
pub type Messages = PoolFlight<ListOf<u8>>;

/// The channel from an edge to a peer.
pub(crate) fn channel_to(topology: &Topology, edge: NodeNo, peer: NodeNo) -> u32
    requires edge { edge.0 < length topology.now.loopbacks }
    requires peer { peer.0 < length topology.now.loopbacks }
    ensures { result ≡ edge.0 * length topology.now.loopbacks + peer.0 }
{
    topology.laws();
    u32::from(edge.0) * topology.nodes().len() as u32 + u32::from(peer.0)
}

/// Puts a message of an edge to a peer into flight. It answers the number after it.
pub(crate) fn send(
    messages: &mut Messages,
    topology: &Topology,
    edge: NodeNo,
    peer: NodeNo,
    bytes: Vec<u8>,
    clock: Clock,
) -> Result<u64, AllocError>
    requires edge { edge.0 < length topology.now.loopbacks }
    requires peer { peer.0 < length topology.now.loopbacks }
    requires channels { messages.old.channels ≡ length topology.now.loopbacks * length topology.now.loopbacks }
    requires tick { clock.tick ≤ 2 ^ 63 }
    requires numbers { clock.number ≤ 2 ^ 63 + length messages.old.items }
    requires number { All (λ item. item.number < clock.number) messages.old.items }
    ensures sent { OnOk result (messages.new.items ≡ messages.old.items ++ record { channel = edge.0 * length topology.now.loopbacks + peer.0; due = clock.tick + topology.now.bgp_delay; number = clock.number; item = bytes.items } ∷ []) }
    ensures next { IfOk result (λ next. next ≡ clock.number + 1) }
    ensures numbers { IfOk result (λ next. next ≤ 2 ^ 63 + length messages.new.items) }
    ensures channels { messages.new.channels ≡ messages.old.channels }
    ensures flight { IsFlight messages.new.channels messages.new.items }
{
    let channel = channel_to(topology, edge, peer);
    let due = clock.tick + u64::from(topology.bgp_delay());
    match messages.push(channel, due, clock.number, ListOf::from_vec(bytes)) {
        // Fewer than 2 ^ 63 items fly.
        Ok(()) => Ok(clock.number + 1),
        Err(_) => Err(AllocError),
    }
}

/// Puts a message of an edge to each of these peers into flight. It answers the number after the last one's.
fn send_each(
    messages: &mut Messages,
    alloc: Global,
    topology: &Topology,
    edge: NodeNo,
    peers: &[NodeNo],
    bytes: &[u8],
    clock: Clock,
) -> Result<u64, AllocError>
    requires edge { edge.0 < length topology.now.loopbacks }
    requires peers { AllByRecursion (λ (peer : NodeNumber). peer.0 < length topology.now.loopbacks) peers.now }
    requires channels { messages.old.channels ≡ length topology.now.loopbacks * length topology.now.loopbacks }
    requires tick { clock.tick ≤ 2 ^ 63 }
    requires numbers { clock.number ≤ 2 ^ 63 + length messages.old.items }
    requires number { All (λ item. item.number < clock.number) messages.old.items }
    requires flight { IsFlight messages.old.channels messages.old.items }
    ensures sent { OnOk result (messages.new.items ≡ messages.old.items ++ put_all (clock.tick + topology.now.bgp_delay) clock.number (to_each (edge.0 * length topology.now.loopbacks) peers.now bytes.now)) }
    ensures next { IfOk result (λ next. next ≡ clock.number + length peers.now) }
    ensures numbers { IfOk result (λ next. next ≤ 2 ^ 63 + length messages.new.items) }
    ensures number { IfOk result (λ next. All (λ item. item.number < next) messages.new.items) }
    ensures channels { messages.new.channels ≡ messages.old.channels }
    ensures flight { IsFlight messages.new.channels messages.new.items }
{
    let tick = clock.tick;
    let mut number = clock.number;
    for peer in peers {
        let copy = Vec::from_slice(alloc, bytes)?;
        number = send(
            messages,
            topology,
            edge,
            *peer,
            copy,
            Clock { tick, number },
        )?;
    }
    Ok(number)
}

/// Tells these peers of an edge's exports that come or go. It answers the number after the last message's.
pub(crate) fn tell(
    messages: &mut Messages,
    alloc: Global,
    topology: &Topology,
    edge: NodeNo,
    peers: &[NodeNo],
    exports: &[Export],
    comes: bool,
    clock: Clock,
) -> Result<u64, AllocError>
    requires edge { edge.0 < length topology.now.loopbacks }
    requires peers { AllByRecursion (λ (peer : NodeNumber). peer.0 < length topology.now.loopbacks) peers.now }
    requires exports { AreSayable exports.now }
    requires channels { messages.old.channels ≡ length topology.now.loopbacks * length topology.now.loopbacks }
    requires tick { clock.tick ≤ 2 ^ 63 }
    requires numbers { clock.number ≤ 2 ^ 63 + length messages.old.items }
    requires number { All (λ item. item.number < clock.number) messages.old.items }
    requires flight { IsFlight messages.old.channels messages.old.items }
    ensures told { OnOk result (messages.new.items ≡ messages.old.items ++ put_all (clock.tick + topology.now.bgp_delay) clock.number (news_to topology.now edge.0 peers.now comes exports.now)) }
    ensures next { IfOk result (λ next. next ≡ clock.number + length (news_to topology.now edge.0 peers.now comes exports.now)) }
    ensures channels { messages.new.channels ≡ messages.old.channels }
    ensures flight { IsFlight messages.new.channels messages.new.items }
{
    // Nothing is spelled where nobody receives it.
    if peers.is_empty() {
        return Ok(clock.number);
    }
    let tick = clock.tick;
    let mut number = clock.number;
    for export in exports {
        let bytes = spell(alloc, topology, edge, export, comes)?;
        let clock = Clock { tick, number };
        number = send_each(messages, alloc, topology, edge, peers, &bytes, clock)?;
    }
    Ok(number)
}

/// Takes all that flies between two edges out of flight.
pub(crate) fn cut(messages: &mut Messages, topology: &Topology, a: NodeNo, b: NodeNo)
    requires a { a.0 < length topology.now.loopbacks }
    requires b { b.0 < length topology.now.loopbacks }
    ensures cut { messages.new.items ≡ off_channel (b.0 * length topology.now.loopbacks + a.0) (off_channel (a.0 * length topology.now.loopbacks + b.0) messages.old.items) }
    ensures channels { messages.new.channels ≡ messages.old.channels }
    ensures flight { IsFlight messages.new.channels messages.new.items }
{
    messages.drop_channel(channel_to(topology, a, b));
    messages.drop_channel(channel_to(topology, b, a));
}
