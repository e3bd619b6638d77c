//! What comes next of each kind.
ghost use Rattle.std.specs.Prelude.{◌≡◌, ◌<◌, ◌≤◌, ◌*◌, ◌+◌, ◌^◌, ℕ, Bool, false, List, length, option_map};
ghost use Rattle.std.specs.List.{All};
ghost use Rattle.mn_net.specs.Prelude.{JournalEntry, is_due_before, earlier, IsNext, key_of, keys_in, AreRising, is_one, first_key, learns_on, hears_on, tells_on, carries_on, as_coming, news_coming, coming_seen, pending_seen};
ghost use Rattle.mn_course_laws.specs.Coming.{coming as ledgers};
ghost use Rattle.mn_net.specs.Parts.{PartsStand, OnChannels, AreInPlace, packed_of};

use crate::parts::Parts;
use mn_base::{LinkNo, ListOf, NodeNo};
use mn_course_laws::{Coming, Kind};
use mn_flight::{Flight, Item};
use mn_net_tally::Tally;
use mn_routing::Routes;
use mn_topo::{Step, Topology};
use mn_transit::Transit;
use mn_transport::Transport;
use mn_wiring::direction_of;

/// An item is due before another, or was made before it where both are due at one tick.
fn is_due_before(due: u64, number: u64, other_due: u64, other: u64) -> bool
    ensures { result ≡ is_due_before due number other_due other }
{
    if due == other_due {
        return number < other;
    }
    due < other_due
}

/// A notice as it comes.
fn notice_coming(topology: &Topology, transport: &Transport, limit: u64) -> Option<Coming>
    requires { OnChannels (length topology.now.links * length topology.now.loopbacks) transport.now.notices }
    ensures { result ≡ news_coming (learns_on (length topology.now.loopbacks)) limit (keys_in transport.now.notices) }
{
    topology.laws();
    let item = transport.notices().earliest(limit)?;
    let nodes = topology.nodes().len() as u32;
    let node = NodeNo((item.channel % nodes) as u16);
    let link = LinkNo((item.channel / nodes) as u16);
    Some(Coming {
        due: item.due,
        number: item.number,
        step: Step::Learn(node, link),
        lossy: false,
    })
}

/// A PDU of LDP as it comes.
fn pdu_coming(item: &Item<ListOf<u8>>) -> Coming
    requires { item.now.channel < 131072 }
    ensures { result ≡ as_coming hears_on (λ number. false) (key_of item.now) }
{
    let link = LinkNo((item.channel / 2) as u16);
    Coming {
        due: item.due,
        number: item.number,
        step: Step::HearLdp(link, direction_of(item.channel)),
        lossy: false,
    }
}

/// A message of BGP as it comes, in a network of so many nodes.
fn message_coming(nodes: u32, item: &Item<ListOf<u8>>) -> Coming
    requires few { nodes ≤ 256 }
    requires channel { item.now.channel < nodes * nodes }
    ensures { result ≡ as_coming (tells_on nodes) (λ number. false) (key_of item.now) }
{
    let teller = NodeNo((item.channel / nodes) as u16);
    let peer = NodeNo((item.channel % nodes) as u16);
    Coming {
        due: item.due,
        number: item.number,
        step: Step::HearBgp(teller, peer),
        lossy: false,
    }
}

/// The earlier of the first PDU of LDP and the first message of BGP.
fn news_coming(
    topology: &Topology,
    transport: &Transport,
    routes: &Routes,
    limit: u64,
) -> Option<Coming>
    requires pdus { OnChannels (2 * length topology.now.links) transport.now.messages }
    requires messages { OnChannels (length topology.now.loopbacks * length topology.now.loopbacks) routes.now.messages }
    ensures { result ≡ earlier (news_coming hears_on limit (keys_in transport.now.messages)) (news_coming (tells_on (length topology.now.loopbacks)) limit (keys_in routes.now.messages)) }
{
    topology.laws();
    let nodes = topology.nodes().len() as u32;
    let Some(pdu) = transport.messages().earliest(limit) else {
        let message = routes.messages().earliest(limit)?;
        return Some(message_coming(nodes, message));
    };
    let Some(message) = routes.messages().earliest(limit) else {
        return Some(pdu_coming(pdu));
    };
    if is_due_before(message.due, message.number, pdu.due, pdu.number) {
        return Some(message_coming(nodes, message));
    }
    Some(pdu_coming(pdu))
}

/// The first frame.
fn frame_coming(topology: &Topology, transit: &Transit, tally: &Tally, limit: u64) -> Option<Coming>
    requires channels { OnChannels (2 * length topology.now.links) transit.now.flying }
    requires rising { AreRising tally.now.lossy }
    ensures { result ≡ option_map (as_coming carries_on (is_one tally.now.lossy)) (first_key limit (keys_in transit.now.flying)) }
{
    topology.laws();
    let item = transit.earliest(limit)?;
    let link = LinkNo((item.channel / 2) as u16);
    Some(Coming {
        due: item.due,
        number: item.number,
        step: Step::Carry(link, direction_of(item.channel), 0),
        lossy: tally.loses(item.number),
    })
}

/// What comes next of a kind, as the parts show it.
fn coming_of(parts: Parts<'_>, kind: Kind, limit: u64) -> Option<Coming>
    requires { AreInPlace parts.topology.now parts.transport.now parts.routes.now parts.transit.now parts.tally.now }
    ensures { (made : ℕ) → result ≡ coming_seen parts.entry.topology.now (packed_of parts.entry.transport.now parts.entry.routes.now parts.entry.transit.now made) parts.entry.tally.now.lossy kind limit }
{
    match kind {
        Kind::Notice => notice_coming(parts.topology, parts.transport, limit),
        Kind::Message => news_coming(parts.topology, parts.transport, parts.routes, limit),
        Kind::Frame => frame_coming(parts.topology, parts.transit, parts.tally, limit),
    }
}

/// What comes next of a kind, if it is due by the limit: the ledger's, with the step that delivers it.
pub fn coming(parts: Parts<'_>, kind: Kind, limit: u64) -> Option<Coming>
    requires { (journal : List JournalEntry) × (inputs : List (List ℕ)) × PartsStand parts.topology.now journal inputs parts.transport.now parts.routes.now parts.transit.now parts.tally.now }
    ensures value { (journal : List JournalEntry) (inputs : List (List ℕ)) → PartsStand parts.entry.topology.now journal inputs parts.entry.transport.now parts.entry.routes.now parts.entry.transit.now parts.entry.tally.now → result ≡ ledgers parts.entry.topology.now journal inputs kind limit }
    ensures next { (journal : List JournalEntry) (inputs : List (List ℕ)) → PartsStand parts.entry.topology.now journal inputs parts.entry.transport.now parts.entry.routes.now parts.entry.transit.now parts.entry.tally.now → IsNext parts.entry.topology.now journal inputs kind limit result }
{
    parts.topology.laws();
    coming_of(parts, kind, limit)
}

/// How many items of a kind are in flight.
pub fn pending(transport: &Transport, routes: &Routes, transit: &Transit, kind: Kind) -> u64
    requires { length transport.now.messages + length routes.now.messages < 2 ^ 64 }
    ensures { (made : ℕ) → result ≡ pending_seen (packed_of transport.now routes.now transit.now made) kind }
{
    match kind {
        Kind::Notice => transport.notices().len(),
        Kind::Message => transport.messages().len() + routes.messages().len(),
        Kind::Frame => transit.in_flight(),
    }
}
