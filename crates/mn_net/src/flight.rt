//! What is told of items in flight.
ghost use Rattle.std.specs.Prelude.{◌≡◌, ◌<◌, ◌≤◌, ◌*◌, ◌/◌, ◌%◌, ◌^◌, ℕ, List, [], false, true, None, option_map};
ghost use Rattle.mn_ledger.specs.Prelude.{flight_of};
ghost use Rattle.mn_stack.specs.Labelled.{frame_bytes};
ghost use Rattle.mn_net_laws.specs.Coming.{dir_of};
ghost use Rattle.mn_net.specs.Prelude.{StandsFor};
ghost use Rattle.mn_course_laws.specs.declared.coming.Kind.TheVariants as kind;
ghost use Rattle.mn_net.specs.declared.flight.Channel.TheVariants as channel;
ghost use Rattle.mn_net.specs.Told.{told_at};
ghost use Rattle.mn_net.specs.Tables.{count_of};

use crate::coming::pending;
use crate::net::Net;
use mn_base::{LinkNo, ListOf, NodeNo};
use mn_course_laws::Kind;
use mn_flight::{Flight, Item};
use mn_transit::Flown;
use mn_transport_laws::Notice;
use mn_wiring::{Dir, direction_of};

/// From where an item flies to where.
#[derive(Clone, Copy, Debug, PartialEq, Eq)]
pub enum Channel {
    /// From a link to a node, which learns of a change.
    Notice(LinkNo, NodeNo),
    /// LDP, on a link in a direction.
    Ldp(LinkNo, Dir),
    /// BGP, from an edge to a peer.
    Bgp(NodeNo, NodeNo),
    /// A link's frames in a direction.
    Frame(LinkNo, Dir),
}

/// An item in flight.
#[derive(Clone, Copy, Debug, PartialEq, Eq)]
pub struct Flying<'a> {
    pub kind: Kind,
    pub channel: Channel,
    /// The tick at which it may be delivered, or later.
    pub due: u64,
    /// A PDU of LDP (RFC 5036, section 3.1), a message of BGP (RFC 4271, section 4.1) or a labelled packet (RFC 3032,
    /// section 2.1). A notice has none.
    pub bytes: &'a [u8],
}

/// The two numbers that a channel's is made of, in a network of so many nodes.
fn numbers_in(nodes: u32, channel: u32) -> (u16, u16)
    requires some { 0 < nodes }
    requires many { nodes ≤ 256 }
    requires fits { channel / nodes < 2 ^ 16 }
    ensures first { result.0 ≡ channel / nodes }
    ensures second { result.1 ≡ channel % nodes }
{
    ((channel / nodes) as u16, (channel % nodes) as u16)
}

/// A notice, in a network of so many nodes.
fn notice(nodes: u32, item: &Item<Notice>) -> Flying<'static>
    requires nodes { nodes ≤ 256 }
    requires channel { item.now.channel < 1024 * nodes }
    ensures kind { result.kind ≡ kind.Notice }
    ensures channel { result.channel ≡ channel.Notice (record { 0 = item.now.channel / nodes }) (record { 0 = item.now.channel % nodes }) }
    ensures due { result.due ≡ item.now.due }
    ensures bytes { result.bytes.now ≡ [] }
{
    let (link, node) = numbers_in(nodes, item.channel);
    Flying {
        kind: Kind::Notice,
        channel: Channel::Notice(LinkNo(link), NodeNo(node)),
        due: item.due,
        bytes: &[],
    }
}

/// A PDU of LDP.
fn pdu(item: &Item<ListOf<u8>>) -> Flying<'_>
    requires { item.now.channel < 131072 }
    ensures kind { result.kind ≡ kind.Message }
    ensures channel { result.channel ≡ channel.Ldp (record { 0 = item.now.channel / 2 }) (dir_of item.now.channel) }
    ensures due { result.due ≡ item.now.due }
    ensures bytes { result.bytes.now ≡ item.now.item }
{
    let link = LinkNo((item.channel / 2) as u16);
    Flying {
        kind: Kind::Message,
        channel: Channel::Ldp(link, direction_of(item.channel)),
        due: item.due,
        bytes: item.item.as_slice(),
    }
}

/// A message of BGP, in a network of so many nodes.
fn message(nodes: u32, item: &Item<ListOf<u8>>) -> Flying<'_>
    requires nodes { nodes ≤ 256 }
    requires channel { item.now.channel < nodes * nodes }
    ensures kind { result.kind ≡ kind.Message }
    ensures channel { result.channel ≡ channel.Bgp (record { 0 = item.now.channel / nodes }) (record { 0 = item.now.channel % nodes }) }
    ensures due { result.due ≡ item.now.due }
    ensures bytes { result.bytes.now ≡ item.now.item }
{
    let (edge, peer) = numbers_in(nodes, item.channel);
    Flying {
        kind: Kind::Message,
        channel: Channel::Bgp(NodeNo(edge), NodeNo(peer)),
        due: item.due,
        bytes: item.item.as_slice(),
    }
}

/// A frame.
fn frame(item: &Item<Flown>) -> Flying<'_>
    requires { item.now.channel < 131072 }
    ensures kind { result.kind ≡ kind.Frame }
    ensures channel { result.channel ≡ channel.Frame (record { 0 = item.now.channel / 2 }) (dir_of item.now.channel) }
    ensures due { result.due ≡ item.now.due }
    ensures bytes { result.bytes.now ≡ frame_bytes item.now.item.frame }
{
    let link = LinkNo((item.channel / 2) as u16);
    Flying {
        kind: Kind::Frame,
        channel: Channel::Frame(link, direction_of(item.channel)),
        due: item.due,
        bytes: item.item.frame.bytes(),
    }
}

/// What a number of 64 bits counts.
fn within(count: u64)
    ensures { count < 2 ^ 64 }
{}

impl Net {
    /// The item of a number, if it is in flight. Nothing is copied, and nothing is told after running out of memory.
    pub fn item(&self, number: u64) -> Option<Flying<'_>>
        ensures told { (inputs : List (List ℕ)) → StandsFor self.now inputs →
            option_map (λ flying. record { kind = flying.kind; channel = flying.channel; due = flying.due; bytes = flying.bytes.now }) result
            ≡ told_at self.now.topology self.now.journal inputs number }
        ensures nothing { self.now.failed ≡ true → result ≡ None }
    {
        if self.failed {
            return None;
        }
        self.topology.laws();
        let nodes = self.topology.nodes().len() as u32;
        if let Some(item) = self.transport.notices().get(number) {
            return Some(notice(nodes, item));
        }
        if let Some(item) = self.transport.messages().get(number) {
            return Some(pdu(item));
        }
        if let Some(item) = self.routes.messages().get(number) {
            return Some(message(nodes, item));
        }
        let item = self.transit.frame(number)?;
        Some(frame(item))
    }

    /// How many items of a kind are in flight.
    pub fn pending(&self, kind: Kind) -> u64
        requires works { self.now.failed ≡ false }
        ensures told { (inputs : List (List ℕ)) → StandsFor self.now inputs → result ≡ count_of kind (flight_of self.now.topology self.now.journal inputs).items }
    {
        within(self.made);
        pending(&self.transport, &self.routes, &self.transit, kind)
    }
}
