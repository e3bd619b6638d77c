ghost use Rattle.std.specs.Prelude.{◌≡◌, ◌≤◌, ◌<◌, [], ◌==◌, length, position, count_by, nat_lt, IfOk, IfSome, option_map};
ghost use Rattle.std.specs.List.Sorted.{IsNonDecreasing};
ghost use Rattle.mn_lsr.specs.Prelude.{written, IsWritable, own_labels, AreSpelled, body_of, id_of, node_of};
ghost use Rattle.mn_lsr.specs.Message.{meaning, NamesNode, HasLabel, as_node};

use crate::speaking::Speaker;
use crate::ways::own_label;
use mn_base::NodeNo;
use mn_ldp_wire::{Addresses, LdpBody, LdpId, LdpMessage, write_pdu};
use mn_prefix::Prefix;
use std::alloc::{AllocError, Global};

/// How many ids there are (RFC 5036, section 3.5).
const IDS: u64 = 1 << 32;

/// What an end of a link says. A FEC is named by its node, whose loopback it is.
#[derive(Clone, Copy)]
pub enum Message {
    Initialization,
    KeepAlive,
    Address,
    Mapping(NodeNo),
    Withdraw(NodeNo),
    Release(NodeNo),
}

/// The identifier of a node: its loopback, for the labels of the whole router (RFC 5036, section 2.2.2).
pub(crate) fn id_of(loopbacks: &[u32], node: NodeNo) -> LdpId
    requires { node.0 < length loopbacks.now }
    ensures { result ≡ id_of (record { loopbacks = loopbacks.now; ends = [] }) node.0 }
{
    LdpId {
        lsr: loopbacks[node.0 as usize],
        space: 0,
    }
}

/// The /32 of a loopback.
fn host(address: u32) -> Prefix
    ensures { result ≡ record { address = address; length = 32 } }
{
    match Prefix::new(address, 32) {
        Some(prefix) => prefix,
        None => unreachable!(),
    }
}

/// What a message says to a neighbour, by the labels that the node gave. A Release brings the label that was withdrawn.
pub(crate) fn body_of(
    speaker: &Speaker,
    far: NodeNo,
    message: Message,
) -> Result<LdpBody, AllocError>
    requires me { speaker.now.me.0 < length speaker.now.loopbacks.now }
    requires far { far.0 < length speaker.now.loopbacks.now }
    requires fec { NamesNode (length speaker.now.loopbacks.now) message }
    requires label { HasLabel speaker.now.me.0 speaker.now.labels.now.labels speaker.now.withdrawn message }
    ensures body { IfOk result (λ body. body ≡ body_of (record { loopbacks = speaker.now.loopbacks.now; ends = [] }) speaker.now.me.0 (own_labels speaker.now.me.0 speaker.now.labels.now.labels) far.0 speaker.now.withdrawn (meaning message)) }
    ensures writable { IfOk result (λ body. IsWritable body) }
{
    match message {
        Message::Initialization => Ok(LdpBody::Initialization {
            version: 1,
            keepalive: 180,
            flags: 0,
            limit: 0,
            greatest: 4096,
            receiver: id_of(speaker.loopbacks, far),
        }),
        Message::KeepAlive => Ok(LdpBody::KeepAlive),
        Message::Address => {
            let address = [speaker.loopbacks[speaker.me.0 as usize]];
            Ok(LdpBody::Address(Addresses::of(speaker.alloc, &address)?))
        }
        Message::Mapping(fec) => {
            let prefix = host(speaker.loopbacks[fec.0 as usize]);
            Ok(LdpBody::Mapping(prefix, own_label(speaker.labels, speaker.me, fec)))
        }
        Message::Withdraw(fec) => {
            let prefix = host(speaker.loopbacks[fec.0 as usize]);
            Ok(LdpBody::Withdraw(prefix, own_label(speaker.labels, speaker.me, fec)))
        }
        Message::Release(fec) => {
            let prefix = host(speaker.loopbacks[fec.0 as usize]);
            Ok(LdpBody::Release(prefix, speaker.withdrawn))
        }
    }
}

/// A message as a PDU of its own. Its id is its number, of which the field holds the low 32 bits.
pub(crate) fn pdu_bytes(
    speaker: &Speaker,
    far: NodeNo,
    number: u64,
    message: Message,
) -> Result<Vec<u8>, AllocError>
    requires few { length speaker.now.loopbacks.now ≤ 256 }
    requires me { speaker.now.me.0 < length speaker.now.loopbacks.now }
    requires far { far.0 < length speaker.now.loopbacks.now }
    requires fec { NamesNode (length speaker.now.loopbacks.now) message }
    requires label { HasLabel speaker.now.me.0 speaker.now.labels.now.labels speaker.now.withdrawn message }
    ensures { IfOk result (λ bytes. bytes.items ≡ written (id_of (record { loopbacks = speaker.now.loopbacks.now; ends = [] }) speaker.now.me.0)
        (record { id = number; body = body_of (record { loopbacks = speaker.now.loopbacks.now; ends = [] }) speaker.now.me.0 (own_labels speaker.now.me.0 speaker.now.labels.now.labels) far.0 speaker.now.withdrawn (meaning message) })) }
{
    let body = body_of(speaker, far, message)?;
    let id = (number % IDS) as u32;
    write_pdu(
        speaker.alloc,
        id_of(speaker.loopbacks, speaker.me),
        &LdpMessage { id, body },
    )
}

/// Where an address stands or would stand among loopbacks in ascending order: behind as many as are less.
fn likely_place(loopbacks: &[u32], address: u32) -> usize
    ensures within { result ≤ length loopbacks.now }
    ensures place { IsNonDecreasing loopbacks.now → result ≡ count_by (λ loopback. nat_lt loopback address) loopbacks.now }
{
    loopbacks.partition_point(|loopback| *loopback < address)
}

/// The place of an address among the loopbacks. In a topology they mostly ascend, and then few of them are looked at.
fn place_of(loopbacks: &[u32], address: u32) -> Option<usize>
    requires { AreSpelled (record { loopbacks = loopbacks.now; ends = [] }) }
    ensures place { result ≡ position (λ loopback. loopback == address) loopbacks.now }
    ensures there { IfSome result (λ place. place < length loopbacks.now) }
{
    let likely = likely_place(loopbacks, address);
    if likely < loopbacks.len() && loopbacks[likely] == address {
        return Some(likely);
    }
    loopbacks.iter().position(|loopback| *loopback == address)
}

/// The node whose /32 the prefix is.
pub(crate) fn node_of(loopbacks: &[u32], prefix: &Prefix) -> Option<NodeNo>
    requires few { length loopbacks.now ≤ 256 }
    requires spelled { AreSpelled (record { loopbacks = loopbacks.now; ends = [] }) }
    ensures node { option_map as_node result ≡ node_of (record { loopbacks = loopbacks.now; ends = [] }) prefix.now }
    ensures there { IfSome result (λ node. node.0 < length loopbacks.now) }
{
    if prefix.length() != 32 {
        return None;
    }
    match place_of(loopbacks, prefix.address()) {
        None => None,
        Some(place) => Some(NodeNo(place as u16)),
    }
}
