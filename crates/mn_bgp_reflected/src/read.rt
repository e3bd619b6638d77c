// An UPDATE, and the attributes of a reflector in it.
ghost use Rattle.std.specs.Prelude.{◌≡◌, ◌≤◌, List, Ok, Err, length, drop, IfOk};
ghost use Rattle.std.specs.Option.{option_map};
ghost use Rattle.mn_bgp_wire.specs.declared.message.BgpMessage.{BgpMessage as Message};
ghost use Rattle.mn_bgp_reflected.specs.Prelude.{IsBgp, message_of};
ghost use Rattle.mn_bgp_reflected.specs.Says.{SaysReflected};
ghost use Rattle.mn_bgp_reflected.specs.Grammar.{IsReflected};
ghost use Rattle.mn_bgp_reflected.specs.Reading.{update_in, originator_of, addresses_of, clusters_of, reflected_of, Gives, Answers};

use crate::attributes::value_of;
use crate::message::{ADDRESS, ATTRIBUTES_AT, CLUSTER_LIST, ORIGINATOR_ID, Reflected};
use crate::refusal::ReflectedBad;
use byteorder::{BigEndian, ByteOrder};
use mn_bgp_wire::{BgpMessage, BgpWireBad, Update, read_bgp};
use std::alloc::Global;

/// Reads one UPDATE, which is all of the bytes, with what a reflector says of its route, where it is given.
///
/// Refuses, in this order: `Wire` for what isn't a message, `NotUpdate`, `BadOriginator`, `BadClusters`.
pub fn read_reflected(alloc: Global, bytes: &[u8]) -> Result<Reflected, ReflectedBad>
    // The first refusal in order, or what the UPDATE says.
    ensures reading { Answers result (reflected_of bytes.now) }
    // What is read is what the bytes say.
    ensures found { IfOk result (λ said. IsReflected bytes.now said) }
    // And each such UPDATE is read.
    ensures only { (said : SaysReflected) → IsReflected bytes.now said → Answers result (Ok said) }
    // Want of memory is never a fault of the message.
    ensures memory { result ≡ Err (ReflectedBad.Wire BgpWireBad.NoMemory) → ⊥ }
{
    reflected_of(alloc, bytes)
}

fn reflected_of(alloc: Global, bytes: &[u8]) -> Result<Reflected, ReflectedBad>
    ensures reading { Answers result (reflected_of bytes.now) }
    ensures memory { result ≡ Err (ReflectedBad.Wire BgpWireBad.NoMemory) → ⊥ }
{
    let update = update_in(alloc, bytes)?;
    let attributes = attributes_in(bytes);
    let originator = originator_of(value_of(ORIGINATOR_ID, attributes))?;
    let clusters = clusters_of(alloc, value_of(CLUSTER_LIST, attributes))?;
    Ok(Reflected {
        update,
        originator,
        clusters,
    })
}

/// The attributes of an UPDATE.
fn attributes_in(bytes: &[u8]) -> &[u8]
    requires { 23 ≤ length bytes.now }
    ensures { result.now ≡ drop 23 bytes.now }
{
    &bytes[ATTRIBUTES_AT..]
}

/// The UPDATE that the bytes are.
fn update_in(alloc: Global, bytes: &[u8]) -> Result<Update, ReflectedBad>
    ensures reading { Answers result (update_in (message_of bytes.now)) }
    ensures found { IfOk result (λ says. IsBgp bytes.now (Message.Update says)) }
    ensures memory { result ≡ Err (ReflectedBad.Wire BgpWireBad.NoMemory) → ⊥ }
{
    update_of(read_bgp(alloc, bytes)?)
}

#[tactic(auto, unfolding(crate::specs::Reading::update_in))]
fn update_of(message: BgpMessage) -> Result<Update, ReflectedBad>
    ensures { result ≡ update_in (Ok message) }
{
    match message {
        BgpMessage::Update(update) => Ok(update),
        BgpMessage::Opening { .. } | BgpMessage::Notification { .. } | BgpMessage::KeepAlive => {
            Err(ReflectedBad::NotUpdate)
        }
    }
}

/// The address in an ORIGINATOR_ID (RFC 4456, section 8).
#[tactic(auto, unfolding(crate::specs::Reading::originator_of))]
fn originator_of(value: Option<&[u8]>) -> Result<Option<u32>, ReflectedBad>
    ensures { result ≡ originator_of (option_map (λ value. value.now) value.entry) }
{
    match value {
        None => Ok(None),
        Some(value) if value.len() == ADDRESS => Ok(Some(BigEndian::read_u32(value))),
        Some(_) => Err(ReflectedBad::BadOriginator),
    }
}

/// The addresses in a CLUSTER_LIST (RFC 4456, section 8), none without it.
#[tactic(auto, unfolding(crate::specs::Reading::clusters_of))]
fn clusters_of(alloc: Global, value: Option<&[u8]>) -> Result<Vec<u32>, ReflectedBad>
    ensures { Gives (λ clusters. clusters.items) result
        (clusters_of (option_map (λ value. value.now) value.entry)) }
{
    match value {
        None => Ok(Vec::new(alloc)),
        Some(value) if value.is_empty() || value.len() % ADDRESS != 0 => {
            Err(ReflectedBad::BadClusters)
        }
        Some(value) => addresses_of(alloc, value),
    }
}

/// Every four bytes from the front, as an address.
fn addresses_of(alloc: Global, bytes: &[u8]) -> Result<Vec<u32>, ReflectedBad>
    ensures { Gives (λ addresses. addresses.items) result (Ok (addresses_of bytes.now)) }
{
    let mut addresses = Vec::new(alloc);
    let mut rest = bytes;
    'addresses: while let Some((octets, behind)) = rest.split_first_chunk::<ADDRESS>() {
        let address = BigEndian::read_u32(octets);
        addresses.push(address)?;
        rest = behind;
    }
    Ok(addresses)
}
