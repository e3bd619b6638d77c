// The header, and a message by its type.
ghost use Rattle.std.specs.Prelude.{◌≡◌, ◌≢◌, ◌≤◌, List, length, Ok, IfOk, IfErr, OnOk, IsErrOf, IsTrue};
ghost use Rattle.mn_bgp_wire.specs.declared.message.BgpMessage.{BgpMessage as Message};
ghost use Rattle.mn_bgp_wire.specs.Grammar.{IsBgp, update_kind};
ghost use Rattle.mn_bgp_wire.specs.Reading.{allows, is_marked, header_of, body_of, open_of, update_said, message_of, Answers};

use crate::fields::vpn_offered;
use crate::message::{
    ASN_AT, BgpMessage, GREATEST_LENGTH, HEADER, HOLD_AT, ID_AT, KEEPALIVE, KIND_AT, LENGTH_AT,
    MARKER, NOTIFICATION, OPEN, PARAMETERS_AT, PARAMETERS_LENGTH_AT, UPDATE, VERSION,
};
use crate::refusal::BgpWireBad;
use crate::update::update_of;
use byteorder::{BigEndian, ByteOrder};
use std::alloc::Global;

/// Reads one message, which is all of the bytes.
///
/// Refuses, in this order: `Short`, `BadMarker`, `BadLength`, `BadType`; of an OPEN `BadOpen`; of an UPDATE `BadAttribute`
/// and `MissingAttribute`.
pub fn read_bgp(alloc: Global, bytes: &[u8]) -> Result<BgpMessage, BgpWireBad>
    // The first refusal in order, or the message.
    ensures reading { Answers result (message_of bytes.now) }
    // What is read is the message that the bytes are.
    ensures found { IfOk result (λ message. IsBgp bytes.now message) }
    // And each message is read.
    ensures only { (message : Message) → IsBgp bytes.now message → Answers result (Ok message) }
    // Only an UPDATE takes memory.
    ensures memory { IsErrOf result BgpWireBad.NoMemory → header_of bytes.now ≡ Ok update_kind }
{
    message_of(alloc, bytes)
}

#[tactic(auto, unfolding(crate::specs::Reading::message_of))]
fn message_of(alloc: Global, bytes: &[u8]) -> Result<BgpMessage, BgpWireBad>
    ensures reading { Answers result (message_of bytes.now) }
    ensures memory { IsErrOf result BgpWireBad.NoMemory → header_of bytes.now ≡ Ok update_kind }
{
    let kind = header_of(bytes)?;
    let body = body_of(bytes);
    match kind {
        OPEN => open_of(body),
        UPDATE => update_said(alloc, body),
        NOTIFICATION => Ok(BgpMessage::Notification {
            code: body[0],
            subcode: body[1],
        }),
        _ => Ok(BgpMessage::KeepAlive),
    }
}

fn update_said(alloc: Global, body: &[u8]) -> Result<BgpMessage, BgpWireBad>
    requires { 4 ≤ length body.now }
    ensures { Answers result (update_said body.now) }
{
    Ok(BgpMessage::Update(update_of(alloc, body)?))
}

/// What stands behind the header.
fn body_of(bytes: &[u8]) -> &[u8]
    requires { 19 ≤ length bytes.now }
    ensures { result.now ≡ body_of bytes.now }
{
    &bytes[HEADER..]
}

/// Whether the first 16 bytes are all FF.
fn is_marked(bytes: &[u8]) -> bool
    requires { 16 ≤ length bytes.now }
    ensures { result ≡ is_marked bytes.now }
{
    bytes[..MARKER].iter().all(|byte| *byte == 0xFF)
}

/// Whether messages of a type may have this length. Of a type that isn't known each length is allowed.
#[tactic(auto, unfolding(crate::specs::Reading::allows))]
fn allows(kind: u8, length: usize) -> bool
    ensures value { result ≡ allows kind length }
    ensures open { IsTrue result → kind ≡ 1 → 29 ≤ length }
    ensures update { IsTrue result → kind ≡ 2 → 23 ≤ length }
    ensures notification { IsTrue result → kind ≡ 3 → 21 ≤ length }
{
    match kind {
        OPEN => length >= HEADER + PARAMETERS_AT,
        UPDATE => length >= HEADER + 4,
        NOTIFICATION => length >= HEADER + 2,
        KEEPALIVE => length == HEADER,
        _ => true,
    }
}

/// The type of the message, by its header (RFC 4271, section 4.1).
#[tactic(auto, unfolding(crate::specs::Reading::header_of))]
fn header_of(bytes: &[u8]) -> Result<u8, BgpWireBad>
    ensures first { result ≡ header_of bytes.now }
    ensures memory { IfErr result (λ bad. bad ≢ BgpWireBad.NoMemory) }
    ensures header { OnOk result (19 ≤ length bytes.now) }
    ensures open { IfOk result (λ kind. kind ≡ 1 → 29 ≤ length bytes.now) }
    ensures update { IfOk result (λ kind. kind ≡ 2 → 23 ≤ length bytes.now) }
    ensures notification { IfOk result (λ kind. kind ≡ 3 → 21 ≤ length bytes.now) }
{
    if bytes.len() < HEADER {
        return Err(BgpWireBad::Short);
    }
    if !is_marked(bytes) {
        return Err(BgpWireBad::BadMarker);
    }
    let length = usize::from(BigEndian::read_u16(&bytes[LENGTH_AT..]));
    let kind = bytes[KIND_AT];
    if length != bytes.len() || length > GREATEST_LENGTH || !allows(kind, length) {
        return Err(BgpWireBad::BadLength);
    }
    match kind {
        OPEN | UPDATE | NOTIFICATION | KEEPALIVE => Ok(kind),
        _ => Err(BgpWireBad::BadType),
    }
}

/// Reads the body of an OPEN (RFC 4271, section 4.2).
#[tactic(auto, unfolding(crate::specs::Reading::open_of))]
fn open_of(body: &[u8]) -> Result<BgpMessage, BgpWireBad>
    requires { 10 ≤ length body.now }
    ensures reading { result ≡ open_of body.now }
    ensures memory { IfErr result (λ bad. bad ≢ BgpWireBad.NoMemory) }
{
    let version = body[0];
    let parameters = &body[PARAMETERS_AT..];
    if version != VERSION || usize::from(body[PARAMETERS_LENGTH_AT]) != parameters.len() {
        return Err(BgpWireBad::BadOpen);
    }
    let Some(vpn) = vpn_offered(parameters) else {
        return Err(BgpWireBad::BadOpen);
    };
    Ok(BgpMessage::Opening {
        version,
        asn: BigEndian::read_u16(&body[ASN_AT..]),
        hold: BigEndian::read_u16(&body[HOLD_AT..]),
        id: BigEndian::read_u32(&body[ID_AT..]),
        vpn,
    })
}
