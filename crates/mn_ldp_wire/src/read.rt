// A PDU, read from the front: its header, and then its messages in order, each with its TLVs in order.
ghost use Rattle.std.specs.Prelude.{◌≡◌, ◌≤◌, ◌<◌, ◌==◌, List, All, length, MatchOption, Some, None, Ok, IfOk, IsErrOf, IsTrue};
ghost use Rattle.byteorder.specs.Endian.{big_number};
ghost use Rattle.mn_ldp_wire.specs.declared.message.LdpId.{LdpId};
ghost use Rattle.mn_ldp_wire.specs.declared.message.LdpMessage.{LdpMessage};
ghost use Rattle.mn_ldp_wire.specs.Grammar.{is_known_message, IsPdu, IsLawful};
ghost use Rattle.mn_ldp_wire.specs.Reading.{Gives, Answers, front_of, mandatory_at, are_passed_over, prefix_of, read_label, is_label, addresses_of, is_address_list, notification_of, initialization_of, address_message_of, binding_of, body_of, said_of, message_at, messages_of, has_header, pdu_of, id_at, asked};

use crate::message::{
    ADDRESS_SIZE, Addresses, ELEMENT_HEADER, FAMILY_SIZE, FIRST_LABEL, FRAME_HEADER, IMPLICIT_NULL,
    IPV4, LABEL_SIZE, LAST_LABEL, LdpBody, LdpId, LdpMessage, MESSAGE_ID, PDU_HEADER,
    PREFIX_ELEMENT, Pdu, SESSION_PARAMETERS_SIZE, STATUS_SIZE, U_BIT, VERSION, tlvs, types,
};
use crate::refusal::WireBad;
use byteorder::{BigEndian, ByteOrder};
use mn_base::ListOf;
use mn_prefix::{Prefix, address_of, octets};
use std::alloc::Global;
use std::marker::Model;

/// Reads a PDU that is the whole of the bytes.
///
/// Refuses for the PDU `Short`, `BadVersion` and `BadPduLength`, in this order. Then for each message in order
/// `BadMessageLength` and `UnknownMessage`, and for its TLVs in order `MissingTlv`, `BadTlv` and `BadFec`.
pub fn read_pdu(alloc: Global, bytes: &[u8]) -> Result<Pdu, WireBad>
    // What is read is a PDU of this sender and these messages,
    ensures accepts { IfOk result (λ pdu. IsPdu bytes.now pdu.from pdu.messages) }
    // whose values are lawful,
    ensures lawful { IfOk result (λ pdu. All (λ message. IsLawful message.body) pdu.messages) }
    // and every PDU is read so, unless there is no memory.
    ensures every { (from : LdpId) (messages : List LdpMessage) → IsPdu bytes.now from messages →
        Answers (λ pdu. pdu) result (Ok (record { from = from; messages = messages })) }
    // What isn't is refused by the first rule that it breaks.
    ensures refuses { Answers (λ pdu. pdu) result (pdu_of bytes.now) }
    // Only where its header is right is memory taken.
    ensures memory { IsErrOf result WireBad.NoMemory → IsTrue (has_header bytes.now) }
{
    whole(alloc, bytes)
}

/// The whole of the bytes as one PDU.
#[tactic(auto, unfolding(crate::specs::Reading::pdu_of))]
fn whole(alloc: Global, bytes: &[u8]) -> Result<Pdu, WireBad>
    ensures reading { Answers (λ pdu. pdu) result (pdu_of bytes.now) }
    ensures memory { IsErrOf result WireBad.NoMemory → IsTrue (has_header bytes.now) }
{
    if bytes.len() < PDU_HEADER {
        return Err(WireBad::Short);
    }
    if BigEndian::read_u16(bytes) != VERSION {
        return Err(WireBad::BadVersion);
    }
    let behind = usize::from(BigEndian::read_u16(&bytes[2..]));
    if behind != bytes.len() - FRAME_HEADER || bytes.len() == PDU_HEADER {
        return Err(WireBad::BadPduLength);
    }
    let from = id_at(&bytes[4..]);
    let messages = messages(alloc, &bytes[PDU_HEADER..])?;
    Ok(Pdu::new(from, messages))
}

fn id_at(bytes: &[u8]) -> LdpId
    requires { 6 ≤ length bytes.now }
    ensures { result ≡ id_at bytes.now }
{
    LdpId {
        lsr: BigEndian::read_u32(bytes),
        space: BigEndian::read_u16(&bytes[4..]),
    }
}

/// The messages one after another, but for those that are passed over.
fn messages(alloc: Global, bytes: &[u8]) -> Result<ListOf<LdpMessage>, WireBad>
    ensures { Answers (λ messages. messages) result (messages_of bytes.now) }
{
    let mut messages = ListOf::from_vec(Vec::new(alloc));
    let mut rest = Rest::of(bytes);
    'messages: while !rest.is_empty() {
        if let Some(message) = message_at(alloc, &mut rest)? {
            messages.push(message).map_err(|_| WireBad::NoMemory)?;
        }
    }
    Ok(messages)
}

/// Takes the message at the front, none where it is passed over.
#[tactic(auto, unfolding(crate::specs::Reading::message_at))]
fn message_at(alloc: Global, rest: &mut Rest<'_>) -> Result<Option<LdpMessage>, WireBad>
    ensures { Answers (λ said. (said, rest.new)) result (message_at rest.old) }
{
    let Some((kind, contents)) = rest.take_front() else {
        return Err(WireBad::BadMessageLength);
    };
    if contents.len() < MESSAGE_ID {
        return Err(WireBad::BadMessageLength);
    }
    said(alloc, kind, contents)
}

/// The message of this type, none where it is passed over.
#[tactic(auto, unfolding(crate::specs::Reading::said_of))]
fn said(alloc: Global, kind: u16, contents: &[u8]) -> Result<Option<LdpMessage>, WireBad>
    requires { 4 ≤ length contents.now }
    ensures { Answers (λ said. said) result (said_of kind contents.now) }
{
    if kind >= U_BIT && !is_known_message(kind % U_BIT) {
        return Ok(None);
    }
    let id = BigEndian::read_u32(contents);
    let mut tlvs = Rest::of(&contents[MESSAGE_ID..]);
    let body = body_of(alloc, kind % U_BIT, &mut tlvs)?;
    if !are_passed_over(tlvs.bytes) {
        return Err(WireBad::BadTlv);
    }
    Ok(Some(LdpMessage { id, body }))
}

fn is_known_message(kind: u16) -> bool
    ensures { result ≡ is_known_message kind }
{
    matches!(
        kind,
        types::NOTIFICATION
            | types::INITIALIZATION
            | types::KEEP_ALIVE
            | types::ADDRESS
            | types::MAPPING
            | types::WITHDRAW
            | types::RELEASE
    )
}

/// What a message of this type says, by its mandatory TLVs, which it takes.
#[tactic(auto, unfolding(crate::specs::Reading::body_of))]
fn body_of(alloc: Global, kind: u16, tlvs: &mut Rest<'_>) -> Result<LdpBody, WireBad>
    ensures { Answers (λ body. (body, tlvs.new)) result (body_of kind tlvs.old) }
{
    match kind {
        types::NOTIFICATION => notification(tlvs),
        types::INITIALIZATION => initialization(tlvs),
        types::KEEP_ALIVE => Ok(LdpBody::KeepAlive),
        types::ADDRESS => address_message(alloc, tlvs),
        types::MAPPING => {
            let (prefix, label) = binding(tlvs)?;
            Ok(LdpBody::Mapping(prefix, label))
        }
        types::WITHDRAW => {
            let (prefix, label) = binding(tlvs)?;
            Ok(LdpBody::Withdraw(prefix, label))
        }
        types::RELEASE => {
            let (prefix, label) = binding(tlvs)?;
            Ok(LdpBody::Release(prefix, label))
        }
        _ => Err(WireBad::UnknownMessage),
    }
}

#[tactic(auto, unfolding(crate::specs::Reading::notification_of))]
fn notification(tlvs: &mut Rest<'_>) -> Result<LdpBody, WireBad>
    ensures { Gives (λ body. (body, tlvs.new)) result (notification_of tlvs.old) }
{
    let status = tlvs.take_mandatory(tlvs::STATUS)?;
    if status.len() != STATUS_SIZE {
        return Err(WireBad::BadTlv);
    }
    Ok(LdpBody::Notification {
        status: BigEndian::read_u32(status),
        about: BigEndian::read_u32(&status[4..]),
        kind: BigEndian::read_u16(&status[8..]),
    })
}

#[tactic(auto, unfolding(crate::specs::Reading::initialization_of))]
fn initialization(tlvs: &mut Rest<'_>) -> Result<LdpBody, WireBad>
    ensures { Gives (λ body. (body, tlvs.new)) result (initialization_of tlvs.old) }
{
    let parameters = tlvs.take_mandatory(tlvs::SESSION_PARAMETERS)?;
    if parameters.len() != SESSION_PARAMETERS_SIZE {
        return Err(WireBad::BadTlv);
    }
    Ok(asked(parameters))
}

/// What the value of the session parameters says.
fn asked(value: &[u8]) -> LdpBody
    requires { length value.now ≡ 14 }
    ensures { result ≡ asked value.now }
{
    LdpBody::Initialization {
        version: BigEndian::read_u16(value),
        keepalive: BigEndian::read_u16(&value[2..]),
        flags: value[4],
        limit: value[5],
        greatest: BigEndian::read_u16(&value[6..]),
        receiver: id_at(&value[8..]),
    }
}

#[tactic(auto, unfolding(crate::specs::Reading::address_message_of))]
fn address_message(alloc: Global, tlvs: &mut Rest<'_>) -> Result<LdpBody, WireBad>
    ensures { Answers (λ body. (body, tlvs.new)) result (address_message_of tlvs.old) }
{
    let list = tlvs.take_mandatory(tlvs::ADDRESS_LIST)?;
    if !is_address_list(list) {
        return Err(WireBad::BadTlv);
    }
    let addresses = addresses_of(alloc, &list[FAMILY_SIZE..])?;
    Ok(LdpBody::Address(addresses))
}

/// Whether it is the address family IPv4 and at least one address.
fn is_address_list(value: &[u8]) -> bool
    ensures { result ≡ is_address_list value.now }
{
    value.len() >= FAMILY_SIZE + ADDRESS_SIZE
        && BigEndian::read_u16(value) == IPV4
        && (value.len() - FAMILY_SIZE) % ADDRESS_SIZE == 0
}

/// Every four bytes as an address.
fn addresses_of(alloc: Global, bytes: &[u8]) -> Result<Addresses, WireBad>
    ensures { Answers (λ addresses. addresses) result (Ok (addresses_of bytes.now)) }
{
    let mut addresses = Vec::new(alloc);
    let mut rest = bytes;
    'addresses: while let Some((octets, behind)) = rest.split_first_chunk::<ADDRESS_SIZE>() {
        let address = BigEndian::read_u32(octets);
        addresses.push(address).map_err(|_| WireBad::NoMemory)?;
        rest = behind;
    }
    Ok(Addresses::from_vec(addresses))
}

/// The prefix and the label that a message binds.
#[tactic(auto, unfolding(crate::specs::Reading::binding_of))]
fn binding(tlvs: &mut Rest<'_>) -> Result<(Prefix, u32), WireBad>
    ensures { Gives (λ x. (x.0, x.1, tlvs.new)) result (binding_of tlvs.old) }
{
    let fec = tlvs.take_mandatory(tlvs::FEC)?;
    let prefix = prefix_of(fec).ok_or(WireBad::BadFec)?;
    let label = tlvs.take_mandatory(tlvs::GENERIC_LABEL)?;
    let label = read_label(label).ok_or(WireBad::BadTlv)?;
    Ok((prefix, label))
}

/// The prefix that is the one element of a FEC.
#[tactic(auto, unfolding(crate::specs::Reading::prefix_of))]
fn prefix_of(value: &[u8]) -> Option<Prefix>
    ensures { result ≡ prefix_of value.now }
{
    if value.len() < ELEMENT_HEADER
        || value[0] != PREFIX_ELEMENT
        || BigEndian::read_u16(&value[1..]) != IPV4
    {
        return None;
    }
    let first_bytes = &value[ELEMENT_HEADER..];
    if first_bytes.len() > ADDRESS_SIZE {
        return None;
    }
    let prefix = Prefix::new(address_of(first_bytes), value[3])?;
    if first_bytes.len() != octets(prefix.length()) {
        return None;
    }
    Some(prefix)
}

/// The label that is the value of a TLV.
#[tactic(auto, unfolding(crate::specs::Reading::read_label))]
fn read_label(value: &[u8]) -> Option<u32>
    ensures { result ≡ read_label value.now }
{
    if value.len() != LABEL_SIZE {
        return None;
    }
    let label = BigEndian::read_u32(value);
    is_label(label).then_some(label)
}

fn is_label(label: u32) -> bool
    ensures { result ≡ is_label label }
{
    label == IMPLICIT_NULL || (FIRST_LABEL..=LAST_LABEL).contains(&label)
}

/// Whether the bytes are whole TLVs with the U bit.
#[tactic(auto, using(crate::proofs::Loops::passing_over))]
fn are_passed_over(bytes: &[u8]) -> bool
    ensures { result ≡ are_passed_over bytes.now }
{
    let mut rest = Rest::of(bytes);
    'further: while !rest.is_empty() {
        match rest.take_front() {
            Some((kind, _)) if kind >= U_BIT => {}
            _ => return false,
        }
    }
    true
}

/// Bytes that are left to be read. Contracts see the list of them.
#[derive(Drop)]
struct Rest<'a> {
    bytes: &'a [u8],
}

impl<'a> Model for Rest<'a> {
    ghost use Rattle.std.specs.Prelude.{ℕ, List};

    ghost Value = { List ℕ };

    ghost view = { λ r. r.bytes.now };
}

impl<'a> Rest<'a> {
    fn of(bytes: &'a [u8]) -> Rest<'a>
        ensures { result ≡ bytes.now }
    {
        Rest { bytes }
    }

    fn is_empty(&self) -> bool
        ensures { result ≡ (length self.now == 0) }
    {
        self.bytes.is_empty()
    }

    /// Takes the value of the mandatory TLV of this type, which is due.
    #[tactic(auto, unfolding(crate::specs::Reading::mandatory_at))]
    fn take_mandatory(&mut self, kind: u16) -> Result<&'a [u8], WireBad>
        ensures { Gives (λ value. (value.now, self.new)) result (mandatory_at kind self.old) }
    {
        if self.is_empty() {
            return Err(WireBad::MissingTlv);
        }
        match self.take_front() {
            Some((found, value)) if found == kind => Ok(value),
            _ => Err(WireBad::BadTlv),
        }
    }

    /// Takes the message or TLV at the front: its type, and its value. None where the bytes end before it does.
    #[tactic(auto, unfolding(crate::specs::Reading::front_of))]
    fn take_front(&mut self) -> Option<(u16, &'a [u8])>
        ensures { MatchOption result (front_of self.old ≡ None) (λ x. front_of self.old ≡ Some (record { kind = x.0; value = x.1.now; rest = self.new })) }
    {
        let bytes = self.bytes;
        if bytes.len() < FRAME_HEADER {
            return None;
        }
        let size = usize::from(BigEndian::read_u16(&bytes[2..]));
        if bytes.len() - FRAME_HEADER < size {
            return None;
        }
        let (value, rest) = bytes[FRAME_HEADER..].split_at(size);
        self.bytes = rest;
        Some((BigEndian::read_u16(bytes), value))
    }
}
