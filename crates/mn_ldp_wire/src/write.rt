// A PDU of one message, in its written spelling: no U bit, and no TLVs but the mandatory ones.
ghost use Rattle.std.specs.Prelude.{◌≡◌, ◌≤◌, ◌<◌, ◌+◌, ◌*◌, ◌^◌, ◌++◌, ◌∷◌, [], ℕ, Ok, Err, length, take, IfOk, OnOk};
ghost use Rattle.std.specs.List.{AllByRecursion};
ghost use Rattle.byteorder.specs.Endian.{big_bytes};
ghost use Rattle.mn_prefix.specs.Prefix.{IsPrefix};
ghost use Rattle.mn_ldp_wire.specs.Grammar.{framed, prefix_element, address_list, status_value, session_parameters, ldp_id, binding, mandatory_tlvs, type_of, written, IsStatus, IsAsked, AreAddresses, IsBinding, IsLabel, IsLawful, IsWritable, IsPdu, FitsId};
ghost use Rattle.mn_ldp_wire.specs.Reading.{pdu_of, cut_bad};

use crate::message::{
    ADDRESS_SIZE, ELEMENT_HEADER, FAMILY_SIZE, FRAME_HEADER, IPV4, LABEL_SIZE, LDP_ID, LdpBody,
    LdpId, LdpMessage, MESSAGE_ID, PDU_HEADER, PREFIX_ELEMENT, SESSION_PARAMETERS_SIZE,
    STATUS_SIZE, VERSION, tlvs, types,
};
use byteorder::{BigEndian, ByteOrder};
use mn_prefix::{Prefix, octets};
use std::alloc::{AllocError, Global};

/// Writes a message as a PDU of its own. It has from 1 to 1,000 addresses, and a label that is 3 or from 16 to 1,048,575.
pub fn write_pdu(alloc: Global, from: LdpId, message: &LdpMessage) -> Result<Vec<u8>, AllocError>
    requires { IsWritable message.now.body }
    ensures written { IfOk result (λ pdu. pdu.items ≡ written from message.now) }
    // It is a PDU of this message,
    ensures is_pdu { IfOk result (λ pdu. IsPdu pdu.items from (message.now ∷ [])) }
    // and read as it,
    ensures again { IfOk result (λ pdu. pdu_of pdu.items ≡ Ok (record { from = from; messages = message.now ∷ [] })) }
    // and no part of it that lacks bytes at its end is read.
    ensures cut { IfOk result (λ pdu. (k : ℕ) → k < length pdu.items →
        pdu_of (take k pdu.items) ≡ Err (cut_bad k)) }
{
    let contents = MESSAGE_ID + tlvs_size(&message.body);
    let mut pdu = Vec::with_capacity(alloc, PDU_HEADER + FRAME_HEADER + contents)?;
    put_u16(&mut pdu, VERSION)?;
    put_u16(&mut pdu, (LDP_ID + FRAME_HEADER + contents) as u16)?;
    put_id(&mut pdu, from)?;
    put_u16(&mut pdu, type_of(&message.body))?;
    put_u16(&mut pdu, contents as u16)?;
    put_u32(&mut pdu, message.id)?;
    put_mandatory_tlvs(&mut pdu, &message.body)?;
    Ok(pdu)
}

/// The type of the message that says this.
fn type_of(body: &LdpBody) -> u16
    ensures { result ≡ type_of body.now }
{
    match body {
        LdpBody::Notification { .. } => types::NOTIFICATION,
        LdpBody::Initialization { .. } => types::INITIALIZATION,
        LdpBody::KeepAlive => types::KEEP_ALIVE,
        LdpBody::Address(_) => types::ADDRESS,
        LdpBody::Mapping(..) => types::MAPPING,
        LdpBody::Withdraw(..) => types::WITHDRAW,
        LdpBody::Release(..) => types::RELEASE,
    }
}

/// The size of the mandatory TLVs of the message that says this, in bytes.
fn tlvs_size(body: &LdpBody) -> usize
    requires { IsWritable body.now }
    ensures { result ≡ length (mandatory_tlvs body.now) }
{
    match body {
        LdpBody::Notification { .. } => FRAME_HEADER + STATUS_SIZE,
        LdpBody::Initialization { .. } => FRAME_HEADER + SESSION_PARAMETERS_SIZE,
        LdpBody::KeepAlive => 0,
        LdpBody::Address(addresses) => {
            FRAME_HEADER + FAMILY_SIZE + ADDRESS_SIZE * addresses.as_slice().len()
        }
        LdpBody::Mapping(prefix, _) | LdpBody::Withdraw(prefix, _) | LdpBody::Release(prefix, _) =>
            binding_size(*prefix),
    }
}

/// The size of the TLVs of a prefix and its label, in bytes.
fn binding_size(prefix: Prefix) -> usize
    ensures { (label : ℕ) → result ≡ length (binding prefix label) }
{
    2 * FRAME_HEADER + ELEMENT_HEADER + octets(prefix.length()) + LABEL_SIZE
}

/// Appends the mandatory TLVs of the message that says this.
fn put_mandatory_tlvs(out: &mut Vec<u8>, body: &LdpBody) -> Result<(), AllocError>
    requires { IsWritable body.now }
    ensures tlvs { OnOk result (out.new.items ≡ out.old.items ++ mandatory_tlvs body.now) }
    ensures lawful { OnOk result (IsLawful body.now) }
{
    match body {
        LdpBody::Notification {
            status,
            about,
            kind,
        } => {
            let value = status_value(*status, *about, *kind);
            put_tlv(out, tlvs::STATUS, &value)?;
        }
        LdpBody::Initialization {
            version,
            keepalive,
            flags,
            limit,
            greatest,
            receiver,
        } => {
            let value = session_parameters(
                *version, *keepalive, *flags, *limit, *greatest, *receiver,
            );
            put_tlv(out, tlvs::SESSION_PARAMETERS, &value)?;
        }
        LdpBody::KeepAlive => {}
        LdpBody::Address(addresses) => put_addresses(out, addresses.as_slice())?,
        LdpBody::Mapping(prefix, label)
        | LdpBody::Withdraw(prefix, label)
        | LdpBody::Release(prefix, label) => put_binding(out, *prefix, *label)?,
    }
    Ok(())
}

#[tactic(auto, unfolding(crate::specs::Grammar::status_value))]
fn status_value(status: u32, about: u32, kind: u16) -> [u8; STATUS_SIZE]
    ensures value { result ≡ status_value status about kind }
    ensures lawful { IsStatus status about kind }
{
    let mut value = [0; STATUS_SIZE];
    BigEndian::write_u32(&mut value, status);
    BigEndian::write_u32(&mut value[4..], about);
    BigEndian::write_u16(&mut value[8..], kind);
    value
}

#[tactic(auto, unfolding(crate::specs::Grammar::session_parameters))]
fn session_parameters(
    version: u16,
    keepalive: u16,
    flags: u8,
    limit: u8,
    greatest: u16,
    receiver: LdpId,
) -> [u8; SESSION_PARAMETERS_SIZE]
    ensures value { result ≡ session_parameters version keepalive flags limit greatest receiver }
    ensures lawful { IsAsked version keepalive flags limit greatest receiver }
{
    let mut value = [0; SESSION_PARAMETERS_SIZE];
    BigEndian::write_u16(&mut value, version);
    BigEndian::write_u16(&mut value[2..], keepalive);
    value[4] = flags;
    value[5] = limit;
    BigEndian::write_u16(&mut value[6..], greatest);
    BigEndian::write_u32(&mut value[8..], receiver.lsr);
    BigEndian::write_u16(&mut value[12..], receiver.space);
    value
}

/// Appends the TLV of these addresses, at most 1,000.
fn put_addresses(out: &mut Vec<u8>, addresses: &[u32]) -> Result<(), AllocError>
    requires { length addresses.now ≤ 1000 }
    ensures tlv { OnOk result (out.new.items ≡ out.old.items ++ framed 0x0101 (address_list addresses.now)) }
    ensures fit { AllByRecursion (λ address. address < 2 ^ 32) addresses.now }
{
    put_u16(out, tlvs::ADDRESS_LIST)?;
    put_u16(out, (FAMILY_SIZE + ADDRESS_SIZE * addresses.len()) as u16)?;
    put_u16(out, IPV4)?;
    'addresses: for address in addresses {
        put_u32(out, *address)?;
    }
    Ok(())
}

/// Appends the TLVs of a prefix and its label.
fn put_binding(out: &mut Vec<u8>, prefix: Prefix, label: u32) -> Result<(), AllocError>
    ensures tlvs { OnOk result (out.new.items ≡ out.old.items ++ binding prefix label) }
    ensures lawful { IsPrefix prefix.address prefix.length }
{
    put_prefix(out, prefix)?;
    put_tlv(out, tlvs::GENERIC_LABEL, &label.to_be_bytes())
}

/// Appends the TLV of a FEC that is one prefix.
fn put_prefix(out: &mut Vec<u8>, prefix: Prefix) -> Result<(), AllocError>
    ensures tlv { OnOk result (out.new.items ≡ out.old.items ++ framed 0x0100 (prefix_element prefix)) }
    ensures lawful { IsPrefix prefix.address prefix.length }
{
    let length = prefix.length();
    let address = prefix.address().to_be_bytes();
    let first_bytes = &address[..octets(length)];
    put_u16(out, tlvs::FEC)?;
    put_u16(out, (ELEMENT_HEADER + first_bytes.len()) as u16)?;
    out.push(PREFIX_ELEMENT)?;
    put_u16(out, IPV4)?;
    out.push(length)?;
    out.extend_from_slice(first_bytes)
}

/// Appends a TLV.
#[tactic(auto, unfolding(crate::specs::Grammar::framed))]
fn put_tlv(out: &mut Vec<u8>, kind: u16, value: &[u8]) -> Result<(), AllocError>
    requires { length value.now < 2 ^ 16 }
    ensures { OnOk result (out.new.items ≡ out.old.items ++ framed kind value.now) }
{
    put_u16(out, kind)?;
    put_u16(out, value.len() as u16)?;
    out.extend_from_slice(value)
}

fn put_id(out: &mut Vec<u8>, id: LdpId) -> Result<(), AllocError>
    ensures id { OnOk result (out.new.items ≡ out.old.items ++ ldp_id id) }
    ensures fits { FitsId id }
{
    put_u32(out, id.lsr)?;
    put_u16(out, id.space)
}

fn put_u16(out: &mut Vec<u8>, number: u16) -> Result<(), AllocError>
    ensures { OnOk result (out.new.items ≡ out.old.items ++ big_bytes 2 number) }
{
    out.extend_from_slice(&number.to_be_bytes())
}

fn put_u32(out: &mut Vec<u8>, number: u32) -> Result<(), AllocError>
    ensures bytes { OnOk result (out.new.items ≡ out.old.items ++ big_bytes 4 number) }
    ensures fits { number < 2 ^ 32 }
{
    out.extend_from_slice(&number.to_be_bytes())
}
