// Messages as this network says them.
ghost use Rattle.std.specs.Prelude.{◌≡◌, ◌≤◌, ◌<◌, ◌+◌, ◌^◌, ◌∷◌, ◌++◌, [], true, false, length, replicate, IfOk, OnOk};
ghost use Rattle.byteorder.specs.Endian.{big_bytes};
ghost use Rattle.mn_base.specs.Numbers.{has_rd_form};
ghost use Rattle.mn_vpn_nlri.specs.Grammar.{IsAscending, AllTargets, IsNlri, AreTargets, written, written_targets};
ghost use Rattle.mn_bgp_wire.specs.declared.message.BgpMessage.{BgpMessage as Message};
ghost use Rattle.mn_bgp_wire.specs.Grammar.{IsBgp, is_extended, marker, vpn_family, message_bytes, update_kind, update_body, attribute_bytes, attributes_bytes};
ghost use Rattle.mn_bgp_wire.specs.Written.{open_bytes, keepalive_bytes, update_bytes, announced, withdrawn, withdrawn_route, reach_value, unreach_value, says_announced, says_withdrawn};

use crate::message::{
    AS_PATH, ASN_AT, ATTRIBUTES_AT, EXTENDED_COMMUNITIES, FAMILY, HEADER, HOLD_AT, HOP_AT,
    HOP_LENGTH, HOP_LENGTH_AT, ID_AT, KEEPALIVE, KIND_AT, LENGTH_AT, LENGTH_OF_ATTRIBUTES_AT,
    LOCAL_PREF, MP_REACH, MP_UNREACH, OPEN, OPTIONAL, ORIGIN, PARAMETERS_LENGTH_AT, REACH_HEAD,
    TRANSITIVE, UPDATE, VERSION, WITHDRAWN_LABEL,
};
use byteorder::{BigEndian, ByteOrder};
use mn_base::{Rd, Rt};
use mn_prefix::Prefix;
use mn_vpn_nlri::{VpnRoute, write_route, write_targets};
use std::alloc::{AllocError, Global};

/// The bytes of an OPEN with the one parameter.
const OPEN_SIZE: usize = 37;

/// The length of the parameters, and a parameter of type 2, of 6 bytes: the capability of multiprotocol extensions, of 4
/// bytes, which are IPv4, a reserved byte, and labelled VPN addresses (RFC 5492, section 4; RFC 4760, section 8).
const VPN_PARAMETER: [u8; 9] = [8, 2, 6, 1, 4, 0, 1, 0, 0x80];

/// The bytes of an UPDATE before its attributes.
const UPDATE_HEAD: usize = HEADER + ATTRIBUTES_AT;

/// The bytes of an attribute before its value, whose length has one byte (RFC 4271, section 4.3).
const ATTRIBUTE_HEAD: usize = 3;

/// The bytes of an ORIGIN, an AS_PATH, a LOCAL_PREF and the heads of two more attributes.
const OTHER_ATTRIBUTES: usize = 5 * ATTRIBUTE_HEAD + 5;

/// The most bytes of a route (RFC 8277, section 2.2).
const LONGEST_ROUTE: usize = 16;

/// The bytes of an extended community (RFC 4360, section 2).
const COMMUNITY: usize = 8;

/// The routes come from within the AS (RFC 4271, section 5.1.1).
const IGP: u8 = 0;

/// The preference that is usual (RFC 4271, section 5.1.5).
const PREFERENCE: u32 = 100;

/// An OPEN of this AS and identifier, with hold time 0 and the capability of VPN-IPv4 routes.
pub fn write_open(alloc: Global, asn: u16, id: u32) -> Result<Vec<u8>, AllocError>
    ensures written { IfOk result (λ message. message.items ≡ open_bytes asn id) }
    ensures read_again { IfOk result (λ message. IsBgp message.items (Message.Opening 4 asn 0 id true)) }
{
    Vec::from_slice(alloc, &open_message(asn, id))
}

fn open_message(asn: u16, id: u32) -> [u8; OPEN_SIZE]
    ensures { result ≡ open_bytes asn id }
{
    let mut message = [0xFF; OPEN_SIZE];
    BigEndian::write_u16(&mut message[LENGTH_AT..], OPEN_SIZE as u16);
    message[KIND_AT] = OPEN;
    message[HEADER] = VERSION;
    BigEndian::write_u16(&mut message[HEADER + ASN_AT..], asn);
    BigEndian::write_u16(&mut message[HEADER + HOLD_AT..], 0);
    BigEndian::write_u32(&mut message[HEADER + ID_AT..], id);
    message[HEADER + PARAMETERS_LENGTH_AT..].copy_from_slice(&VPN_PARAMETER);
    message
}

/// A KEEPALIVE.
pub fn write_keep(alloc: Global) -> Result<Vec<u8>, AllocError>
    ensures written { IfOk result (λ message. message.items ≡ keepalive_bytes) }
    ensures read_again { IfOk result (λ message. IsBgp message.items Message.KeepAlive) }
{
    Vec::from_slice(alloc, &keepalive_message())
}

fn keepalive_message() -> [u8; HEADER]
    ensures { result ≡ keepalive_bytes }
{
    let mut message = [0xFF; HEADER];
    BigEndian::write_u16(&mut message[LENGTH_AT..], HEADER as u16);
    message[KIND_AT] = KEEPALIVE;
    message
}

/// An UPDATE that announces a route, with the loopback of the edge that announces it as its next hop.
pub fn write_reach(
    alloc: Global,
    next_hop: u32,
    route: &VpnRoute,
    targets: &[Rt],
) -> Result<Vec<u8>, AllocError>
    requires distinguisher { has_rd_form route.now.rd.0 ≡ true }
    requires label { route.now.label < 2 ^ 20 }
    requires ascending { IsAscending targets.now }
    requires targets { AllTargets targets.now }
    requires few { length targets.now ≤ 16 }
    ensures written { IfOk result (λ message.
        message.items ≡ update_bytes (announced next_hop route.now targets.now)) }
    ensures read_again { IfOk result (λ message.
        IsBgp message.items (Message.Update (says_announced next_hop route.now targets.now))) }
{
    let attributes = announcement(alloc, next_hop, route, targets)?;
    update_message(alloc, &attributes)
}

/// An UPDATE that withdraws a route.
pub fn write_unreach(alloc: Global, rd: Rd, prefix: Prefix) -> Result<Vec<u8>, AllocError>
    requires { has_rd_form rd.0 ≡ true }
    ensures written { IfOk result (λ message. message.items ≡ update_bytes (withdrawn rd prefix)) }
    ensures read_again { IfOk result (λ message.
        IsBgp message.items (Message.Update (says_withdrawn rd prefix))) }
{
    let attributes = withdrawal(alloc, rd, prefix)?;
    update_message(alloc, &attributes)
}

/// The attributes of an announcement.
fn announcement(
    alloc: Global,
    next_hop: u32,
    route: &VpnRoute,
    targets: &[Rt],
) -> Result<Vec<u8>, AllocError>
    requires distinguisher { has_rd_form route.now.rd.0 ≡ true }
    requires label { route.now.label < 2 ^ 20 }
    requires ascending { IsAscending targets.now }
    requires targets { AllTargets targets.now }
    requires few { length targets.now ≤ 16 }
    ensures attributes { IfOk result (λ bytes.
        bytes.items ≡ attributes_bytes (announced next_hop route.now targets.now)) }
    ensures short { OnOk result (length (written route.now false) ≤ 16) }
    ensures is_route { OnOk result (IsNlri (written route.now false) route.now) }
    ensures are_targets { OnOk result (AreTargets (written_targets targets.now) targets.now) }
{
    let reach = reach_value(alloc, next_hop, route)?;
    let communities = communities_value(alloc, targets)?;
    let size = OTHER_ATTRIBUTES + reach.len() + communities.len();
    let mut attributes = Vec::with_capacity(alloc, size)?;
    put_attribute(&mut attributes, TRANSITIVE, ORIGIN, &[IGP])?;
    put_attribute(&mut attributes, TRANSITIVE, AS_PATH, &[])?;
    put_attribute(
        &mut attributes,
        TRANSITIVE,
        LOCAL_PREF,
        &PREFERENCE.to_be_bytes(),
    )?;
    put_attribute(&mut attributes, OPTIONAL, MP_REACH, &reach)?;
    put_attribute(
        &mut attributes,
        OPTIONAL | TRANSITIVE,
        EXTENDED_COMMUNITIES,
        &communities,
    )?;
    Ok(attributes)
}

/// The attributes of a withdrawal.
fn withdrawal(alloc: Global, rd: Rd, prefix: Prefix) -> Result<Vec<u8>, AllocError>
    requires { has_rd_form rd.0 ≡ true }
    ensures attributes { IfOk result (λ bytes. bytes.items ≡ attributes_bytes (withdrawn rd prefix)) }
    ensures short { OnOk result (length (written (withdrawn_route rd prefix) true) ≤ 16) }
    ensures is_route { OnOk result
        (IsNlri (written (withdrawn_route rd prefix) true) (withdrawn_route rd prefix)) }
{
    let unreach = unreach_value(alloc, rd, prefix)?;
    let mut attributes = Vec::with_capacity(alloc, ATTRIBUTE_HEAD + unreach.len())?;
    put_attribute(&mut attributes, OPTIONAL, MP_UNREACH, &unreach)?;
    Ok(attributes)
}

/// The value of an attribute 16, of at most 16 targets.
fn communities_value(alloc: Global, targets: &[Rt]) -> Result<Vec<u8>, AllocError>
    requires ascending { IsAscending targets.now }
    requires targets { AllTargets targets.now }
    requires few { length targets.now ≤ 16 }
    ensures value { IfOk result (λ value. value.items ≡ written_targets targets.now) }
    ensures short { IfOk result (λ value. length value.items ≤ 128) }
    ensures are_targets { OnOk result (AreTargets (written_targets targets.now) targets.now) }
{
    let mut value = Vec::with_capacity(alloc, COMMUNITY * targets.len())?;
    write_targets(&mut value, targets)?;
    Ok(value)
}

/// The value of an attribute 14, of at most 33 bytes.
fn reach_value(alloc: Global, next_hop: u32, route: &VpnRoute) -> Result<Vec<u8>, AllocError>
    requires distinguisher { has_rd_form route.now.rd.0 ≡ true }
    requires label { route.now.label < 2 ^ 20 }
    ensures value { IfOk result (λ value. value.items ≡ reach_value next_hop route.now) }
    ensures short { OnOk result (length (written route.now false) ≤ 16) }
    ensures is_route { OnOk result (IsNlri (written route.now false) route.now) }
{
    let mut value = Vec::with_capacity(alloc, REACH_HEAD + LONGEST_ROUTE)?;
    value.extend_from_slice(&reach_head(next_hop))?;
    write_route(&mut value, route, false)?;
    Ok(value)
}

fn reach_head(next_hop: u32) -> [u8; REACH_HEAD]
    ensures { result ≡ vpn_family ++ 12 ∷ replicate 8 0 ++ big_bytes 4 next_hop ++ 0 ∷ [] }
{
    let mut head = [0; REACH_HEAD];
    head[..FAMILY.len()].copy_from_slice(&FAMILY);
    head[HOP_LENGTH_AT] = HOP_LENGTH;
    BigEndian::write_u32(&mut head[HOP_AT..], next_hop);
    head
}

/// The value of an attribute 15, of at most 19 bytes.
fn unreach_value(alloc: Global, rd: Rd, prefix: Prefix) -> Result<Vec<u8>, AllocError>
    requires { has_rd_form rd.0 ≡ true }
    ensures value { IfOk result (λ value. value.items ≡ unreach_value rd prefix) }
    ensures short { OnOk result (length (written (withdrawn_route rd prefix) true) ≤ 16) }
    ensures is_route { OnOk result
        (IsNlri (written (withdrawn_route rd prefix) true) (withdrawn_route rd prefix)) }
{
    let route = VpnRoute {
        rd,
        prefix,
        label: WITHDRAWN_LABEL,
    };
    let mut value = Vec::with_capacity(alloc, FAMILY.len() + LONGEST_ROUTE)?;
    value.extend_from_slice(&FAMILY)?;
    write_route(&mut value, &route, true)?;
    Ok(value)
}

/// Appends an attribute whose length has one byte.
fn put_attribute(out: &mut Vec<u8>, flags: u8, kind: u8, value: &[u8]) -> Result<(), AllocError>
    requires short { length value.now < 256 }
    requires flags { is_extended flags ≡ false }
    ensures { OnOk result (out.new.items
        ≡ out.old.items ++ attribute_bytes (record { flags = flags; kind = kind; value = value.now })) }
{
    out.extend_from_slice(&[flags, kind, value.len() as u8])?;
    out.extend_from_slice(value)
}

/// An UPDATE with these attributes, and no IPv4 routes.
fn update_message(alloc: Global, attributes: &[u8]) -> Result<Vec<u8>, AllocError>
    requires { length attributes.now ≤ 4073 }
    ensures { IfOk result (λ message.
        message.items ≡ message_bytes update_kind (update_body attributes.now)) }
{
    let mut message = Vec::with_capacity(alloc, UPDATE_HEAD + attributes.len())?;
    message.extend_from_slice(&update_head(attributes.len() as u16))?;
    message.extend_from_slice(attributes)?;
    Ok(message)
}

/// The bytes of an UPDATE before its attributes.
fn update_head(length: u16) -> [u8; UPDATE_HEAD]
    requires { length ≤ 4073 }
    ensures { result
        ≡ marker ++ big_bytes 2 (23 + length) ++ update_kind ∷ big_bytes 2 0 ++ big_bytes 2 length }
{
    let mut head = [0xFF; UPDATE_HEAD];
    BigEndian::write_u16(&mut head[LENGTH_AT..], UPDATE_HEAD as u16 + length);
    head[KIND_AT] = UPDATE;
    BigEndian::write_u16(&mut head[HEADER..], 0);
    BigEndian::write_u16(&mut head[HEADER + LENGTH_OF_ATTRIBUTES_AT..], length);
    head
}
