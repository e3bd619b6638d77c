//! LDP PDUs, read and written, and messages by the words of a row.
ghost use Rattle.std.specs.Prelude.{◌<◌, ◌≤◌, IfOk, IfSome, length};
ghost use Rattle.mn_ldp_wire.specs.Grammar.{IsLabel, IsWritable};

use crate::bytes::{WORDS, bytes_from, read_row};
use mn_ldp_wire::{Addresses, LdpBody, LdpId, LdpMessage, Pdu, read_pdu, write_pdu};
use mn_prefix::Prefix;
use mn_rows::{Answer, Call, Dotted, Slashed, done, in_hex};
use std::alloc::{AllocError, Global};
use std::fmt::Write;

/// As `192.0.2.1:0`.
fn put_id(text: &mut String, id: LdpId) -> Result<(), AllocError> {
    write!(text, "{}:{}", Dotted(id.lsr), id.space)
}

fn put_binding(
    text: &mut String,
    name: &str,
    prefix: Prefix,
    label: u32,
) -> Result<(), AllocError> {
    write!(text, "{name} {} {label}", Slashed(prefix))
}

fn put_addresses(text: &mut String, addresses: &Addresses) -> Result<(), AllocError> {
    text.push_str("Address")?;
    for address in addresses.as_slice() {
        write!(text, " {}", Dotted(*address))?;
    }
    Ok(())
}

/// The kind of a message, and then its fields.
fn put_body(text: &mut String, body: &LdpBody) -> Result<(), AllocError> {
    match body {
        LdpBody::Notification {
            status,
            about,
            kind,
        } => write!(text, "Notification {status:08X} {about} {kind:04X}"),
        LdpBody::Initialization {
            version,
            keepalive,
            flags,
            limit,
            greatest,
            receiver,
        } => {
            write!(
                text,
                "Initialization {version} {keepalive} {flags} {limit} {greatest} "
            )?;
            put_id(text, *receiver)
        }
        LdpBody::KeepAlive => text.push_str("KeepAlive"),
        LdpBody::Address(addresses) => put_addresses(text, addresses),
        LdpBody::Mapping(prefix, label) => put_binding(text, "Mapping", *prefix, *label),
        LdpBody::Withdraw(prefix, label) => put_binding(text, "Withdraw", *prefix, *label),
        LdpBody::Release(prefix, label) => put_binding(text, "Release", *prefix, *label),
    }
}

/// The sender, and of each message its id and what it says.
fn pdu_text(alloc: Global, pdu: &Pdu) -> Result<String, AllocError> {
    let mut text = String::new(alloc);
    put_id(&mut text, pdu.from())?;
    for message in pdu.messages() {
        let id = message.id;
        write!(text, "; {id} ")?;
        put_body(&mut text, &message.body)?;
    }
    Ok(text)
}

fn reading(alloc: Global, bytes: &[u8]) -> Result<String, AllocError> {
    match read_pdu(alloc, bytes) {
        Ok(pdu) => pdu_text(alloc, &pdu),
        Err(bad) => format!(in alloc; "{bad:?}"),
    }
}

/// A router and one of its label spaces, as `192.0.2.1:0`.
pub(crate) fn ldp_id(call: Call<'_>, k: usize) -> Option<LdpId> {
    let [_, kind, a, b, c, d, e, f] = call.rd(k)?.0.to_be_bytes();
    if kind != 1 {
        return None;
    }
    Some(LdpId {
        lsr: u32::from_be_bytes([a, b, c, d]),
        space: u16::from_be_bytes([e, f]),
    })
}

/// A label that may be given: 3, or from 16 to 1,048,575.
fn label_at(call: Call<'_>, k: usize) -> Option<u32>
    ensures { IfSome result IsLabel }
{
    let label = call.number(k, 1_048_575)? as u32;
    if label != 3 && label < 16 {
        return None;
    }
    Some(label)
}

fn addresses_from(alloc: Global, call: Call<'_>, k: usize) -> Result<Option<Addresses>, AllocError>
    ensures { IfOk result (λ found. IfSome found (λ list. (0 < length list) × (length list ≤ 1000))) }
{
    let mut list = Vec::new(alloc);
    for at in k..WORDS {
        match call.address(at) {
            Some(address) => list.push(address)?,
            None => break,
        }
    }
    if list.is_empty() || list.len() > 1000 {
        return Ok(None);
    }
    Ok(Some(Addresses::of(alloc, &list)?))
}

fn binding(call: Call<'_>, k: usize) -> Option<LdpBody>
    requires { k ≤ 8 }
    ensures { IfSome result IsWritable }
{
    let prefix = call.prefix(k + 1)?;
    let label = label_at(call, k + 2)?;
    match call.word(k)? {
        b"Mapping" => Some(LdpBody::Mapping(prefix, label)),
        b"Withdraw" => Some(LdpBody::Withdraw(prefix, label)),
        b"Release" => Some(LdpBody::Release(prefix, label)),
        _ => None,
    }
}

fn initialization(call: Call<'_>, k: usize) -> Option<LdpBody>
    requires { k ≤ 8 }
    ensures { IfSome result IsWritable }
{
    Some(LdpBody::Initialization {
        version: call.number_u16(k)?,
        keepalive: call.number_u16(k + 1)?,
        flags: call.number_u8(k + 2)?,
        limit: call.number_u8(k + 3)?,
        greatest: call.number_u16(k + 4)?,
        receiver: ldp_id(call, k + 5)?,
    })
}

/// A status code and a type in hexadecimal, and between them the id of a message.
fn notification(alloc: Global, call: Call<'_>, k: usize) -> Result<Option<LdpBody>, AllocError>
    requires { k ≤ 8 }
    ensures { IfOk result (λ found. IfSome found IsWritable) }
{
    let (Some(status), Some(about), Some(kind)) = (
        call.bytes(alloc, k)?,
        call.number_u32(k + 1),
        call.bytes(alloc, k + 2)?,
    ) else {
        return Ok(None);
    };
    let ([a, b, c, d], [high, low]) = (status.as_slice(), kind.as_slice()) else {
        return Ok(None);
    };
    Ok(Some(LdpBody::Notification {
        status: u32::from_be_bytes([*a, *b, *c, *d]),
        about,
        kind: u16::from_be_bytes([*high, *low]),
    }))
}

/// What a message says, by its kind and fields as `put_body` writes them.
pub(crate) fn body_from(
    alloc: Global,
    call: Call<'_>,
    k: usize,
) -> Result<Option<LdpBody>, AllocError>
    requires { k < 8 }
    ensures { IfOk result (λ found. IfSome found IsWritable) }
{
    match call.word(k) {
        Some(b"Notification") => notification(alloc, call, k + 1),
        Some(b"Initialization") => Ok(initialization(call, k + 1)),
        Some(b"KeepAlive") => Ok(Some(LdpBody::KeepAlive)),
        Some(b"Address") => Ok(addresses_from(alloc, call, k + 1)?.map(LdpBody::Address)),
        _ => Ok(binding(call, k)),
    }
}

fn write_row(alloc: Global, call: Call<'_>) -> Answer {
    let (Some(from), Some(id), Some(body)) = (
        ldp_id(call, 2),
        call.number_u32(3),
        body_from(alloc, call, 4)?,
    ) else {
        return Ok(None);
    };
    let bytes = write_pdu(alloc, from, &LdpMessage { id, body })?;
    Ok(Some(in_hex(alloc, &bytes)?))
}

fn laws(alloc: Global) -> Answer {
    mn_ldp_wire::reading_is_the_grammar();
    mn_ldp_wire::each_refusal_has_its_cause();
    mn_ldp_wire::no_front_is_read();
    done(alloc)
}

pub(crate) fn ldp_row(alloc: Global, call: Call<'_>) -> Answer {
    match call.verb() {
        b"write" => write_row(alloc, call),
        b"laws" => laws(alloc),
        _ => read_row(alloc, call, bytes_from(alloc, call, 2)?, reading),
    }
}
