//! BGP messages, read and written.
use crate::bytes::{bytes_from, read_row};
use crate::named::says;
use crate::routes::{rd_at, route_at, targets_at};
use crate::text::Routed;
use mn_bgp_wire::{
    BgpMessage, BgpWireBad, Update, read_bgp, write_keep, write_open, write_reach, write_unreach,
};
use mn_rows::{Answer, Call, Dotted, Paired, done, in_hex};
use std::alloc::{AllocError, Global};
use std::fmt::Write;

const REFUSALS: [BgpWireBad; 8] = [
    BgpWireBad::Short,
    BgpWireBad::BadMarker,
    BgpWireBad::BadLength,
    BgpWireBad::BadType,
    BgpWireBad::BadOpen,
    BgpWireBad::BadAttribute,
    BgpWireBad::MissingAttribute,
    BgpWireBad::NoMemory,
];

/// The most bytes that are framed.
const MOST: usize = 60_000;

/// The next hop, and then the routes and targets, each behind its word.
pub(crate) fn put_update(text: &mut String, update: &Update) -> Result<(), AllocError> {
    write!(text, "Update, next hop {}", Dotted(update.next_hop()))?;
    for route in update.reached() {
        write!(text, ", reach {}", Routed(route))?;
    }
    for route in update.withdrawn() {
        write!(text, ", withdraw {}", Routed(route))?;
    }
    for target in update.targets() {
        write!(text, ", target {}", Paired(target.0))?;
    }
    Ok(())
}

fn put_message(text: &mut String, message: &BgpMessage) -> Result<(), AllocError> {
    match message {
        BgpMessage::Opening {
            version,
            asn,
            hold,
            id,
            vpn,
        } => {
            let vpn = if *vpn { ", vpn" } else { "" };
            let id = Dotted(*id);
            write!(
                text,
                "Opening, version {version}, as {asn}, hold {hold}, id {id}{vpn}"
            )
        }
        BgpMessage::Update(update) => put_update(text, update),
        BgpMessage::Notification { code, subcode } => {
            write!(text, "Notification {code} {subcode}")
        }
        BgpMessage::KeepAlive => text.push_str("KeepAlive"),
    }
}

fn reading(alloc: Global, bytes: &[u8]) -> Result<String, AllocError> {
    match read_bgp(alloc, bytes) {
        Err(bad) => format!(in alloc; "{bad:?}"),
        Ok(message) => {
            let mut text = String::new(alloc);
            put_message(&mut text, &message)?;
            Ok(text)
        }
    }
}

/// A message of this type and body.
fn framed(alloc: Global, kind: u8, body: &[u8]) -> Result<Option<Vec<u8>>, AllocError> {
    if body.len() > MOST {
        return Ok(None);
    }
    let mut message = Vec::from_slice(alloc, &[0xFF; 16])?;
    message.extend_from_slice(&(body.len() as u16 + 19).to_be_bytes())?;
    message.push(kind)?;
    message.extend_from_slice(body)?;
    Ok(Some(message))
}

/// An UPDATE with no IPv4 part and these attributes.
fn update(alloc: Global, attributes: &[u8]) -> Result<Option<Vec<u8>>, AllocError> {
    if attributes.len() > 4_000 {
        return Ok(None);
    }
    let mut body = Vec::from_slice(alloc, &[0, 0])?;
    body.extend_from_slice(&(attributes.len() as u16).to_be_bytes())?;
    body.extend_from_slice(attributes)?;
    framed(alloc, 2, &body)
}

/// The message whose bytes, attributes, or type and body a row has.
pub(crate) fn message_from(alloc: Global, call: Call<'_>) -> Result<Option<Vec<u8>>, AllocError> {
    if call.has(2, b"body") {
        let (Some(kind), Some(body)) = (call.number_u8(3), bytes_from(alloc, call, 4)?) else {
            return Ok(None);
        };
        return framed(alloc, kind, &body);
    }
    if call.has(2, b"update") {
        let Some(attributes) = bytes_from(alloc, call, 3)? else {
            return Ok(None);
        };
        return update(alloc, &attributes);
    }
    bytes_from(alloc, call, 2)
}

fn reach(alloc: Global, call: Call<'_>) -> Result<Option<Vec<u8>>, AllocError> {
    let (Some(hop), Some(route), Some(targets)) = (
        call.address(2),
        route_at(call, 3),
        targets_at(alloc, call, 6)?,
    ) else {
        return Ok(None);
    };
    Ok(Some(write_reach(alloc, hop, &route, &targets)?))
}

fn written(alloc: Global, call: Call<'_>) -> Result<Option<Vec<u8>>, AllocError> {
    match call.verb() {
        b"write_open" => match (call.number_u16(2), call.address(3)) {
            (Some(asn), Some(id)) => Ok(Some(write_open(alloc, asn, id)?)),
            _ => Ok(None),
        },
        b"write_keep" => Ok(Some(write_keep(alloc)?)),
        b"write_reach" => reach(alloc, call),
        b"write_unreach" => match (rd_at(call, 2), call.prefix(3)) {
            (Some(rd), Some(prefix)) => Ok(Some(write_unreach(alloc, rd, prefix)?)),
            _ => Ok(None),
        },
        _ => Ok(None),
    }
}

fn write_row(alloc: Global, call: Call<'_>) -> Answer {
    match written(alloc, call)? {
        Some(bytes) => Ok(Some(in_hex(alloc, &bytes)?)),
        None => Ok(None),
    }
}

fn laws(alloc: Global) -> Answer {
    mn_bgp_wire::message_is_read();
    mn_bgp_wire::no_front_is_read();
    mn_bgp_wire::refused_for_its_body();
    done(alloc)
}

pub(crate) fn bgp_row(alloc: Global, call: Call<'_>) -> Answer {
    match call.verb() {
        b"read" | b"fronts" => read_row(alloc, call, message_from(alloc, call)?, reading),
        b"says" => says(alloc, call, &REFUSALS),
        b"laws" => laws(alloc),
        _ => write_row(alloc, call),
    }
}
