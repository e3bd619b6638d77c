// The attributes of an UPDATE, one by one.
ghost use Rattle.std.specs.Prelude.{◌≡◌, ◌<◌, ◌≤◌, ◌/◌, ◌%◌, ◌^◌, ◌==◌, length};
ghost use Rattle.std.specs.Option.{option_map};
ghost use Rattle.std.specs.List.{list_all};
ghost use Rattle.mn_bgp_wire.specs.Grammar.{is_known_attribute, has, value_of};
ghost use Rattle.mn_bgp_wire.specs.Reading.{sized, attribute_at, attributes_of, attributes_in, or_else, has_twice, is_lawful, Gives};
ghost use Rattle.mn_bgp_wire.specs.declared.refusal.BgpWireBad.TheVariants.{BadAttribute};

use crate::message::{
    ATTRIBUTES_AT, EXTENDED_BIT, KNOWN, LENGTH_OF_ATTRIBUTES_AT, LOCAL_PREF, OPTIONAL_BIT, ORIGIN,
};
use crate::refusal::BgpWireBad;
use byteorder::{BigEndian, ByteOrder};
use std::alloc::Global;
use std::marker::Model;

/// A path attribute (RFC 4271, section 4.3).
#[derive(Drop)]
pub(crate) struct Attribute<'a> {
    flags: u8,
    kind: u8,
    value: &'a [u8],
}

impl<'a> Model for Attribute<'a> {
    ghost use Rattle.mn_bgp_wire.specs.Grammar.{PathAttribute};

    ghost Value = { PathAttribute };

    ghost view = { λ a. record { flags = a.flags; kind = a.kind; value = a.value.now } };
}

/// Whether a flag is set, by its place from the low end.
fn is_set(flags: u8, place: u8) -> bool
    requires { place < 8 }
    ensures { result ≡ (flags / 2 ^ place % 2 == 1) }
{
    flags >> place & 1 == 1
}

/// The length at the front, of two bytes or of one, and what stands behind it.
fn sized(extended: bool, bytes: &[u8]) -> Option<(usize, &[u8])>
    ensures { option_map (λ found. (found.0, found.1.now)) result ≡ sized extended bytes.now }
{
    match bytes {
        [high, low, rest @ ..] if extended => Some((
            usize::from(*high) * 256 + usize::from(*low),
            rest,
        )),
        [length, rest @ ..] if !extended => Some((usize::from(*length), rest)),
        _ => None,
    }
}

/// The attribute at the front, and what stands behind it. None where the bytes end within it.
#[tactic(auto, unfolding(crate::specs::Reading::attribute_at))]
fn first_attribute(bytes: &[u8]) -> Option<(Attribute<'_>, &[u8])>
    ensures { option_map (λ found. (found.0, found.1.now)) result ≡ attribute_at bytes.now }
{
    match bytes {
        [flags, kind, rest @ ..] => {
            let (flags, kind) = (*flags, *kind);
            let (length, rest) = sized(is_set(flags, EXTENDED_BIT), rest)?;
            if rest.len() < length {
                return None;
            }
            let (value, others) = rest.split_at(length);
            Some((Attribute { flags, kind, value }, others))
        }
        _ => None,
    }
}

/// The attributes, in their order.
fn attributes_of(alloc: Global, bytes: &[u8]) -> Result<Vec<Attribute<'_>>, BgpWireBad>
    ensures { Gives (λ attributes. attributes.items) result (or_else BadAttribute (attributes_of bytes.now)) }
{
    let mut attributes = Vec::new(alloc);
    let mut rest = bytes;
    'attributes: while !rest.is_empty() {
        let Some((attribute, others)) = first_attribute(rest) else {
            return Err(BgpWireBad::BadAttribute);
        };
        attributes.push(attribute)?;
        rest = others;
    }
    Ok(attributes)
}

/// The value of the attribute of this type. None where there is none.
pub(crate) fn value_of<'a>(kind: u8, attributes: &[Attribute<'a>]) -> Option<&'a [u8]>
    ensures { option_map (λ value. value.now) result ≡ value_of kind attributes.now }
{
    attributes
        .iter()
        .find(|attribute| attribute.kind == kind)
        .map(|attribute| attribute.value)
}

/// Whether there is an attribute of this type.
pub(crate) fn has(kind: u8, attributes: &[Attribute<'_>]) -> bool
    ensures { result ≡ has kind attributes.now }
{
    attributes.iter().any(|attribute| attribute.kind == kind)
}

/// Whether two attributes are of one type.
pub(crate) fn has_twice(attributes: &[Attribute<'_>]) -> bool
    ensures { result ≡ has_twice attributes.now }
{
    let mut rest = attributes;
    'attributes: while let [attribute, others @ ..] = rest {
        if has(attribute.kind, others) {
            return true;
        }
        rest = others;
    }
    false
}

/// Whether the value has a length that one of its type may have, and the type is known or may be passed over.
#[tactic(auto, unfolding(crate::specs::Reading::is_lawful))]
fn is_lawful(attribute: &Attribute<'_>) -> bool
    ensures { result ≡ is_lawful attribute.now }
{
    match attribute.kind {
        ORIGIN => attribute.value.len() == 1,
        LOCAL_PREF => attribute.value.len() == 4,
        kind => is_known_attribute(kind) || is_set(attribute.flags, OPTIONAL_BIT),
    }
}

fn is_known_attribute(kind: u8) -> bool
    ensures { result ≡ is_known_attribute kind }
{
    KNOWN.contains(&kind)
}

pub(crate) fn are_lawful(attributes: &[Attribute<'_>]) -> bool
    ensures { result ≡ list_all is_lawful attributes.now }
{
    attributes.iter().all(is_lawful)
}

/// The attributes of an UPDATE, whose IPv4 parts have to be empty (RFC 4271, section 4.3).
#[tactic(auto, unfolding(crate::specs::Reading::attributes_in))]
pub(crate) fn attributes_in(alloc: Global, body: &[u8]) -> Result<Vec<Attribute<'_>>, BgpWireBad>
    requires { 4 ≤ length body.now }
    ensures { Gives (λ attributes. attributes.items) result (or_else BadAttribute (attributes_in body.now)) }
{
    let attributes = &body[ATTRIBUTES_AT..];
    if BigEndian::read_u16(body) != 0
        || usize::from(BigEndian::read_u16(&body[LENGTH_OF_ATTRIBUTES_AT..])) != attributes.len()
    {
        return Err(BgpWireBad::BadAttribute);
    }
    attributes_of(alloc, attributes)
}
