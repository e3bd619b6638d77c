// An attribute of an UPDATE by its type.
ghost use Rattle.std.specs.Prelude.{◌≡◌, ◌≤◌, ◌<◌, ◌/◌, ◌%◌, ◌^◌, ◌==◌, List, Some, length};
ghost use Rattle.std.specs.Option.{option_map};
ghost use Rattle.mn_bgp_wire.specs.Grammar.{PathAttribute, value_of};
ghost use Rattle.mn_bgp_wire.specs.Reading.{sized, attribute_at, attributes_of};

use crate::message::EXTENDED_BIT;
use std::marker::Model;

/// A path attribute (RFC 4271, section 4.3).
#[derive(Drop)]
struct Attribute<'a> {
    flags: u8,
    kind: u8,
    value: &'a [u8],
}

impl<'a> Model for Attribute<'a> {
    ghost use Rattle.mn_bgp_wire.specs.Grammar.{PathAttribute};

    ghost Value = { PathAttribute };

    ghost view = { λ a. record { flags = a.flags; kind = a.kind; value = a.value.now } };
}

/// The length at the front, of two bytes or of one, and what stands behind it.
fn sized(extended: bool, bytes: &[u8]) -> Option<(usize, &[u8])>
    ensures { option_map (λ found. (found.0, found.1.now)) result ≡ sized extended bytes.now }
{
    match bytes {
        [high, low, rest @ ..] if extended => Some((
            usize::from(*high) * 256 + usize::from(*low),
            rest,
        )),
        [length, rest @ ..] if !extended => Some((usize::from(*length), rest)),
        _ => None,
    }
}

/// The attribute at the front, and what stands behind it. None where the bytes end within it.
#[tactic(auto, unfolding(mn_bgp_wire::specs::Reading::attribute_at))]
fn first_attribute(bytes: &[u8]) -> Option<(Attribute<'_>, &[u8])>
    ensures { option_map (λ found. (found.0, found.1.now)) result ≡ attribute_at bytes.now }
{
    match bytes {
        [flags, kind, rest @ ..] => {
            let (flags, kind) = (*flags, *kind);
            let (length, rest) = sized(flags >> EXTENDED_BIT & 1 == 1, rest)?;
            if rest.len() < length {
                return None;
            }
            let (value, others) = rest.split_at(length);
            Some((Attribute { flags, kind, value }, others))
        }
        _ => None,
    }
}

/// The value of the attribute of this type, among attributes that fill the bytes. None where there is none.
pub(crate) fn value_of(kind: u8, bytes: &[u8]) -> Option<&[u8]>
    ensures { (attributes : List PathAttribute) → attributes_of bytes.now ≡ Some attributes →
        option_map (λ value. value.now) result ≡ value_of kind attributes }
{
    let mut rest = bytes;
    'attributes: while let Some((attribute, others)) = first_attribute(rest) {
        if attribute.kind == kind {
            return Some(attribute.value);
        }
        rest = others;
    }
    None
}
