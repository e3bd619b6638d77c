// The parameters of an OPEN, and the capabilities in one: each a kind, a length of one byte, and a value.
ghost use Rattle.std.specs.Prelude.{◌≡◌};
ghost use Rattle.std.specs.Option.{option_map};
ghost use Rattle.mn_bgp_wire.specs.Grammar.{is_vpn};
ghost use Rattle.mn_bgp_wire.specs.Reading.{field_at, vpn_among, vpn_in, vpn_offered};

use crate::message::{CAPABILITIES, MULTIPROTOCOL};
use std::marker::Model;

/// A parameter (RFC 4271, section 4.2), or a capability (RFC 5492, section 4).
#[derive(Drop)]
struct Field<'a> {
    kind: u8,
    value: &'a [u8],
}

impl<'a> Model for Field<'a> {
    ghost use Rattle.mn_bgp_wire.specs.Grammar.{Field as FieldBytes};

    ghost Value = { FieldBytes };

    ghost view = { λ f. record { kind = f.kind; value = f.value.now } };
}

/// The field at the front, and what stands behind it. None where the bytes end within it.
#[tactic(auto, unfolding(crate::specs::Reading::field_at))]
fn first_field(bytes: &[u8]) -> Option<(Field<'_>, &[u8])>
    ensures { option_map (λ found. (found.0, found.1.now)) result ≡ field_at bytes.now }
{
    match bytes {
        [kind, length, rest @ ..] => {
            let length = usize::from(*length);
            if rest.len() < length {
                return None;
            }
            let (value, others) = rest.split_at(length);
            let kind = *kind;
            Some((Field { kind, value }, others))
        }
        _ => None,
    }
}

/// Whether the capability is that of taking VPN-IPv4 routes (RFC 4760, section 8; RFC 4364, section 4.3.4).
fn is_vpn(capability: &Field<'_>) -> bool
    ensures { result ≡ is_vpn capability.now }
{
    let kind = capability.kind;
    kind == MULTIPROTOCOL && matches!(capability.value, [0, 1, _, 0x80])
}

/// Whether a capability for VPN-IPv4 is among these. None where they don't fill the bytes.
fn vpn_among(capabilities: &[u8]) -> Option<bool>
    ensures { result ≡ vpn_among capabilities.now }
{
    let mut found = false;
    let mut rest = capabilities;
    'capabilities: while !rest.is_empty() {
        let (capability, others) = first_field(rest)?;
        found |= is_vpn(&capability);
        rest = others;
    }
    Some(found)
}

fn vpn_in(parameter: &Field<'_>) -> Option<bool>
    ensures { result ≡ vpn_in parameter.now }
{
    if parameter.kind == CAPABILITIES {
        vpn_among(parameter.value)
    } else {
        Some(false)
    }
}

/// Whether some parameter has a capability for VPN-IPv4. None where the parameters don't fill the bytes, or where the
/// capabilities of one don't fill it.
pub(crate) fn vpn_offered(parameters: &[u8]) -> Option<bool>
    ensures { result ≡ vpn_offered parameters.now }
{
    let mut found = false;
    let mut rest = parameters;
    'parameters: while !rest.is_empty() {
        let (parameter, others) = first_field(rest)?;
        found |= vpn_in(&parameter)?;
        rest = others;
    }
    Some(found)
}
