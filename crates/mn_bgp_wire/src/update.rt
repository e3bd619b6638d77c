// What the attributes of an UPDATE say together.
ghost use Rattle.std.specs.Prelude.{◌≡◌, ◌≤◌, length};
ghost use Rattle.mn_bgp_wire.specs.Reading.{in_attribute, is_family, reach_of, unreach_of, communities_of, reach_in, unreach_in, targets_in, is_missing, says_of, update_of, Gives, Answers};
ghost use Rattle.mn_vpn_nlri.specs.Reading.{routes_of};

use crate::attributes::{Attribute, are_lawful, attributes_in, has, has_twice, value_of};
use crate::message::{
    AS_PATH, EXTENDED_COMMUNITIES, FAMILY, HOP_AT, HOP_LENGTH, HOP_LENGTH_AT, LOCAL_PREF, MP_REACH,
    MP_UNREACH, ORIGIN, REACH_HEAD, Update,
};
use crate::refusal::BgpWireBad;
use byteorder::{BigEndian, ByteOrder};
use mn_base::Rt;
use mn_vpn_nlri::{NlriBad, VpnRoute, read_route, read_targets};
use std::alloc::Global;

/// Whether the value begins with IPv4 and labelled VPN addresses (RFC 4364, section 4.3.4).
fn is_family(value: &[u8]) -> bool
    requires { 3 ≤ length value.now }
    ensures { result ≡ is_family value.now }
{
    value[0] == FAMILY[0] && value[1] == FAMILY[1] && value[2] == FAMILY[2]
}

/// The routes that stand one after another in the bytes.
fn routes_of(alloc: Global, bytes: &[u8]) -> Result<Vec<VpnRoute>, BgpWireBad>
    ensures { Gives (λ routes. routes.items) result (in_attribute (routes_of bytes.now)) }
{
    let mut routes = Vec::new(alloc);
    let mut rest = bytes;
    'routes: while !rest.is_empty() {
        let Ok((route, size)) = read_route(rest) else {
            return Err(BgpWireBad::BadAttribute);
        };
        routes.push(route)?;
        rest = &rest[size..];
    }
    Ok(routes)
}

/// The next hop and the routes of an attribute 14 (RFC 4760, section 3; RFC 4364, section 4.3.2).
#[tactic(auto, unfolding(crate::specs::Reading::reach_of))]
fn reach_of(alloc: Global, value: &[u8]) -> Result<(u32, Vec<VpnRoute>), BgpWireBad>
    ensures { Gives (λ reach. (reach.0, reach.1.items)) result (reach_of value.now) }
{
    if value.len() < REACH_HEAD || !is_family(value) || value[HOP_LENGTH_AT] != HOP_LENGTH {
        return Err(BgpWireBad::BadAttribute);
    }
    let routes = routes_of(alloc, &value[REACH_HEAD..])?;
    if routes.is_empty() {
        return Err(BgpWireBad::BadAttribute);
    }
    Ok((BigEndian::read_u32(&value[HOP_AT..]), routes))
}

/// The routes of an attribute 15 (RFC 4760, section 4).
#[tactic(auto, unfolding(crate::specs::Reading::unreach_of))]
fn unreach_of(alloc: Global, value: &[u8]) -> Result<Vec<VpnRoute>, BgpWireBad>
    ensures { Gives (λ routes. routes.items) result (unreach_of value.now) }
{
    if value.len() < FAMILY.len() || !is_family(value) {
        return Err(BgpWireBad::BadAttribute);
    }
    routes_of(alloc, &value[FAMILY.len()..])
}

/// The targets of an attribute 16 (RFC 4360, section 4).
fn communities_of(alloc: Global, value: &[u8]) -> Result<Vec<Rt>, BgpWireBad>
    ensures { Gives (λ targets. targets.items) result (communities_of value.now) }
{
    match read_targets(alloc, value) {
        Ok(targets) => Ok(targets),
        Err(NlriBad::NoMemory) => Err(BgpWireBad::NoMemory),
        Err(_) => Err(BgpWireBad::BadAttribute),
    }
}

/// The next hop and the routes that are announced, 0 and none without attribute 14.
fn reach_in(alloc: Global, attributes: &[Attribute<'_>]) -> Result<(u32, Vec<VpnRoute>), BgpWireBad>
    ensures { Gives (λ reach. (reach.0, reach.1.items)) result (reach_in attributes.now) }
{
    match value_of(MP_REACH, attributes) {
        Some(value) => reach_of(alloc, value),
        None => Ok((0, Vec::new(alloc))),
    }
}

/// The routes that are withdrawn, none without attribute 15.
fn unreach_in(alloc: Global, attributes: &[Attribute<'_>]) -> Result<Vec<VpnRoute>, BgpWireBad>
    ensures { Gives (λ routes. routes.items) result (unreach_in attributes.now) }
{
    match value_of(MP_UNREACH, attributes) {
        Some(value) => unreach_of(alloc, value),
        None => Ok(Vec::new(alloc)),
    }
}

/// The targets, none without attribute 16.
fn targets_in(alloc: Global, attributes: &[Attribute<'_>]) -> Result<Vec<Rt>, BgpWireBad>
    ensures { Gives (λ targets. targets.items) result (targets_in attributes.now) }
{
    match value_of(EXTENDED_COMMUNITIES, attributes) {
        Some(value) => communities_of(alloc, value),
        None => Ok(Vec::new(alloc)),
    }
}

/// Whether neither routes that come nor routes that go are there, or beside the former something is missing (RFC 4271,
/// section 6.3).
#[tactic(auto, unfolding(crate::specs::Reading::is_missing))]
fn is_missing(attributes: &[Attribute<'_>]) -> bool
    ensures { result ≡ is_missing attributes.now }
{
    if has(MP_REACH, attributes) {
        !(has(ORIGIN, attributes)
            && has(AS_PATH, attributes)
            && has(LOCAL_PREF, attributes)
            && has(EXTENDED_COMMUNITIES, attributes))
    } else {
        !has(MP_UNREACH, attributes)
    }
}

#[tactic(auto, unfolding(crate::specs::Reading::says_of))]
fn says_of(alloc: Global, attributes: &[Attribute<'_>]) -> Result<Update, BgpWireBad>
    ensures { Answers result (says_of attributes.now) }
{
    if has_twice(attributes) || !are_lawful(attributes) {
        return Err(BgpWireBad::BadAttribute);
    }
    let (next_hop, reached) = reach_in(alloc, attributes)?;
    let withdrawn = unreach_in(alloc, attributes)?;
    let targets = targets_in(alloc, attributes)?;
    if is_missing(attributes) {
        return Err(BgpWireBad::MissingAttribute);
    }
    Ok(Update {
        next_hop,
        reached,
        withdrawn,
        targets,
    })
}

/// Reads the body of an UPDATE.
pub(crate) fn update_of(alloc: Global, body: &[u8]) -> Result<Update, BgpWireBad>
    requires { 4 ≤ length body.now }
    ensures { Answers result (update_of body.now) }
{
    let attributes = attributes_in(alloc, body)?;
    says_of(alloc, &attributes)
}
