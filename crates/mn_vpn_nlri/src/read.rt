// A route at the front of bytes, and the targets among extended communities, read.
ghost use Rattle.std.specs.Prelude.{◌≡◌, ◌≢◌, ◌≤◌, ◌<◌, ℕ, List, Ok, IfOk, IfErr, length, take};
ghost use Rattle.mn_base.specs.declared.numbers.Rt.{Rt as Target};
ghost use Rattle.mn_vpn_nlri.specs.declared.message.VpnRoute.{VpnRoute as Route};
ghost use Rattle.mn_vpn_nlri.specs.Grammar.{IsNlri, AreTargets};
ghost use Rattle.mn_vpn_nlri.specs.Reading.{route_at, targets_of, Answers};

use crate::message::{
    ADDRESS_BITS, BITS_BEFORE_PREFIX, BITS_BELOW_LABEL, COMMUNITY, LABEL_AT, PREFIX_AT, RD_AT,
    VpnRoute,
};
use crate::refusal::NlriBad;
use byteorder::{BigEndian, ByteOrder};
use mn_base::{Rd, Rt};
use mn_prefix::{Prefix, address_of, octets};
use std::alloc::Global;

/// Reads the route at the front, and how many bytes it has, 12 to 16. Bytes may follow it.
///
/// Refuses, in this order: `Short` where no byte is there, `BadLength`, `Short` where the bytes end within the route,
/// `BadRd`, `HostBits`. Takes no memory, and never answers `NoMemory`.
pub fn read_route(bytes: &[u8]) -> Result<(VpnRoute, usize), NlriBad>
    ensures reading { result ≡ route_at bytes.now }
    ensures found { IfOk result (λ found. IsNlri (take found.1 bytes.now) found.0) }
    ensures only { (route : Route) (size : ℕ) → size ≤ length bytes.now → IsNlri (take size bytes.now) route → result ≡ Ok (route, size) }
    ensures within { IfOk result (λ found. (0 < found.1) × (found.1 ≤ length bytes.now)) }
    ensures no_memory { IfErr result (λ bad. bad ≢ NlriBad.NoMemory) }
{
    route_at(bytes)
}

/// The route at the front and its length, or the first refusal.
#[tactic(auto, unfolding(crate::specs::Reading::route_at))]
fn route_at(bytes: &[u8]) -> Result<(VpnRoute, usize), NlriBad>
    ensures { result ≡ route_at bytes.now }
{
    let Some(&bits) = bytes.first() else {
        return Err(NlriBad::Short);
    };
    if bits < BITS_BEFORE_PREFIX || bits > BITS_BEFORE_PREFIX + ADDRESS_BITS {
        return Err(NlriBad::BadLength);
    }
    let size = 1 + octets(bits);
    if bytes.len() < size {
        return Err(NlriBad::Short);
    }
    let rd = Rd(BigEndian::read_u64(&bytes[RD_AT..]));
    if !rd.has_form() {
        return Err(NlriBad::BadRd);
    }
    let address = address_of(&bytes[PREFIX_AT..size]);
    let prefix = Prefix::new(address, bits - BITS_BEFORE_PREFIX).ok_or(NlriBad::HostBits)?;
    let label = BigEndian::read_u24(&bytes[LABEL_AT..]) >> BITS_BELOW_LABEL;
    Ok((VpnRoute { rd, prefix, label }, size))
}

/// Reads the targets among extended communities, in order; communities that aren't targets are passed over.
///
/// Refuses as `Short` bytes whose number isn't a multiple of eight.
pub fn read_targets(alloc: Global, bytes: &[u8]) -> Result<Vec<Rt>, NlriBad>
    ensures reading { Answers result (targets_of bytes.now) }
    ensures found { IfOk result (λ targets. AreTargets bytes.now targets.items) }
    ensures only { (targets : List Target) → AreTargets bytes.now targets → Answers result (Ok targets) }
{
    if bytes.len() % COMMUNITY != 0 {
        return Err(NlriBad::Short);
    }
    let mut targets = Vec::new(alloc);
    let mut rest = bytes;
    'communities: while !rest.is_empty() {
        let community = Rt(BigEndian::read_u64(rest));
        if community.has_form() {
            targets.push(community).map_err(|_| NlriBad::NoMemory)?;
        }
        rest = &rest[COMMUNITY..];
    }
    Ok(targets)
}
