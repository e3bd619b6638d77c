//! VPN routes and targets, read and written.
ghost use Rattle.std.specs.Prelude.{◌≡◌, ◌<◌, ◌≤◌, ◌^◌, true, length, IfOk, IfSome};
ghost use Rattle.mn_base.specs.Numbers.{has_rd_form, has_rt_form};
ghost use Rattle.mn_vpn_nlri.specs.Grammar.{IsAscending, AllTargets};

use crate::bytes::{bytes_from, read_row};
use crate::text::Routed;
use mn_base::{Rd, Rt};
use mn_rows::{Answer, Call, Paired, done, in_hex};
use mn_vpn_nlri::{VpnRoute, read_route, read_targets, write_route, write_targets};
use std::alloc::{AllocError, Global};
use std::fmt::Write;

/// A distinguisher of one of the two types.
pub(crate) fn rd_at(call: Call<'_>, k: usize) -> Option<Rd>
    ensures { IfSome result (λ rd. has_rd_form rd.0 ≡ true) }
{
    let rd = call.rd(k)?;
    if !rd.has_form() {
        return None;
    }
    Some(rd)
}

/// Distinguisher, prefix and label.
pub(crate) fn route_at(call: Call<'_>, k: usize) -> Option<VpnRoute>
    requires { k ≤ 8 }
    ensures distinguisher { IfSome result (λ route. has_rd_form route.rd.0 ≡ true) }
    ensures label { IfSome result (λ route. route.label < 2 ^ 20) }
{
    Some(VpnRoute {
        rd: rd_at(call, k)?,
        prefix: call.prefix(k + 1)?,
        label: call.number(k + 2, 1_048_575)? as u32,
    })
}

/// The route at the front of the bytes, and how many bytes it has.
fn reading(alloc: Global, bytes: &[u8]) -> Result<String, AllocError> {
    match read_route(bytes) {
        Err(bad) => format!(in alloc; "{bad:?}"),
        Ok((route, size)) => format!(in alloc; "{}, {size} bytes", Routed(&route)),
    }
}

/// A route, or its withdrawal, behind the bytes 00 FF.
fn write_row(alloc: Global, call: Call<'_>) -> Answer {
    let Some(route) = route_at(call, 2) else {
        return Ok(None);
    };
    let mut out = Vec::from_slice(alloc, &[0x00, 0xFF])?;
    write_route(&mut out, &route, call.has(5, b"withdrawn"))?;
    Ok(Some(in_hex(alloc, &out)?))
}

fn laws(alloc: Global) -> Answer {
    mn_vpn_nlri::route_is_read();
    mn_vpn_nlri::no_front_is_read();
    mn_vpn_nlri::written_is_read();
    mn_vpn_nlri::routes_are_read();
    mn_vpn_nlri::routes_in_turn();
    mn_vpn_nlri::targets_are_read();
    done(alloc)
}

pub(crate) fn route_row(alloc: Global, call: Call<'_>) -> Answer {
    match call.verb() {
        b"write" => write_row(alloc, call),
        b"laws" => laws(alloc),
        _ => read_row(alloc, call, bytes_from(alloc, call, 2)?, reading),
    }
}

/// A target of one of the two types.
fn target_at(call: Call<'_>, k: usize) -> Option<Rt>
    ensures { IfSome result (λ target. has_rt_form target.0 ≡ true) }
{
    let target = call.rt(k)?;
    if !target.has_form() {
        return None;
    }
    Some(target)
}

/// One to three targets, ascending.
pub(crate) fn targets_at(
    alloc: Global,
    call: Call<'_>,
    k: usize,
) -> Result<Option<Vec<Rt>>, AllocError>
    requires { k ≤ 8 }
    ensures ascending { IfOk result (λ found. IfSome found (λ targets. IsAscending targets.items)) }
    ensures targets { IfOk result (λ found. IfSome found (λ targets. AllTargets targets.items)) }
    ensures few { IfOk result (λ found. IfSome found (λ targets. length targets.items ≤ 3)) }
{
    let targets = match (
        target_at(call, k),
        target_at(call, k + 1),
        target_at(call, k + 2),
    ) {
        (Some(a), None, None) => Vec::from_slice(alloc, &[a])?,
        (Some(a), Some(b), None) if a.0 < b.0 => Vec::from_slice(alloc, &[a, b])?,
        (Some(a), Some(b), Some(c)) if a.0 < b.0 && b.0 < c.0 => {
            Vec::from_slice(alloc, &[a, b, c])?
        }
        _ => return Ok(None),
    };
    Ok(Some(targets))
}

/// The targets among extended communities, or `none`.
fn read_communities(alloc: Global, bytes: &[u8]) -> Result<String, AllocError> {
    let targets = match read_targets(alloc, bytes) {
        Ok(targets) => targets,
        Err(bad) => return format!(in alloc; "{bad:?}"),
    };
    let mut text = String::new(alloc);
    for target in &targets {
        if !text.is_empty() {
            text.push(' ')?;
        }
        write!(text, "{}", Paired(target.0))?;
    }
    if targets.is_empty() {
        text.push_str("none")?;
    }
    Ok(text)
}

/// Targets behind the bytes 00 FF.
fn write_communities(alloc: Global, call: Call<'_>) -> Answer {
    let Some(targets) = targets_at(alloc, call, 2)? else {
        return Ok(None);
    };
    let mut out = Vec::from_slice(alloc, &[0x00, 0xFF])?;
    write_targets(&mut out, &targets)?;
    Ok(Some(in_hex(alloc, &out)?))
}

pub(crate) fn target_row(alloc: Global, call: Call<'_>) -> Answer {
    match call.verb() {
        b"write" => write_communities(alloc, call),
        b"read" => match bytes_from(alloc, call, 2)? {
            Some(bytes) => Ok(Some(read_communities(alloc, &bytes)?)),
            None => Ok(None),
        },
        _ => Ok(None),
    }
}
