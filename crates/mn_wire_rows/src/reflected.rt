//! Announcements that a reflector passes on, read and written.
ghost use Rattle.std.specs.Prelude.{◌≤◌, length, IfOk};

use crate::bgp::{message_from, put_update};
use crate::routes::{route_at, targets_at};
use mn_bgp_reflected::{Reflected, read_reflected, write_reflected};
use mn_rows::{Answer, Call, Dotted, done, in_hex};
use std::alloc::{AllocError, Global};
use std::fmt::Write;

/// The most clusters that are written.
const CLUSTERS: usize = 8;

/// The UPDATE, and then the originator and the clusters, each behind its word.
fn put_reflected(text: &mut String, reflected: &Reflected) -> Result<(), AllocError> {
    put_update(text, reflected.update())?;
    if let Some(originator) = reflected.originator() {
        write!(text, ", originator {}", Dotted(originator))?;
    }
    for cluster in reflected.clusters() {
        write!(text, ", cluster {}", Dotted(*cluster))?;
    }
    Ok(())
}

fn read_row(alloc: Global, call: Call<'_>) -> Answer {
    let Some(bytes) = message_from(alloc, call)? else {
        return Ok(None);
    };
    match read_reflected(alloc, &bytes) {
        Err(bad) => Ok(Some(format!(in alloc; "{bad:?}")?)),
        Ok(reflected) => {
            let mut text = String::new(alloc);
            put_reflected(&mut text, &reflected)?;
            Ok(Some(text))
        }
    }
}

/// Up to eight addresses, from the word `k` on.
fn clusters_at(alloc: Global, call: Call<'_>, k: usize) -> Result<Vec<u32>, AllocError>
    requires { k ≤ 8 }
    ensures { IfOk result (λ clusters. length clusters.items ≤ 8) }
{
    let mut clusters = Vec::new(alloc);
    'clusters: for at in k..k + CLUSTERS {
        let Some(cluster) = call.address(at) else {
            return Ok(clusters);
        };
        clusters.push(cluster)?;
    }
    Ok(clusters)
}

/// Of next hop, route, one target, originator, and then clusters.
fn write_row(alloc: Global, call: Call<'_>) -> Answer {
    let (Some(hop), Some(route), Some(targets), Some(originator)) = (
        call.address(2),
        route_at(call, 3),
        targets_at(alloc, call, 6)?,
        call.address(7),
    ) else {
        return Ok(None);
    };
    let clusters = clusters_at(alloc, call, 8)?;
    if clusters.is_empty() {
        return Ok(None);
    }
    let bytes = write_reflected(alloc, hop, &route, &targets, originator, &clusters)?;
    Ok(Some(in_hex(alloc, &bytes)?))
}

pub(crate) fn reflected_row(alloc: Global, call: Call<'_>) -> Answer {
    match call.verb() {
        b"read" => read_row(alloc, call),
        b"write" => write_row(alloc, call),
        b"laws" => {
            mn_bgp_reflected::reflected_is_read();
            mn_bgp_reflected::refused_for_an_attribute();
            done(alloc)
        }
        _ => Ok(None),
    }
}
