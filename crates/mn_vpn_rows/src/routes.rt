//! A route in words: its prefix, and `own SITE`, `near VRF SITE` or `far LOOPBACK RD EDGE LABEL`.
ghost use Rattle.std.specs.Prelude.{◌<◌};

use mn_prefix::Prefix;
use mn_rows::{Answer, Call, Dotted, Paired, Slashed};
use mn_vrf::Source;
use std::alloc::{AllocError, Global};

fn far(call: Call<'_>, k: usize) -> Option<Source>
    requires { k < 1_000_000 }
{
    Some(Source::Far {
        loopback: call.address(k)?,
        rd: call.rd(k + 1)?,
        edge: call.node(k + 2)?,
        label: call.number_u32(k + 3)?,
    })
}

/// The source that a row names at its fourth word.
pub(crate) fn source(call: Call<'_>) -> Option<Source> {
    match call.word(3)? {
        b"own" => Some(Source::Own(call.site(4)?)),
        b"near" => Some(Source::Near(call.vrf(4)?, call.site(5)?)),
        b"far" => far(call, 4),
        _ => None,
    }
}

pub(crate) fn source_words(alloc: Global, source: &Source) -> Result<String, AllocError> {
    match *source {
        Source::Own(site) => format!(in alloc; "own {}", site.0),
        Source::Near(vrf, site) => format!(in alloc; "near {} {}", vrf.0, site.0),
        Source::Far {
            loopback,
            rd,
            edge,
            label,
        } => {
            let (loopback, rd) = (Dotted(loopback), Paired(rd.0));
            format!(in alloc; "far {loopback} {rd} {} {label}", edge.0)
        }
    }
}

/// A best route, `none` where there is none.
pub(crate) fn route(alloc: Global, found: Option<(Prefix, Source)>) -> Answer {
    Ok(Some(match found {
        Some((prefix, source)) => {
            let words = source_words(alloc, &source)?;
            format!(in alloc; "{} {words}", Slashed(prefix))?
        }
        None => String::from_str(alloc, "none")?,
    }))
}

/// The ways that a row names at its fourth word: a digit for each node, 1 where there is one.
pub(crate) fn ways(alloc: Global, call: Call<'_>) -> Result<Vec<bool>, AllocError> {
    let mut ways = Vec::new(alloc);
    if let Some(digits) = call.word(3) {
        for digit in digits {
            ways.push(*digit == b'1')?;
        }
    }
    Ok(ways)
}
