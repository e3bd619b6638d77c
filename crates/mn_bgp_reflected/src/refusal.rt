ghost use Rattle.std.specs.Prelude.{◌≡◌};
ghost use Rattle.mn_bgp_reflected.specs.Reading.{refusal_by};
ghost use Rattle.mn_bgp_reflected.specs.declared.refusal.ReflectedBad.TheVariants.{NoMemory};

use mn_bgp_wire::BgpWireBad;
use std::alloc::AllocFailed;
use thiserror::Error;

/// Why bytes aren't an UPDATE with attributes of a reflector. All but the last are tried in this order.
#[derive(Clone, Copy, Debug, PartialEq, Eq, Error)]
pub enum ReflectedBad {
    /// The bytes aren't a message; never because memory ran out.
    #[error("{0}")]
    Wire(BgpWireBad),
    /// The message isn't an UPDATE.
    #[error("not an UPDATE")]
    NotUpdate,
    /// ORIGINATOR_ID hasn't the four bytes of an address (RFC 4456, section 8).
    #[error("a bad ORIGINATOR_ID")]
    BadOriginator,
    /// CLUSTER_LIST is empty, or isn't a number of addresses (RFC 4456, section 8).
    #[error("a bad CLUSTER_LIST")]
    BadClusters,
    /// There was no memory for the answer.
    #[error("no memory")]
    NoMemory,
}

impl<T: Drop> From<AllocFailed<T>> for ReflectedBad {
    ghost from_gives = { λ _ bad. bad ≡ NoMemory };

    fn from(_error: AllocFailed<T>) -> ReflectedBad {
        ReflectedBad::NoMemory
    }
}

impl From<BgpWireBad> for ReflectedBad {
    ghost from_gives = { λ bad refused. refused ≡ refusal_by bad };

    fn from(bad: BgpWireBad) -> ReflectedBad {
        match bad {
            BgpWireBad::NoMemory => ReflectedBad::NoMemory,
            _ => ReflectedBad::Wire(bad),
        }
    }
}
