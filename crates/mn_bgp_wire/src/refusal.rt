ghost use Rattle.std.specs.Prelude.{◌≡◌};
ghost use Rattle.mn_bgp_wire.specs.declared.refusal.BgpWireBad.TheVariants.{NoMemory};

use std::alloc::{AllocError, AllocFailed};
use thiserror::Error;

/// Why bytes aren't a message. All but the last are tried in this order.
#[derive(Clone, Copy, Debug, PartialEq, Eq, Error)]
pub enum BgpWireBad {
    /// The bytes are fewer than a header has (RFC 4271, section 4.1).
    #[error("cut short")]
    Short,
    /// A byte of the marker isn't FF (RFC 4271, section 6.1).
    #[error("a marker that isn't all ones")]
    BadMarker,
    /// The length isn't the number of bytes, or isn't one that a message, or a message of its type, may have (RFC
    /// 4271, section 6.1).
    #[error("a bad length")]
    BadLength,
    /// The type is none of the four (RFC 4271, section 6.1).
    #[error("an unknown type")]
    BadType,
    /// The version of an OPEN isn't 4, or its parameters, or the capabilities of one, don't fill their length (RFC
    /// 4271, section 6.2; RFC 5492, section 4).
    #[error("a bad OPEN")]
    BadOpen,
    /// An IPv4 part of an UPDATE isn't empty, its attributes don't fill their length, or one of them stands twice, is
    /// malformed, or is unknown and not optional (RFC 4271, section 6.3).
    #[error("a bad attribute")]
    BadAttribute,
    /// An UPDATE neither announces nor withdraws, or announces without an attribute that has to stand beside routes
    /// (RFC 4271, section 6.3).
    #[error("an attribute is missing")]
    MissingAttribute,
    /// There was no memory for the answer.
    #[error("no memory")]
    NoMemory,
}

impl From<AllocError> for BgpWireBad {
    ghost from_gives = { λ _ bad. bad ≡ NoMemory };

    fn from(_error: AllocError) -> BgpWireBad {
        BgpWireBad::NoMemory
    }
}

impl<T: Drop> From<AllocFailed<T>> for BgpWireBad {
    ghost from_gives = { λ _ bad. bad ≡ NoMemory };

    fn from(_error: AllocFailed<T>) -> BgpWireBad {
        BgpWireBad::NoMemory
    }
}
