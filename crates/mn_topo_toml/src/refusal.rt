//! Why bytes aren't a topology.
ghost use Rattle.std.specs.Prelude.{◌≡◌};
ghost use Rattle.mn_topo_toml.specs.declared.refusal.TopoBad.TheVariants.{NoMemory};

use std::alloc::AllocError;
use thiserror::Error;

/// A rule of topologies, T1 to T16 in this order. An entry is refused by the first that it breaks.
#[derive(Clone, Copy, Debug, PartialEq, Eq)]
pub enum TopoRule {
    /// T1: the bytes aren't a TOML document.
    NotToml,
    /// T2: the table has a key that isn't listed.
    UnknownKey,
    /// T3: a required key is absent.
    MissingKey,
    /// T4: a value isn't of the kind that its key needs, a loopback or a prefix isn't of its form,
    /// or a number of the top table is out of range.
    WrongKind,
    /// T5: the entry's name isn't 1 to 32 ASCII letters, digits, `-`, `.` and `_`.
    BadName,
    /// T6: an earlier entry of the array has the name.
    TwiceNamed,
    /// T7: nothing has the name that an entry refers to.
    NoSuchName,
    /// T8: the two ends of a link are the same node.
    SelfLink,
    /// T9: an earlier link joins the same two nodes.
    TwiceLinked,
    /// T10: an earlier node has the loopback.
    TwiceLoopback,
    /// T11: a link's cost is out of range.
    BadCost,
    /// T12: a link's delay, loss or life is out of range, or its life is less than its delay.
    BadDelay,
    /// T13: an earlier VRF has the same route distinguisher, as eight bytes.
    TwiceRd,
    /// T14: the route distinguisher or a target isn't of its form, a target stands twice in a set,
    /// or a set has more than 16.
    BadTarget,
    /// T15: a prefix stands in the VRF already.
    PrefixTaken,
    /// T16: an array is longer than its limit, or there are more than 64 edges or 65,536 prefixes.
    TooMany,
}

/// The table that breaks a rule: the top one, or an array's entry by its index from 0.
#[derive(Clone, Copy, Debug, PartialEq, Eq)]
pub enum Place {
    Top,
    Node(u32),
    Link(u32),
    Vrf(u32),
    Site(u32),
}

/// Why bytes aren't read as a topology.
#[derive(Clone, Copy, Debug, PartialEq, Eq, Error)]
pub enum TopoBad {
    /// The table at the place breaks the rule.
    #[error("a rule of topologies is broken")]
    Refused { rule: TopoRule, place: Place },
    #[error("out of memory")]
    NoMemory,
}

impl From<AllocError> for TopoBad {
    ghost from_gives = { λ _ e. e ≡ NoMemory };

    fn from(_: AllocError) -> Self {
        TopoBad::NoMemory
    }
}
