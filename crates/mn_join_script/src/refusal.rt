//! Why bytes aren't a list of joints.
ghost use Rattle.std.specs.Prelude.{◌≡◌};
ghost use Rattle.mn_join_script.specs.declared.refusal.JointsBad.TheVariants.{NoMemory};

use std::alloc::{AllocError, AllocFailed};
use thiserror::Error;

/// A rule of lists of joints, J1 to J3 in this order. A line is refused by the first that it breaks.
#[derive(Clone, Copy, Debug, PartialEq, Eq)]
pub enum JointsRule {
    /// J1: the line hasn't two words.
    WrongCount,
    /// J2: the first word names no site of the first network, or the second none of the second.
    NoSuchName,
    /// J3: one of the sites is joined by an earlier line.
    TwiceJoined,
}

/// Why bytes aren't read as a list of joints.
#[derive(Clone, Copy, Debug, PartialEq, Eq, Error)]
pub enum JointsBad {
    /// The line, numbered from 1, breaks the rule.
    #[error("a rule of lists of joints is broken")]
    Refused { rule: JointsRule, line: u32 },
    #[error("out of memory")]
    NoMemory,
}

impl From<AllocError> for JointsBad {
    ghost from_gives = { λ _ e. e ≡ NoMemory };

    fn from(_: AllocError) -> Self {
        JointsBad::NoMemory
    }
}

impl<T: Drop> From<AllocFailed<T>> for JointsBad {
    ghost from_gives = { λ _ e. e ≡ NoMemory };

    fn from(_: AllocFailed<T>) -> Self {
        JointsBad::NoMemory
    }
}
