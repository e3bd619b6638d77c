//! Why bytes aren't a script.
ghost use Rattle.std.specs.Prelude.{◌≡◌};
ghost use Rattle.mn_script.specs.declared.refusal.ScriptBad.TheVariants.{NoMemory};

use std::alloc::{AllocError, AllocFailed};
use thiserror::Error;

/// A rule of scripts, S1 to S6 in this order. A line is refused by the first that it breaks.
#[derive(Clone, Copy, Debug, PartialEq, Eq)]
pub enum ScriptRule {
    /// S1: the first word, or the second where the form fixes it, is none of the table's.
    UnknownWord,
    /// S2: the line has another number of words than its form.
    WrongCount,
    /// S3: a number, a prefix or a target isn't of its form or range.
    BadNumber,
    /// S4: a name names nothing of its kind.
    NoSuchName,
    /// S5: a line that names a link names two nodes without one.
    NotLinked,
    /// S6: a line on BGP names a node that isn't an edge, or the same node twice.
    NotEdge,
}

/// Why bytes aren't read as a script.
#[derive(Clone, Copy, Debug, PartialEq, Eq, Error)]
pub enum ScriptBad {
    /// The line, numbered from 1, breaks the rule.
    #[error("a rule of scripts is broken")]
    Refused { rule: ScriptRule, line: u32 },
    #[error("out of memory")]
    NoMemory,
}

impl From<AllocError> for ScriptBad {
    ghost from_gives = { λ _ e. e ≡ NoMemory };

    fn from(_: AllocError) -> Self {
        ScriptBad::NoMemory
    }
}

impl<T: Drop> From<AllocFailed<T>> for ScriptBad {
    ghost from_gives = { λ _ e. e ≡ NoMemory };

    fn from(_: AllocFailed<T>) -> Self {
        ScriptBad::NoMemory
    }
}
