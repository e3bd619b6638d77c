//! Why bytes aren't a journal.
ghost use Rattle.std.specs.Prelude.{◌≡◌};
ghost use Rattle.mn_journal.specs.declared.refusal.JournalBad.TheVariants.{NoMemory};

use std::alloc::AllocError;
use thiserror::Error;

/// Why there are no entries.
#[derive(Clone, Copy, Debug, PartialEq, Eq, Error)]
pub enum JournalBad {
    /// The line, numbered from 1, is the first that isn't the text of a tick and of a step or a damage that fits.
    #[error("line {line} is no entry of the journal")]
    BadLine { line: u64 },
    #[error("no memory")]
    NoMemory,
}

impl From<AllocError> for JournalBad {
    ghost from_gives = { λ _ e. e ≡ NoMemory };

    fn from(_: AllocError) -> Self {
        JournalBad::NoMemory
    }
}
