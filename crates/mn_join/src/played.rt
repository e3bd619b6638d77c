//! How a line ends.

use mn_ledger::Refused;

/// What became of a line.
#[derive(Clone, Copy, Debug, PartialEq, Eq)]
pub enum Played {
    /// All that it asks for was done.
    All,
    /// Its step was refused: never for a full journal, nor because memory ran out.
    Refused(Refused),
}

/// Why playing stopped.
#[derive(Clone, Copy, Debug, PartialEq, Eq)]
pub enum PairBad {
    /// A step that nothing else refuses met a full journal.
    TooManySteps,
    /// Memory ran out.
    NoMemory,
}
