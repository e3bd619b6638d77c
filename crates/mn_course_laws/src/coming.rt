//! What is in flight and comes next, and how a line ends.

use mn_ledger::Refused;
use mn_topo::Step;

/// What an item in flight is.
#[derive(Clone, Copy, Debug, PartialEq, Eq)]
pub enum Kind {
    /// A notice of a link's change, for a node.
    Notice,
    /// A message of an LDP or BGP session.
    Message,
    /// A frame on a link.
    Frame,
}

/// An item in flight that comes next.
#[derive(Clone, Copy, Debug, PartialEq, Eq)]
pub struct Coming {
    /// The tick at which it is due.
    pub due: u64,
    /// How many items were made before it.
    pub number: u64,
    /// The step that delivers it: of a frame a `Carry`.
    pub step: Step,
    /// It is a frame that its link loses.
    pub lossy: bool,
}

/// How a line ended.
#[derive(Clone, Copy, Debug, PartialEq, Eq)]
pub enum Ending {
    /// All that it asks for was done.
    All,
    /// Its step was refused.
    Refused(Refused),
    /// It names a record that the capture hasn't: it injects it, or has it come in place of a message.
    NoRecord,
    /// A step that nothing else refuses met a full journal.
    TooManySteps,
}

/// What a line lets arrive.
#[derive(Clone, Copy, Debug, PartialEq, Eq)]
pub enum Arrivals {
    /// All that is due by a tick, each as it is due.
    DueBy(u64),
    /// Notices, and then messages of sessions, all at the present tick.
    News,
    /// Frames, each as it is due.
    AllFrames,
}
