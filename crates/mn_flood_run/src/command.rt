//! What a line of a script of the flood asks for.

use mn_base::LinkNo;
use mn_wiring::Dir;

/// What a line asks for.
#[derive(Clone, Copy, Debug, PartialEq, Eq)]
pub enum FloodCommand {
    /// That the link comes up, or goes down.
    Change(LinkNo, bool),
    /// That the advert sent first of those that fly in the direction is received.
    Hear(LinkNo, Dir),
    /// That the advert sent first of all is received, until none flies.
    Drain,
}

/// A command, and the number of its line.
#[derive(Clone, Copy, Debug, PartialEq, Eq)]
pub struct FloodLine {
    /// From 1. Each line counts; lines past 4,294,967,295 have this number too.
    pub number: u32,
    pub command: FloodCommand,
}
