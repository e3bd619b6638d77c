//! What a line of a script of reflection asks for.

use mn_base::VrfNo;
use mn_topo::Step;

/// What a line asks for.
#[derive(Clone, Copy, Debug, PartialEq, Eq)]
pub enum ReflectCommand {
    /// That the step is done.
    Do(Step),
    /// That the message sent first of all in flight is received, at most so often, or until none flies.
    Drain(Option<u32>),
    /// The best route of each prefix that the VRF holds.
    Show(VrfNo),
}

/// A command, and the number of its line.
#[derive(Clone, Copy, Debug, PartialEq, Eq)]
pub struct ReflectLine {
    /// From 1. Each line counts; lines past 4,294,967,295 have this number too.
    pub number: u32,
    pub command: ReflectCommand,
}
