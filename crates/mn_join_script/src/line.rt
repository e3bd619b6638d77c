//! What a line asks for, and of which network.

use mn_join_laws::Which;
use mn_script::Command;

/// A command for one of two networks, and the number of its line.
#[derive(Clone, Copy, Debug, PartialEq, Eq)]
pub struct JoinLine {
    /// From 1. Each line counts; lines past 4,294,967,295 have this number too.
    pub number: u32,
    pub which: Which,
    /// Neither to let ticks pass by `run` nor to report a table.
    pub command: Command,
}
