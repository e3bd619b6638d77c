//! What a line of a script asks for.

use mn_base::{NodeNo, VrfNo};
use mn_topo::{Damage, Step};

/// A table of the report.
#[derive(Clone, Copy, Debug, PartialEq, Eq)]
pub enum Show {
    /// The links, up or down.
    Links,
    /// The least walks from the node to the others.
    Tree(NodeNo),
    /// The LDP session of each link.
    Ldp,
    /// The BGP session of each pair of edges.
    Bgp,
    /// The best route of each prefix that the VRF holds.
    Vrf(VrfNo),
    /// What is in flight.
    Flight,
    /// What the node would do with the packet of a record of the capture, numbered from 1, taken as a frame.
    Frame(NodeNo, u32),
}

/// What a line asks for.
#[derive(Clone, Copy, Debug, PartialEq, Eq)]
pub enum Command {
    /// To do the step.
    Do(Step),
    /// That the packet of a record of the capture comes in place of a session's message.
    Damage(Damage),
    /// To let so many ticks pass, at most 1,000,000.
    Run(u32),
    /// To deliver the notices and then the messages of sessions, in at most so many steps (4,000,000 at
    /// most), or with no bound.
    Drain(Option<u32>),
    /// To deliver all frames.
    Flush,
    /// To report the table.
    Show(Show),
}

/// A command, and the number of its line.
#[derive(Clone, Copy, Debug, PartialEq, Eq)]
pub struct Line {
    /// From 1. Each line counts; lines past 4,294,967,295 have this number too.
    pub number: u32,
    pub command: Command,
}
