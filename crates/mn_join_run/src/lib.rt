//! A script of two networks that are joined site to site (RFC 4364, section 10, option a): its lines played, the file of what
//! comes out, and the report.
//!
//! ```text
//! 1 inject a 1       a packet enters the first network at its site a
//! 1 flush            it leaves at site b, which is joined, and enters the second at once
//! 2 flush            it leaves there, at a site that isn't joined: a record of delivered.pcap
//! ```
//!
//! ```text
//! line 3 refused Unchanged
//! packet 1 line 11 record 1 net 1 site a net 2 site a delivered b ttl 58
//! total packets 1 delivered 1 dropped 0 flying 0 refused 0
//! ```
//!
//! A packet's line in the report has its legs in order, each by the network and the site at which the packet was sent there, and then its
//! end: the verdict of the last leg, or that a network didn't take it in. The total counts packets.
//!
//! - `fetch`: the packets that lines name
//! - `exits`: the file of what comes out
//! - `desk`: what is kept for the report
//! - `lines`: the lines, one after another
//! - `run`: the whole of a run
//! - `load`: the inputs from their files
//! - `command`: the whole command, over a shelf of files and a sink
//! - `specs/Course`: what a script does, line by line; `specs/Report`: the report, and the file of what came out
//! - `ends`: the end of a packet, and how many ended how; `sites`: where packets were sent into each network
//! - `report`: the lines, put on a page
#![tactic(auto)]

mod command;
mod desk;
mod ends;
mod exits;
mod fetch;
mod lines;
mod load;
mod report;
mod run;
mod sites;

pub use command::join;
pub use load::JoinNames;
pub use mn_perform::{Ended, Fault, MemoryCapture, perform, tally};
