//! The report as text: its lines, and the page on which they wait.
//!
//! A report says what was refused, what became of each packet, and what it all comes to:
//!
//! ```text
//! line 4 refused NoRecord
//! packet 1 line 2 site a record 1 delivered b ttl 61 copy 1 path pe1 p pe2
//! total packets 1 delivered 1 dropped 0 flying 0 steps 39 refused 1 tick 12
//! ```
//!
//! Each line is appended to bytes that the caller keeps, so that no line takes memory once they have grown. They go
//! to a sink through a [`Page`], which holds up to 64 KiB and so makes few puts.
//!
//! - `write`: the lines, appended to bytes
//! - `packet`: the line of a packet, composed over bytes that are there
//! - `page`: text that waits to be put
//! - `lines`: what the lines tell of
//! - `names`: nodes and sites by their names
#![tactic(auto)]

mod lines;
mod names;
mod packet;
mod page;
mod write;

pub use lines::{Packet, Sent, Totals, cause_name, rule_name};
pub use names::{node_name, site_name};
pub use page::Page;
pub use write::{put_pieces, write_packet, write_refusal, write_refused, write_total};
