//! Packets in transit: what became of each packet, the nodes at which it was, and the frames that fly.
//!
//! Each call moves packets as the ledger does, for whatever labels, world and packets these stand for. The ledger
//! follows a packet as a token without a label; here flies its frame, and each node that it comes to forwards it by its own
//! table. `Transit` keeps no byte of a packet that has ended, so which packets it stands for is a relation: `specs/Stands`.
//!
//! ```text
//!   inject --> one more packet --+--> dropped, or delivered at a site of the same edge
//!                                |
//!                                v
//!            +--------------> in flight --lose, link_down--> dropped at the sender
//!            |                   |
//!            +--- hop <-- carry: the node's table --> dropped, or delivered
//! ```
//!
//! A packet takes all its memory as it enters: a node of the flight, its verdict, and a path with room for each node that its
//! TTL lets it come to. So nothing but `inject` can want memory.
//!
//! - `flown`: a frame in flight; where a packet was is in `mn_paths`
//! - `transit`: what is kept, and one call for each thing that may become of a packet
//! - `entry`, `arrival`, `loss`: the steps that move packets; `life`: what ends as time goes on; `tell`: what became of them
//! - `laws`: as labels are given
//!
//! RFC 3031, sections 3.10 and 3.11; RFC 3032, section 2.4; RFC 4364, section 5.
#![tactic(auto)]

mod arrival;
mod entry;
mod flown;
mod laws;
mod life;
mod loss;
mod tell;
mod transit;

pub use flown::Flown;
pub use laws::{stands_by_the_labels_after, stands_where_labels_are_kept};
pub use transit::Transit;
