//! What one edge's call makes it tell its peers, whoever these are: each other edge, or reflectors.
//!
//! ```text
//!   a target, a prefix or a site comes or goes --changes--> exports that come or go --spell--> UPDATEs
//! ```
//!
//! - `changes`: what an edge is told, and which of its exports come or go then
//! - `peers`: the peers with which its sessions are Established, and an export as they receive it
//! - `start`: the edges as the topology has them, each site attached, and no session
//!
//! RFC 4364, sections 4.3.1 and 4.3.2; RFC 4271, sections 4.3 and 8.2.2; RFC 3032, section 2.1.
#![tactic(auto)]

mod changes;
mod peers;
mod start;

pub use changes::{News, add, attach, del, detach, export, import};
pub use peers::{loopback_of, spell, steady_peers};
pub use start::{first_edges, no_sessions};
