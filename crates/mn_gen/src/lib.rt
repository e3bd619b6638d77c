//! The inputs of a run, made from a number: a ring of 8 nodes and more with chords across it, two VPNs over it, and a script that
//! brings all up, lets it settle and sends a thousand packets.
//!
//! ```text
//!  n0 --- n1 --- n2     each node is linked with the next, cost 10, and with the one half a ring on, cost 15;
//!   |  \   |   /  |     each fourth node is an edge, with a VRF of the red VPN and one of the blue;
//!  n7 ---  *  --- n3    each VRF of edge i has a site with the prefix 10.i.0.0/16
//!   |  /   |   \  |
//!  n6 --- n5 --- n4
//! ```
//!
//! - `topology`, `script`, `capture`: the three inputs; `shape`: which nodes, links and edges there are; `laws`: what a reader makes of them
#![tactic(auto)]

mod capture;
mod laws;
mod script;
mod shape;
mod topology;

pub use capture::capture_bytes;
pub use laws::{capture_is_read, packets_are_good};
pub use script::script_text;
pub use topology::topology_text;
