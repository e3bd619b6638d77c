//! The reader of topologies in TOML.
//!
//! ```text
//! as, notice_delay, bgp_delay                     pe1 --- p --- pe2      a link joins two nodes,
//! [[node]]  name, loopback                         |             |       a pair of nodes at most once
//! [[link]]  a, b, cost, delay, loss, life         red1          red2     a node with a VRF is an edge
//! [[vrf]]   name, node, rd, import, export         a             b       a prefix stands in a VRF once
//! [[site]]  name, vrf, prefixes
//! ```
//!
//! A file is refused by the first of the rules T1 to T16 that it breaks, with the place: the top table, or an
//! array and the entry's index from 0. The rooms:
//!
//! - `refusal`: the rules, and the places at which they are broken
//! - `tables`: what is taken from a table of the document
//! - `top`, `nodes`, `links`, `vrfs`, `sites`: the rules of one kind of table each; `numbered`: the sites so far,
//!   numbered by their names; `statics`: the prefixes of all sites, to look among
//! - `read`: the whole file, array by array
#![tactic(auto)]

mod links;
mod nodes;
mod numbered;
mod read;
mod refusal;
mod sites;
mod statics;
mod tables;
mod top;
mod vrfs;

pub use read::read_topology;
pub use refusal::{Place, TopoBad, TopoRule};
