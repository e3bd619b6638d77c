//! The topology of a provider's network: its nodes and links, and the VRFs and sites of its customers
//! (RFC 4364, section 3), numbered from 0; and the steps that a network is moved by.
//!
//! ```text
//! node  name, loopback                            pe1 --- p --- pe2      a link joins two nodes,
//! link  a, b, cost, delay, loss, life              |             |       a pair of nodes at most once
//! vrf   name, node, rd, import, export            red1          red2     a node with a VRF is an edge
//! site  name, vrf, prefixes                        a             b       a prefix stands in a VRF once
//! ```
//!
//! Whoever makes one fills the tables entry by entry, and hands them over as parts that are lawful. The rooms:
//!
//! - `names`: names, numbered in their order
//! - `nodes`, `links`, `vrfs`, `sites`: a table each, with what is looked up in it
//! - `topology`: the parts, and what a topology answers; `laws`: what follows from the definitions
//! - `steps`: the steps that a network is moved by, and the entries of its journal
#![tactic(auto)]

mod laws;
mod links;
mod names;
mod nodes;
mod sites;
mod steps;
mod topology;
mod vrfs;

pub use laws::{lawful_prefixes, link_again, name_again};
pub use links::Links;
pub use mn_wiring::Dir;
pub use names::Names;
pub use nodes::{Node, Nodes};
pub use sites::{SiteDef, Sites};
pub use steps::{Damage, Damaged, JournalEntry, Step};
pub use topology::{Parts, Topology};
pub use vrfs::{VrfDef, Vrfs};
