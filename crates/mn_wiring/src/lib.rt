//! The links between nodes, and the walks over them.
//!
//! ```text
//!   1 --0-- 2        the square of specs/Square: four nodes, four links of cost 10. From 0 to 3 two walks
//!   |       |        cost the same, and the next hop is the lesser neighbour
//!   ..
//! ```
//!
//! - `links`: a link's two ends, its figures, and its two directions with their numbers
//! - `specs/Wiring`: which nodes and links there are, and which links a node takes for up
//! - `specs/Paths`: walks, least costs and next hops (RFC 2328, section 16.1); `paths`: what holds of them
#![tactic(auto)]

mod links;
mod paths;

pub use links::{Dir, LinkEnds, channel_of, direction_of};
pub use mn_base::{LinkNo, ListOf, NodeNo, Rd, Rt, SiteNo, VrfNo};
pub use paths::{least_walk, next_hop, square_is_wired, walks_in_the_square};
