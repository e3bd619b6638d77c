//! Ways to the edges of a network, under any links that are down or without LDP.
//!
//! `Ways` holds a shortest-path tree of each edge, over the links of a network. The tree of an edge says the next hops of all nodes
//! towards it, since a link costs the same in both directions. A link that goes down or comes up is mended in each tree; LDP is a
//! switch of the link alone.
//!
//! ```text
//!      link 0      link 1
//!   0 -------- 1 -------- 3        from 0 to the edge 3 two ways cost the same, and the next hop of 0 is the lesser neighbour
//!    \                   /         the way:                    links 0, 1
//!     `------- 2 -------'          the label switched path:    0, 1, 3 with LDP on both; none without,
//!      link 2      link 3                                      though links 2 and 3 have LDP
//! ```
//!
//! - `ways`: `Ways`: made, switched, and asked
//! - `walks`: from node to node along the next hops
//! - `trees`: the trees of all edges
//! - `links`: the links at each node
//! - `specs/Way`: ways and label switched paths; `specs/Switched`: what contracts see of `Ways`
#![tactic(auto)]

mod links;
mod trees;
mod walks;
mod ways;

pub use ways::Ways;
