//! A tree of least walks that is mended at each change of a link (RFC 2328, section 16.1).
//!
//! What is known of a node, the cost and the next hop, is compared as one: by cost, and those of one
//! cost by hop. So a next hop is mended by the rule by which a cost is. A node other than the root is
//! *held* where some neighbour's way, gone on over the link between them, is its own.
//!
//! ```text
//! a link comes up     its ends are offered each other's ways over it; from each node that takes
//!                     one, the ways that go on are offered
//!
//! a link goes down    the node that was held over it is doubted. A doubted node that no other
//!                     neighbour holds is cut off, and those that it may have held are doubted;
//!                     then each that was cut off is offered its neighbours' ways, as above
//! ```
//!
//! A node whose entry stays is never followed. Nodes are taken in the order of their ways, so that
//! few are taken twice; the tree is right in whatever order they are taken.
//!
//! - `way`: a way to a node, how it goes on over a link, and which of two is better
//! - `net`: the links by number and by node, which trees of one network share, and which are up
//! - `mend`: the tree and the nodes still to be looked at; one way is offered, one node is doubted
//! - `grow`: ways that get better are followed
//! - `cut`: nodes that lost their way are cut off
//! - `tree`: `MendTree`
#![tactic(auto)]

mod cut;
mod grow;
mod mend;
mod net;
mod tree;
mod way;

pub use net::SharedLinks;
pub use tree::MendTree;
