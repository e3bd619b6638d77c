//! What each node knows of the links, and the table of paths that it keeps.
//!
//! A link begins down, and each change turns it. A node learns of the changes of a link one by one,
//! in their order, so how many it has learned says all that it knows: the link is up in its view
//! where that number is odd. It plays the part of the link state database of OSPF (RFC 2328,
//! section 12), with the flooding left to whoever calls `learn`.
//!
//! ```text
//! changes of a link      up    down    up    down
//! LinkDb::changes         1      2      3      4
//! View::learned    0      1      2
//!                                ^ down in this view, with two changes still to learn
//! ```
//!
//! - `changes`: `LinkDb`, how often each link was changed, and so which are up
//! - `learned`: `View`, how many of these changes one node has learned
//! - `shared`: `SharedList`, a list that the views of all nodes own together
//! - `paths`: `Tree`, by node the least cost and the next hop
//! - `network`: the networks with which a view can be made
//! - `laws`: the count of changes tells what the last of them was; each root has one tree
#![tactic(auto)]

mod changes;
mod laws;
mod learned;
mod network;
mod paths;
mod shared;

pub use changes::{LinkDb, Unchanged};
pub use laws::{count_tells_the_last_change, each_root_has_a_tree, one_tree, tree_is_computed};
pub use learned::{Empty, View};
pub use network::is_network;
pub use paths::Tree;
pub use shared::SharedList;
