//! The paths of packets: the nodes at which each was, in order, with room for those to which it may still come.
//!
//! A packet's path may come to have 256 nodes, and most have a few. So the first few of each are kept beside it, and once one
//! has more it moves, to room that was kept for it behind all that moved before:
//!
//! ```text
//!   path 0    a p b                              far
//!   path 1    a p q p q p  ----------------->    a p q p q p q _ _ _ _ ..
//!   path 2    a                                  (kept: room for the paths 0 and 2)
//! ```
//!
//! All memory that a path ever takes is taken as it starts, and what no path writes to is never touched.
//!
//! - `table`: where the nodes of each path are
//! - `paths`: `Paths`
#![tactic(auto)]

mod paths;
mod table;

pub use paths::Paths;
