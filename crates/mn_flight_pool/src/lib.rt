//! Items in flight, in nodes that name their neighbours by place: the `Flight` of `mn_flight` that is fast at a million items.
//!
//! Each node that holds an item stands in two rings: that of its channel, and that of all items by due tick and number. A
//! ring begins with a node that holds no item, so each node has a neighbour on either side, and no place is compared. A
//! channel's first node is no more than its two neighbours, and stands at its channel's number. The list that contracts see
//! is that of the items in the ring by due tick, sorted by their numbers. Nothing keeps that order, and no call sorts: what is
//! put has the greatest number, so it stands last, and what is taken leaves the others as they are.
//!
//! ```text
//!   items    4, 7, 9, 12                                   the list that contracts see
//!   channel  first of 2 <-> 7 <-> 12 <-> (first of 2)
//!   due      head <-> 7 <-> 12 <-> 4 <-> 9 <-> (head)      ticks: (10, 12), (11, 9)
//! ```
//!
//! Beside the ring by due tick stands a list of the due ticks in flight, ascending, each with its last node. So a push looks
//! for its tick in that list, and takes no walk over what is due later. A node that comes free is kept, names the one that was
//! free before it, and is used again. A finger stays on the node before that which was taken last by its place, so that
//! places near it are walked to from there.
//!
//! - `node`, `store`: the neighbours of a node; all nodes, by their places, with their items
//! - `free`: the nodes that hold no item
//! - `recent`: the nodes of the items that were put last
//! - `room`: room in a list of which little may be written
//! - `walk`: steps along a ring
//! - `moves`: a node enters or leaves the ring of its channel
//! - `tick`, `due`: the list of due ticks; a node enters or leaves the ring by due tick
//! - `pool`: the nodes, which hold items and which are free
//! - `flight`: `PoolFlight`
#![tactic(auto)]

mod due;
mod flight;
mod free;
mod moves;
mod node;
mod pool;
mod recent;
mod room;
mod store;
mod tick;
mod walk;

pub use flight::PoolFlight;
