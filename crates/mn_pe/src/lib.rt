//! The routes of one edge.
//!
//! An edge of a provider's network has VRFs, each with statics over the sites of a customer, and receives the routes of other
//! edges (RFC 4364, section 4.3). From what it was told follows what each VRF holds, and what the edge advertises to its peers:
//!
//! ```text
//!                     of its own statics,          of the edge's other VRFs,       of peers,
//!                     where the site is attached   where a target is imported      where a target is imported
//!                              |                              |                            |
//!                              v                              v                            v
//!   +-----------------------------------------------------------------------------------------------------+
//!   | what a VRF holds, in the order of prefixes and of preference                                        |
//!   +-----------------------------------------------------------------------------------------------------+
//!       | look-up: the longest prefix that contains the address, and of it the preferred route
//!       v
//! ```
//!
//! Contracts see what the edge was told alone (`specs/Edge.antt`); what a VRF holds is a function of it (`held_by` of
//! `specs/Held.antt`), and so are the exports. A change of an import set needs no message: all that was received is kept.
//!
//! - `pe`: `Pe`, an edge, with all its calls
//! - `start`: the edge as the topology has it
//! - `changes`: what the VRF of a number is told
//! - `hearing`: what a peer advertised, taken into the VRFs or out of them
//! - `spreading`: a static that comes to the VRFs that are to hold it, or goes
//! - `switching`: routes that come to VRFs, or go, as a target comes to a set or leaves it, and as a site gets a label or
//!   loses it
//! - `look`: the VRF of a number, a site's label, and a node's loopback
//! - `export`: `Export`, a route that the edge advertises
//! - `entering`: `Entered`, what becomes of a packet that a site sends
//! - `laws`: what is read can be received
//! - `refusal`: why a call gives up
#![tactic(auto)]

mod changes;
mod entering;
mod export;
mod hearing;
mod laws;
mod look;
mod pe;
mod refusal;
mod spreading;
mod start;
mod switching;

pub use entering::Entered;
pub use export::Export;
pub use laws::what_is_read_has_labels;
pub use pe::Pe;
pub use refusal::NoMemory;
