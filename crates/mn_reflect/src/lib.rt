//! Routes that reach all edges by way of reflectors (RFC 4456), in place of a full mesh of sessions.
//!
//! ```text
//!   edge --its exports--> reflector --what edges announced--> reflector
//!                             |
//!                             '--the routes that it picked, but for an edge's own--> edge, whose VRFs hold what they import
//! ```
//!
//! - `refusal`: why a step isn't done
//! - `reflect`: `Reflect`, and what is read of it
//! - `start`, `steps`: the start, and one call for each step
//!
//! RFC 4456, sections 6 and 8; RFC 4271, sections 3, 4 and 8.2.2; RFC 4364, sections 4.3 and 5.
#![tactic(auto)]

mod causes; // the causes of refusals, one by one
mod changes; // the steps of one edge, which advertises its exports
mod reflect;
mod refusal;
mod sessions; // a session begins or ends, and a message is received
mod start;
mod steps;
mod turning; // a node takes in a route, or forgets those of a peer

pub use reflect::Reflect;
pub use refusal::ReflectBad;
