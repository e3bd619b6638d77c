//! The routes of all edges of a network, the BGP sessions between them, and their messages in flight.
//!
//! ```text
//!  a session opens --> OPEN --> KEEPALIVE --> all exports --+
//!                                                           +--> messages in flight --> a peer receives them, and its VRFs
//!  a route, a target or a site comes or goes --> news ------+                            hold what they import
//! ```
//!
//! An edge's news goes to each peer with which its session is Established, export by export and peer after peer. Each two
//! edges have a channel in each direction, on which messages arrive in the order in which they were advertised.
//!
//! - `flying`: messages in flight
//! - `routes`: `Routes`, and what its edges and sessions are
//! - `changes`: the steps of one edge, which has news then
//! - `sessions`: a session opens or ends, and a message is received
//! - `start`: the routes at the start
//! - `steps`: one call for each step
//!
//! RFC 4271, sections 3, 4 and 8.2.2; RFC 4364, sections 3, 4.3 and 5.
#![tactic(auto)]

mod changes;
mod flying;
mod routes;
mod sessions;
mod start;
mod steps;

pub use flying::Messages;
pub use routes::Routes;
