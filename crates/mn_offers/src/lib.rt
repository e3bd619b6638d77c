//! The routes that a node has received from one peer where routes are reflected (RFC 4456; the Adj-RIB-In of RFC 4271, section 3.2).
//!
//! Of each prefix of a VRF the peer's last mention counts: after an announcement the route is here with its label, targets and
//! clusters, after a withdrawal it is gone. Routes stand in the order of their VRFs, and those of one VRF in the order of their
//! prefixes, by address and then by length: the order in which a reflector advertises them.
//!
//! - `route`: `Offered`, a route as its last mention announced it
//! - `offers`: `Offers`, all that was received from one peer
#![tactic(auto)]

mod offers;
mod route;

pub use offers::Offers;
pub use route::Offered;
