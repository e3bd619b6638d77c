//! The pairs of a topology, and the candidates of each: the routes by which a packet may go, in order of preference.
//!
//! A pair is a site and a prefix of another one, of whose VRF the site's own takes routes (RFC 4364, section 4.3.1); packets of the pair go
//! to the first host of the prefix. The routes of a VRF for an address don't depend on links, LDP and sessions: they are found and
//! sorted once, and a failure only takes some of them away.
//!
//! ```text
//!   site a --- VRF --- routes, sorted:  10.2.0.0/16 over pe2     the longest prefix first; of one prefix its own statics,
//!                                       10.2.0.0/16 over pe3     then other VRFs of its edge, then other edges by address
//!                                       0.0.0.0/0   over pe4
//! ```
//!
//! - `pairs`: `Pair`, and the pairs of a topology
//! - `route`: `Route`, and which of two is preferred; `routes`: those of a VRF, and of them those for an address
//! - `laws`: these are the candidates of the ledger
#![tactic(auto)]

mod laws;
mod pairs;
mod route;
mod routes;

pub use laws::routes_are_the_ledgers;
pub use pairs::{MOST_PAIRS, Pair, pairs_of};
pub use route::{Route, Source};
pub use routes::{candidates, routes_for};
