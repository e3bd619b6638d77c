//! A VRF: what it was told, and the routes that it holds.
//!
//! A VRF is one customer's table of routes at one edge (RFC 4364, section 3). It is told statics, prefixes over its
//! sites, and two sets of targets: the routes that it exports have the one, and it takes the routes of others that have
//! one of the other (RFC 4364, section 4.3.1). Apart from these it holds routes, which its owner offers to it and takes
//! back, in the order of their prefixes and of one prefix in the order in which they are preferred:
//!
//! ```text
//!  10.1.0.0/16            10.1.0.0/16             10.1.0.0/16                  10.2.0.0/16
//! +----------------------+-----------------------+----------------------------+-----------------------
//! | own: over site 0     | near: VRF 1, site 3   | far: 192.0.2.3, 65000:2    | far: 192.0.2.3, ...
//! +----------------------+-----------------------+----------------------------+-----------------------
//! ```
//!
//! A look-up finds the first of the longest prefix that contains the address (RFC 1812, section 5.2.4.3).
//!
//! - `source`: `Source`, where a held route comes from, and which is preferred
//! - `sources`: `Sources`, the sources of one prefix in their order
//! - `routes`: `Routes`, held routes: the sources of each prefix, and the prefixes in order
//! - `statics`: `Statics`, prefixes over sites
//! - `vrf`: `Vrf`, all of this together
//! - `refusal`: why a VRF isn't changed
#![tactic(auto)]

mod refusal;
mod routes;
mod source;
mod sources;
mod statics;
mod vrf;

pub use refusal::VrfBad;
pub use routes::Routes;
pub use source::Source;
pub use sources::Sources;
pub use statics::{StaticRoute, Statics};
pub use vrf::Vrf;
