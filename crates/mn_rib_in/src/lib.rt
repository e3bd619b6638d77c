//! The routes that an edge has received from one peer (the Adj-RIB-In of RFC 4271, section 3.2).
//!
//! A peer advertises routes by announcements and withdrawals (RFC 4271, section 3.1). Of each distinguisher and prefix the
//! last of them counts: after an announcement the route is here with its label and targets, after a withdrawal it is
//! gone. All routes are kept, whatever VRFs import now, so that a change of an import set needs no message.
//!
//! Routes stand in the order of their distinguishers (RFC 4364, section 4.1), and those of one distinguisher in the
//! order of their prefixes, by address and then by length:
//!
//! ```text
//!  65000:1 10.1.0.0/16    65000:1 10.1.0.0/24    65000:1 10.2.0.0/16    65000:2 10.1.0.0/16
//! +----------------------+----------------------+----------------------+----------------------+
//! | label 17, targets    | label 18, targets    | label 17, targets    | label 16, targets    |
//! +----------------------+----------------------+----------------------+----------------------+
//! ```
//!
//! - `route`: `HeardRoute`, a route as its last mention announced it
//! - `rib`: `RibIn`, all that was received from one peer
#![tactic(auto)]

mod rib;
mod route;

pub use rib::RibIn;
pub use route::HeardRoute;
