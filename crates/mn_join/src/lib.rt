//! Two networks of two providers, joined VRF to VRF (RFC 4364, section 10, option a): lines are played on either, and a packet that one
//! delivers at a joint is sent into the other at once.
//!
//! ```text
//!   play First flush --> a step of the first network --> delivered at a site ---- not joined: it comes out
//!                                  ^                          |
//!                                  |                          | joined
//!                                  +--- a step of the other <-+
//! ```
//!
//! - `played`: how a line ends
//! - `side`: one of the networks, with its joints
//! - `joints`: the joints, by site
//! - `crossing`: a packet's legs, a packet that came out, and how a network hands one over to the other
//! - `line`: a line, step by step
//! - `pair`: `Pair`
#![tactic(auto)]

mod crossing;
mod joints;
mod line;
mod pair;
mod played;
mod side;

pub use mn_join_laws::{Leg, Which};
pub use mn_sched::Net;
pub use pair::{Delivery, Pair};
pub use played::{PairBad, Played};
