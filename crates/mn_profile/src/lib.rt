//! How routers choose where the standards leave it to them: the switches of a profile, in the field's words.
//!
//! ```text
//!  equal cost   least | all | any                  which of several next hops of equal cost (RFC 2328, section 16.1; RFC 3031, section 3.11)
//!  resolve      as topology | never | by route | by label     which routes of other edges take part (RFC 4271, section 9.1.2.1)
//!  sync         off | on                           LDP-IGP synchronization (RFC 5443, section 2)
//!  label mode   per site | per VRF                 for what a VPN label stands (RFC 4364, section 4.3.2)
//! ```
//!
//! What each of them says of a network is in mn_profile_laws.
#![tactic(auto)]

mod switches; // the switches, and a profile of them

pub use switches::{EqualCost, LabelMode, Profile, Resolve};
