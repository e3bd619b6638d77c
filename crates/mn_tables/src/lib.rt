//! The lines of the tables that a script asks for, put on a page.
//!
//! ```text
//! link pe1 p up cost 10 changes 1
//! tree pe1 to pe2 cost 20 next p
//! ldp pe1 operational p operational
//! bgp pe1 established pe2 established
//! route red1 10.2.0.0/16 edge pe2 label 18
//! frames pe1 p 3
//! frame pe2 4 next p bytes 0001213E4500001C000000003F1167CD0A0100010A0200010035003500080000
//! ```
//!
//! Each call puts one line of what it is given, and takes no memory.
//!
//! - `pieces`: pieces of text, one after another
//! - `names`: the ends of a link and VRFs by their names
//! - `links`, `tree`, `ldp`, `bgp`, `flight`, `routes`: the lines of these tables
//! - `frame`: the line of what a node would do with a frame
#![tactic(auto)]

mod bgp;
mod flight;
mod frame;
mod ldp;
mod links;
mod names;
mod pieces;
mod routes;
mod tree;

pub use bgp::{BgpEnd, put_bgp};
pub use flight::{Direction, put_counts, put_frames};
pub use frame::{ForwardedFrame, ShownFrame, put_outcome, put_unread};
pub use ldp::{LdpEnds, put_ldp};
pub use links::{LinkState, put_link};
pub use pieces::put_pieces;
pub use routes::{FarRoute, HeldPrefix, NearSite, put_far_route, put_near_route, put_own_route};
pub use tree::{Walk, put_walk};
