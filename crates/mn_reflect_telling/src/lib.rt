//! What reflectors and edges advertise to one another where routes are reflected (RFC 4456).
//!
//! ```text
//!   what a node received, by peer --mentions--> what it holds out to each peer --teller--> letters
//! ```
//!
//! - `start`: what there is at the start
//! - `name`, `names`: routes by name, and VRFs by their distinguishers
//! - `mentions`: what a node's peers last sent of a route, and what a reflector picks of it
//! - `teller`: `Teller`, which advertises to a reflector's peers routes that come, change or go, and what an edge is to take
//! - `updates`: messages as they are read and sent, and an edge's exports as they are advertised
//!
//! RFC 4456, sections 6 and 8; RFC 4271, sections 3 and 4; RFC 4364, sections 4.3 and 5.
#![tactic(auto)]

mod mentions;
mod name;
mod names;
mod start;
mod teller;
mod updates;

pub use name::{Distinguishers, Name, distinguishers, vrf_with};
pub use names::names_of;
pub use start::{by_address, first_attachments, first_edges, nothing_heard, statics_of};
pub use teller::{Teller, is_among};
pub use updates::{Heard, read, send, tell_exports};
