//! Announcements that a route reflector passes on (RFC 4456): an UPDATE with two attributes more, read and written.
//!
//! A reflector hands a route of one client to another as it received it, next hop, label and targets, and says who announced it and
//! through which clusters it came (RFC 4456, section 8). By these a node sees its own route come back.
//!
//! ```text
//!  0       1      2      3
//! +-------+------+------+------------------------
//! |  80   |  09  |  04  | ORIGINATOR_ID, the address of the edge that announced the route
//! +-------+------+------+------------------------
//! |  80   |  0A  |  4n  | CLUSTER_LIST, n addresses of reflectors, the last of them first
//! +-------+------+------+------------------------
//! ```
//!
//! - `message`: what is read, and the numbers of the format
//! - `refusal`: why bytes aren't an UPDATE with such attributes
//! - `attributes`: an attribute of an UPDATE by its type
//! - `read`: an UPDATE, and the two attributes where they are there
//! - `write`: a reflected announcement
//! - `laws`: what is read is what the bytes spell, and what an attribute is refused for
//!
//! RFC 4456, section 8; RFC 4271, section 4.3.
#![tactic(auto)]

mod attributes;
mod laws;
mod message;
mod read;
mod refusal;
mod write;

pub use laws::{reflected_is_read, refused_for_an_attribute};
pub use message::Reflected;
pub use read::read_reflected;
pub use refusal::ReflectedBad;
pub use write::write_reflected;
