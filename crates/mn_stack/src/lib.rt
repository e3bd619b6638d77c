//! Labelled packets: a label stack in front of an IPv4 packet.
//!
//! An entry of the stack has four bytes (RFC 3032, section 2.1). The top entry comes first, and the last one alone has
//! the S bit. What follows it is the packet.
//!
//! ```text
//!  0                   1                   2                   3
//!  0 1 2 3 4 5 6 7 8 9 0 1 2 3 4 5 6 7 8 9 0 1 2 3 4 5 6 7 8 9 0 1
//! +---------------------------------------+-----+-+---------------+
//! |                 Label                 | Exp |S|      TTL      |
//! +---------------------------------------+-----+-+---------------+
//!
//! +-----------+------+------+-- --+--------+-------------------------+
//! |   room    | top  | next |     | bottom |       IPv4 packet       |
//! +-----------+------+------+-- --+--------+-------------------------+
//!               S 0    S 0            S 1
//! ```
//!
//! A `Frame` keeps room in front, so that a push moves nothing and takes no memory.
//!
//! - `message`: entries and frames, and what is done to them
//! - `read`: an entry, and where a stack ends
//! - `write`: an entry
//! - `refusal`: why bytes aren't a frame
//! - `laws`: what is written is read again
//!
//! RFC 3032, sections 2.1 (entries) and 2.4 (TTL); RFC 3031, sections 3.9 and 3.10 (the stack and what is done to it).
#![tactic(auto)]

mod laws;
mod message;
mod read;
mod refusal;
mod write;

pub use laws::{entries_differ_in_bytes, written_is_read};
pub use message::{Entry, Frame};
pub use read::read_entry;
pub use refusal::FrameBad;
pub use write::write_entry;
