//! The header of an IPv4 packet: its checks, its time to live and its checksum.
//!
//! ```text
//!  0                   1                   2                   3
//!  0 1 2 3 4 5 6 7 8 9 0 1 2 3 4 5 6 7 8 9 0 1 2 3 4 5 6 7 8 9 0 1
//! +-------+-------+---------------+-------------------------------+
//! |Version|  IHL  |Type of Service|         Total Length          |   0
//! +-------+-------+---------------+-----+-------------------------+
//! |        Identification         |Flags|     Fragment Offset     |   4
//! +---------------+---------------+-----+-------------------------+
//! |  Time to Live |   Protocol    |        Header Checksum        |   8
//! +---------------+---------------+-------------------------------+
//! |                        Source Address                         |  12
//! +---------------------------------------------------------------+
//! |                      Destination Address                      |  16
//! +---------------------------------------------------------------+
//! |              Options, up to a header of 60 bytes              |  20
//! +---------------------------------------------------------------+
//! ```
//!
//! `header` has the checks of a packet in their order, `lifetime` the change of its TTL, and `checksum` the sum that
//! both stand on. `specs/Header.antt` says what a good packet is and what it is after some hops. Nothing here takes
//! memory.
//!
//! RFC 791, section 3.1 (the header), and RFC 1071, section 1 (the sum).
#![tactic(auto)]

mod checksum;
mod header;
mod lifetime;

pub use header::{Bad, Head, check};
pub use lifetime::{age, set_ttl};
