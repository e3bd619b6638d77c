//! VPN-IPv4 routes and route targets, as they stand in a BGP UPDATE.
//!
//! A route is an NLRI that binds a label to a prefix (RFC 8277, section 2.2), which is a route distinguisher and an
//! IPv4 prefix (RFC 4364, sections 4.2 and 4.3.4). The first byte counts the bits behind it, 88 more than the IPv4
//! prefix is long. Of the address only the bytes are there that hold the prefix's bits.
//!
//! ```text
//!   0      1                    4                       12
//! +------+--------------------+-----------------------+-----------------------+
//! | bits | label | Rsrv |  S  |  route distinguisher  |  IPv4 prefix          |
//! |      |  20   |   3  |  1  |  8 bytes              |  0 to 4 bytes         |
//! +------+--------------------+-----------------------+-----------------------+
//!   68     00 01 11             00 00 FD E8 00 00 00 01  0A 01
//!   10.1.0.0/16 of 65000:1 with label 17
//! ```
//!
//! A withdrawal has 80 00 00 in the label field (RFC 8277, section 2.4). A reader ignores Rsrv and S, and takes no
//! notice of whether a route is withdrawn: it reads that field as label 524288.
//!
//! Targets stand among extended communities of eight bytes (RFC 4360, sections 2, 3 and 4): those that begin with
//! 00 02 or 01 02.
//!
//! - `message`: a route, and the numbers of the format
//! - `refusal`: why bytes aren't a route or targets
//! - `read`, `write`: one route, and a list of targets
//! - `laws`: what is written is read again, and the reading and the grammar are the same
#![tactic(auto)]

mod laws;
mod message;
mod read;
mod refusal;
mod write;

pub use laws::{
    no_front_is_read, route_is_read, routes_are_read, routes_in_turn, targets_are_read,
    written_is_read,
};
pub use message::VpnRoute;
pub use read::{read_route, read_targets};
pub use refusal::NlriBad;
pub use write::{write_route, write_targets};
