//! BGP messages that carry VPN-IPv4 routes, read and written.
//!
//! Two edges of a provider's network tell one another the routes of their customers by BGP-4 (RFC 4271) with
//! multiprotocol extensions (RFC 4760). Each message has a header, and all numbers are big-endian:
//!
//! ```text
//!  0                16       18     19
//! +-- ... ---------+--------+------+---------------------
//! | marker, all FF | length | type | body ...
//! +-- ... ---------+--------+------+---------------------
//!
//! type 1 OPEN          version, AS, hold time, identifier, and parameters that list capabilities
//!      2 UPDATE        path attributes, in which the routes stand
//!      3 NOTIFICATION  code, subcode, and bytes that aren't looked at
//!      4 KEEPALIVE     nothing
//! ```
//!
//! The IPv4 parts of an UPDATE are empty here. What it says stands in its attributes, each of a type of its own:
//!
//! ```text
//!  0       1      2                  length of one byte, or of two with flag 10
//! +-------+------+--------+-------------
//! | flags | type | length | value ...
//! +-------+------+--------+-------------
//!
//! type 1 ORIGIN, 2 AS_PATH, 5 LOCAL_PREF    wanted beside routes, and not looked at
//!      14 MP_REACH_NLRI                     the next hop, and routes that are announced
//!      15 MP_UNREACH_NLRI                   routes that are withdrawn
//!      16 EXTENDED COMMUNITIES              the targets of the routes
//!      any other                            passed over, if it may be
//! ```
//!
//! - `message`: the values, and the numbers of the format
//! - `refusal`: why bytes aren't a message
//! - `fields`: the parameters and capabilities of an OPEN
//! - `attributes`: the attributes of an UPDATE, one by one
//! - `update`: what the attributes of an UPDATE say together
//! - `read`: the header, and a message by its type
//! - `write`: messages as this network says them
//! - `laws`: what is read is the message that its bytes spell, no message begins another, and what a body is refused for
//!
//! RFC 4271, sections 4.1 to 4.5, 5.1 and 6.1 to 6.3; RFC 4760, sections 3, 4 and 8; RFC 5492, section 4; RFC 4364, section 4.3.
#![tactic(auto)]

mod attributes;
mod fields;
mod laws;
mod message;
mod read;
mod refusal;
mod update;
mod write;

pub use laws::{message_is_read, no_front_is_read, refused_for_its_body};
pub use message::{BgpMessage, Update};
pub use read::read_bgp;
pub use refusal::BgpWireBad;
pub use write::{write_keep, write_open, write_reach, write_unreach};
