//! What edges send each other, in the bytes of BGP.
//!
//! The ledger's edges tell one another that a session opens, that it goes on, that a route is announced, and that one is
//! withdrawn. Here each of these is a BGP message and its bytes (`specs/Spelling.antt`), once for all who write, read or
//! count them:
//!
//! ```text
//! Open          OPEN of the network's AS, hold time 0, the teller's loopback, with VPN-IPv4
//! BgpKeepAlive  KEEPALIVE
//! Announcement  UPDATE with MP_REACH_NLRI: the loopback as next hop, distinguisher, prefix, label; and the targets
//! Withdrawal    UPDATE with MP_UNREACH_NLRI: distinguisher, prefix
//! ```
//!
//! Nothing is here but laws: what is sent can be written, a message is read as what was sent, and the session that receives it
//! takes it. So an edge of the network never meets bytes that it can't read, a message that its state doesn't expect, or
//! another peer's OPEN.
//!
//! RFC 4271, sections 4.2 to 4.4 and 8.2.2; RFC 4760, sections 3, 4 and 8; RFC 4364, section 4.3.
#![tactic(auto)]

mod laws; // the laws, each with its clause

pub use laws::{
    two_edges_talk, what_comes_is_taken, what_is_told_can_be_written, what_is_told_is_read,
};
