//! One end of a BGP session between two edges, without timers.
//!
//! Both ends send OPEN as the session begins. What an end receives then moves it from state to state (RFC 4271, section
//! 8.2.2, as far as a session has it that lives and dies by command and in which no timer runs):
//!
//! ```text
//! state         received               sent            new state
//! OpenSent      OPEN                   KEEPALIVE       OpenConfirm
//! OpenConfirm   KEEPALIVE              its routes      Established
//! Established   KEEPALIVE or UPDATE    nothing         Established
//! ```
//!
//! A message for which the table has no row is `Unexpected`. An OPEN for which it has one is refused as `BadPeer` where
//! its AS or its identifier isn't the peer's, or where it doesn't offer VPN-IPv4 routes (RFC 4760, section 8).
//!
//! - `table`: the rows, by state and kind of message
//! - `session`: `BgpSession`, which receives one message after another
//! - `refusal`: why a message isn't taken
#![tactic(auto)]

mod refusal;
mod session;
mod table;

pub use refusal::BgpBad;
pub use session::BgpSession;
pub use table::{BgpKind, BgpReply};
