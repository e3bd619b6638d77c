//! The transport of all nodes of a network: who has learned of which change of a link, which LDP sessions live, and what
//! notices and LDP messages are in flight.
//!
//! ```text
//!  a link comes up or goes down --> a notice to each node --> it learns  --+
//!                    |                                                     +--> what it says, as PDUs --> they are received
//!                    +------> its session opens or closes at both ends ----+
//! ```
//!
//! - `flying`: notices and PDUs in flight
//! - `transport`: `Transport`, and what its nodes and sessions are
//! - `steps`: one call for each step
//! - `sites`: labels of attachments, and the start
//!
//! RFC 5036 (LDP), in downstream unsolicited mode with ordered control and liberal retention.
#![tactic(auto)]

mod flying;
mod sites;
mod steps;
mod transport;

pub use flying::{Messages, Notices};
pub use transport::{MOST_NODES, Transport};
