//! Since when each FEC is at rest at a node, and how many Releases each neighbour owes: what has to be known before a label may be
//! given to another FEC.
//!
//! A node that withdraws a FEC from a neighbour is owed a Release (RFC 5036, section 3.5.11). A FEC that isn't offered and of which
//! nobody owes one is at rest; it rests since the last tick at which its offer ended, a Release of it was received or a session ended.
//!
//! ```text
//!  withdraw(n, f): n owes one more of f              +---------------------------+
//!  release(n, f, tick): one less, f rests since tick | owed: by neighbour and FEC| ---> is_owed_none(f): nobody owes one
//!  stop(f, tick): f rests since tick           ----> | rested: by FEC, a tick    | ---> has_rested(f, tick): rested + life < tick
//!  open(n); close(n, tick): n owes nothing           +---------------------------+
//! ```
//!
//! - `rests`: what a node keeps
//! - `row`: what one neighbour owes of each FEC
#![tactic(auto)]

mod rests;
mod row;

pub use rests::Rests;
pub use row::Row;
