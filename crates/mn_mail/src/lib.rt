//! Messages that fly between any two nodes, in the order of sending: each direction by itself, or the one that was sent first of all.
//!
//! - `letter`: a message from a node to another
//! - `mail`: what flies
#![tactic(auto)]

mod letter;
mod mail;

pub use letter::Letter;
pub use mail::Mail;
