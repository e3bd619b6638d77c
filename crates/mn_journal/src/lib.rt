//! The journal of a run, as text: a line for each step or damage that was done, with the tick and the step or damage in
//! the words of a script.
//!
//! ```text
//! 0 link up pe1 p
//! 1 learn p pe1 p
//! 39 route add a 10.1.0.0/16
//! 39 inject a 1
//! 41 carry pe1 p 0
//! 41 damage ldp p pe1 2
//! ```
//!
//! A line on a link or on LDP names the link's ends as the topology does, `hear`, `damage`, `carry` and `lose` name sender and
//! then receiver, and `bgp` the node of lesser number first. So each entry has one line, and a line is read as an entry
//! only where it is the entry's line, byte by byte.
//!
//! - `text`: prefixes and targets, on the stack
//! - `write`: from an entry to its line
//! - `read`: from the bytes of a journal to its entries
//! - `refusal`: why bytes aren't a journal
#![tactic(auto)]

mod read;
mod refusal;
mod text;
mod write;

pub use read::read_journal;
pub use refusal::JournalBad;
pub use write::put_entry;
