//! Words and numbers, laid over bytes that are there: of a line of the journal or of the report, whose room is made once.
//!
//! Each call is given the place where its first byte stands, from 0, and answers the place behind its last. What stands before isn't
//! changed; what stands behind is left open.
#![tactic(auto)]

mod laying; // words and numbers, laid over bytes

pub use laying::{lay, lay_name, lay_number};
