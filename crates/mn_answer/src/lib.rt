//! How a call of the program ends, for each of its forms: outcomes with the program's status, the lines of what is
//! refused, and inputs read by name, each with its limits.
//!
//! - `outcome`: how a call ends, with the program's status; `played`: how the lines of a script go
//! - `refusals`: the lines of what is refused
//! - `parse`: inputs from their bytes, with their limits; `load`: from their files
//!
//! What a call is to answer, and what may come in its place, are definitions that know nothing of the program
//! (`specs/Answer`, `specs/Endings`).
#![tactic(auto)]

mod load;
mod outcome;
mod parse;
mod played;
mod refusals;

pub use load::{
    load_capture, load_joints, load_lines, load_script_bytes, load_second, load_topology,
};
pub use outcome::{Limit, Outcome};
pub use parse::{
    MOST_CAPTURE_BYTES, MOST_CAPTURE_RECORDS, parse_joints, parse_lines, parse_second,
    parse_topology, script_read, too_large,
};
pub use played::{Ended, Played};
pub use refusals::{put_line, refusal_line, refuse};
