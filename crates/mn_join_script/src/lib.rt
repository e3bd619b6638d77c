//! What two networks that are joined are given: the list of their joints, and the script, a line a command, for the one or the other.
//!
//! ```text
//! b a            site b of the first network is joined to site a of the second (RFC 4364, section 10, option a)
//! west east
//! ```
//!
//! In the list a line is a joint, words are separated by spaces or tabs; there are no comments, and a line without words is refused. The first
//! refused line is answered, and of it the first of the rules that it breaks: J1 WrongCount, J2 NoSuchName, J3 TwiceJoined. In the script:
//!
//! ```text
//! 1 link up pe1 p        a line of a script for the first network
//! 2 inject a 1           one for the second
//! 1 flush
//! ```
//!
//! The first word of a line is `1` or `2`, and what follows is a line of `mn_script` for that network, other than `run` and
//! `show`: the two networks have a clock each, and their report has no tables. A line `1` alone asks for nothing. The
//! rules are those of scripts, and unknown first words, `run` and `show` are S1.
//!
//! - `refusal`: the rules of joints, and what their reader answers; `joint_line`: a joint; `joint_list`: the whole list
//! - `line`: what a line asks for, and of which network
//! - `language`: what a line says
//! - `read`: the whole script
#![tactic(auto)]

mod joint_line;
mod joint_list;
mod language;
mod line;
mod read;
mod refusal;

pub use joint_list::read_joints;
pub use line::JoinLine;
pub use read::read_join_lines;
pub use refusal::{JointsBad, JointsRule};
