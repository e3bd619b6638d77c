//! A file of failures: which parts of a network fail at once, read from text.
//!
//! ```text
//! link down A B       the link between two nodes is down       each link, each ldp, each node, each bgp
//! ldp off A B         LDP is off on it                         each 2 links, each 3 links
//! bgp down A B        the BGP session of two edges is down     each 2 links from 0 to 63
//! node down N         all links of a node are down             sessions end, sessions stay
//!                                                              resolve topology, resolve no, resolve label
//!                                                              losses, counts
//! link down p1 p2, node down pe3    both at once               ttl N
//! ```
//!
//! Words, blanks, comments and the rules S1 to S6 are those of scripts. A line on the left is cut into parts at its commas, from 1 to 1,024: of
//! them the first is answered that breaks a rule, and of that the first rule in the order of its words, how many they are, and its operands from
//! left to right. S2 is also a part without words, and then more parts than 1,024, or a part that is named twice, in whatever order of its two
//! ends. A line on the right has no comma: with one it is read as parts, and its first word is unknown.
//!
//! - `command`: what a line asks for
//! - `cut`: a line before its comment, cut at commas, and the words of a piece
//! - `part_lines`: the parts of a failure, a form each; `lone_lines`: the other lines
//! - `read`: a line, and the whole file
//! - `sessions`: which edges exchange routes
#![tactic(auto)]

mod command;
mod cut;
mod lone_lines;
mod part_lines;
mod read;
mod sessions;

pub use command::{Each, FailureCommand, FailureLine, Part, Parts, Resolve};
pub use read::read_failures;
pub use sessions::exchange;
