//! The files that a run writes: their names, and the number of each.
//!
//! A run writes a journal, a list of labels, a capture of what was delivered, for each link a capture of its frames
//! and the PDUs of LDP that were sent over it in each direction (RFC 5036), and for each pair of edges the messages
//! that the one sent the other by BGP (RFC 4271). A file has two names: people know it by the nodes, as
//! `out/pe1+p.ldp`, and whoever writes many small pieces by its number, from 0, in the order in which the files are
//! begun.
//!
//! ```text
//! 0 journal.txt   1 labels.txt   2 delivered.pcap     L links, E edges, e the place of an edge among them
//! 3             A+B.pcap           + l                for each link
//! 3 + L         A+B.ldp, B+A.ldp   + 2 l, + 1         for each link and direction
//! 3 + 3 L       A+B.bgp            + (E - 1) e + f    for each edge and each other edge, f its place among those
//! ```
//!
//! No two files have the same name: a node's name has no `+` and no `/`, the endings differ, and two nodes have at most
//! one link.
//!
//! - `names`: the names of all files; `numbers`: the number of a file; `edges`: the place of each edge; `find`: the
//!   number of a file, if there is one
//! - `laws`: what follows from the definitions
#![tactic(auto)]

mod edges;
mod find;
mod laws;
mod names;
mod numbers;

pub use edges::EdgePlaces;
pub use find::{find_frames, find_said, find_told};
pub use laws::{names_differ, one_number};
pub use names::file_names;
pub use numbers::{deliveries_file, frames_file, journal_file, labels_file, said_file, told_file};
