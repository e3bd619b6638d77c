//! What a run leaves and puts, by definitions over the journal of its script: files and report.
//!
//! ```text
//!  journal.txt      a line of each step                      | the report: refused lines and tables, as they came;
//!  labels.txt       the labels given, once no step follows   | a line of each packet; the total
//!  delivered.pcap   a record of each delivery                |
//!  A+B.pcap         a record of each frame over the link     | each from the ledger of the journal,
//!  A+B.ldp, A+B.bgp all that one sent the other              | and of no state of the program
//! ```
//!
//! A file is what it begins with, what each step adds to it, and what is written at the end. Said so, a program can write it step by step and
//! keep nothing; the laws say what whole files then are: a record of each delivery, a record of each frame, each message of all lives of a session.
//!
//! - `specs/Moments`: the steps of a journal, each with what came before it, and which one made an item
//! - `specs/Files`: the files, their order and names; `specs/Contents`: their bytes, and what each step adds to them
//! - `specs/Tables`: the tables of `show`; `specs/Report`: the report, and the whole answer of a run
//! - `specs/Sendings`: which line sent a packet; `specs/Lists`: whole files by what the ledger lists over a journal
//! - `specs/ShownFrames`: what labels lead to after a journal, and what becomes of a frame that is shown to a node (RFC 3031, sections 3.10 and
//!   3.11): a function of the journal, so it is determined before any node is asked, also of a frame that no customer sent
//! - `laws`: a longer journal adds its last step's part to each file; each packet has its line; what whole files are
//!
//! Frames are stacks of labels over packets, and messages are the bytes of LDP's and BGP's writers. Each is written as it was sent: a
//! label that is later given to another FEC changes nothing of it, and labels.txt has a line for each giving.
#![tactic(auto)]

mod laws;

pub use laws::{
    a_table_is_told, all_lives_are_written, deliveries_are_written, each_packet_has_its_line,
    each_step_adds_its_part, frames_are_written, steps_are_written, tellings_are_written,
};
