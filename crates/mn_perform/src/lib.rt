//! A whole run: the lines of a script on a network, with its files and its report.
//!
//! Each line is played on the network, and what it adds to the files is written as its steps are done.
//! Refused lines and tables are put as they come; packets and the total are put once every file is whole.
//!
//! ```text
//!  a line --play--> step --done--> journal.txt     the step's line
//!                                  delivered.pcap  the packet that it delivered
//!                                  A+B.pcap        each frame that it sent (RFC 3032, section 4.3)
//!                                  A+B.ldp         each PDU that it sent (RFC 5036, section 3.1)
//!                                  A+B.bgp         each message that it sent (RFC 4271, section 4.1)
//! ```
//!
//! Nothing is kept of a step once it is written but bytes that wait for their files: 64 KiB at most, or 1 MiB over more than 64 files.
//!
//! - `run`: the whole of it
//! - `lines`: the lines of a script, one after another
//! - `show`: a table, with the packet of the record that it names
//! - `desk`: what is kept for the report
//! - `ended`: how a run ends
//! - `total`, `memory`: a run over a capture in memory, of which only the total is reported
//!
//! The files:
//!
//! - `output`: the files, and what waits for them; `books`: files that are begun, and ended
//! - `file_lines`: what the files grow by, written where it waits; `capture_record`: the header of a record; `labels`: the lines of labels.txt
//! - `step`: what a step adds to the files
//! - `recorder`: a watch that writes them, and hands out the packets of a capture; a line of a script
#![tactic(auto)]

mod books;
mod capture_record;
mod desk;
mod ended;
mod file_lines;
mod labels;
mod lines;
mod memory;
mod output;
mod recorder;
mod run;
mod show;
mod step;
mod total;

pub use capture_record::record_header;
pub use ended::{Ended, Fault};
pub use memory::MemoryCapture;
pub use mn_report::{Shown, put_refused};
pub use recorder::is_record;
pub use run::perform;
pub use total::tally;
