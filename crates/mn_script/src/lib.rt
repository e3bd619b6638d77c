//! The script of a run: a command a line, read from text.
//!
//! ```text
//! link up A B, link down A B              site up SITE, site down SITE
//! learn N A B                             inject SITE K
//! ldp on A B, ldp off A B                 carry A B PLACE, lose A B PLACE
//! hear ldp A B, hear bgp A B              tick T
//! bgp up A B, bgp down A B                run T
//! route add SITE PREFIX, route del ..     drain N, drain
//! import add VRF TARGET, import del ..    flush
//! export add VRF TARGET, export del ..    show links, show tree N, show ldp,
//! damage ldp A B K, damage bgp A B K        show bgp, show vrf VRF, show flight,
//!                                           show frame N K
//! ```
//!
//! A word that begins with `#` ends its line. A line without words is passed over, and counts as a line: lines
//! are numbered from 1. The first refused line is answered, and in a line the first of the rules S1 to S6 that it
//! breaks. At most six words of a line are kept, so that a line takes no more memory than a command. The rooms:
//!
//! - `refusal`: the rules, and what a reader answers
//! - `command`: what a line asks for
//! - `words`: the words of a line, S1 and S2
//! - `operands`: what the words of a line name, S3 to S6
//! - `steps`: the lines that name a step, a function each
//! - `damages`: the lines that name a damaged message
//! - `fits`: whether a topology has room for a damage or an entry
//! - `lines`: all lines, by their first word
//! - `reading`: the lines of a file in any language of lines, of which a script is one
//! - `read`: the whole script
//! - `laws`: what follows from the definitions
#![tactic(auto)]

mod command;
mod damages;
mod fits;
mod laws;
mod lines;
mod operands;
mod read;
mod reading;
mod refusal;
mod steps;
mod words;

pub use command::{Command, Line, Show};
pub use fits::{damage_fits, entry_fits};
pub use laws::{all_read, command_again, command_only, first_refused};
pub use lines::{drain_line, line_says, show_vrf};
pub use operands::{link_in, node_in, number_in, prefix_in, site_in, target_in, vrf_in};
pub use read::{Commands, count_lines, read_script};
pub use reading::{Language, read_lines};
pub use refusal::{ScriptBad, ScriptRule};
pub use steps::{export_line, import_line, link_line, route_line, site_line};
pub use words::{choice, counted, is_word, line_words, word_at};
