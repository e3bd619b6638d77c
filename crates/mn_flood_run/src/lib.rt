//! A script of the flood: its lines played on a flooded link database, and the report.
//!
//! ```text
//! link up A B, link down A B     a link comes up or goes down
//! hear flood A B                 the advert sent first of those that fly from A to B is received
//! drain                          the advert sent first of all is received, until none flies
//! ```
//!
//! The report has a line for each line that was refused, then the tree of each node over the links that it takes for up, and
//! the total:
//!
//! ```text
//! line 3 refused Unchanged
//! tree pe1 to p cost 10 next p
//! total steps 9 refused 1 flying 0
//! ```
//!
//! - `command`: what a line asks for; `language`: the lines as a language
//! - `play`: lines played on a flood
//! - `report`: the lines of the report, put on a page
//! - `run`: the whole command, over a shelf of files and a sink
//! - `laws`: what holds of each script
#![tactic(auto)]

mod command;
mod language;
mod laws;
mod play;
mod report;
mod run;

pub use command::{FloodCommand, FloodLine};
pub use language::FloodLines;
pub use laws::{
    each_drain_of_a_script_is_bounded, where_none_flies_the_printed_trees_are_those_of_the_links,
};
pub use run::flood;
