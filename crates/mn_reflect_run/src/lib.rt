//! A script of reflected routes: its lines played on edges and reflectors, and the report.
//!
//! ```text
//! reflector N                    the node N, which is no edge, is a route reflector (RFC 4456); these lines come first
//! bgp up A B, bgp down A B       a session of a reflector and an edge, or of two reflectors, comes up or goes down
//! hear bgp A B                   the message sent first of those that fly from A to B is received
//! route add SITE PREFIX, route del SITE PREFIX, site up SITE, site down SITE,
//! import add VRF TARGET, import del VRF TARGET, export add VRF TARGET, export del VRF TARGET
//!                                as in a script of the whole network
//! drain N, drain                 the message sent first of all is received, at most N times or until none flies
//! show vrf VRF                   the best route of each prefix that the VRF holds
//! ```
//!
//! The report has, in the script's order, a line for each line that was refused and the table of each VRF that was shown, and then
//! the total:
//!
//! ```text
//! line 3 refused Unchanged
//! route red1 10.2.0.0/16 edge pe2 label 16
//! total steps 9 refused 1 flying 0
//! ```
//!
//! - `command`: what a line asks for; `language`: what a line says; `script`: the script of a file
//! - `play`: lines played on edges and reflectors
//! - `report`: the lines of the report, put on a page
//! - `run`: the whole command, over a shelf of files and a sink
//! - `laws`: what holds of each script
#![tactic(auto)]

mod command;
mod language;
mod laws;
mod play;
mod report;
mod run;
mod script;

pub use command::{ReflectCommand, ReflectLine};
pub use laws::{
    each_drain_of_a_script_is_bounded, where_none_flies_the_printed_tables_are_those_of_the_mesh,
};
pub use run::reflect;
pub use script::{Script, read_script};
