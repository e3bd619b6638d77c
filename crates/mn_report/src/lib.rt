//! The report of a run, put on a page as the network goes on: refused lines, tables, and at the end packets and the total.
//!
//! ```text
//! line 4 refused Unchanged
//! link pe1 p up cost 10 changes 1
//! packet 1 line 7 site a record 1 delivered b ttl 61 copy 1 path pe1 p pe2
//! total packets 1 delivered 1 dropped 0 flying 0 steps 39 refused 1 tick 12
//! ```
//!
//! - `refused`: lines of a script that were refused
//! - `table`: the tables that a script asks for, each as the network stands; `links`, `tree`, `ldp`, `bgp`, `flight`, `routes`, `frame`
//! - `packets`: what became of each packet; `total`: what all comes to
//! - `counts`: how many nodes and links there are; `written`: a written line, put on a page
#![tactic(auto)]

mod bgp;
mod counts;
mod flight;
mod frame;
mod ldp;
mod links;
mod packets;
mod refused;
mod routes;
mod table;
mod total;
mod tree;
mod written;

pub use packets::put_packets;
pub use refused::{Shown, put_refused};
pub use table::{AskedTable, put_table};
pub use total::put_total;
