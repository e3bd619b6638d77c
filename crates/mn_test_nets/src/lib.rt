//! Three small networks, made in code: for programs and tests that need a topology and no reader of its file; and the file of
//! the row, for those that read one.
//!
//! ```text
//! row                                             pair                          star
//!
//! a --- pe1 ----- p ----- pe2 --- b               a --- pe1 --- pe2 --- b       a.bgp --- p.pcap --- b
//!       red1  10    20    red2                          red1    red2            v2          |        v3
//! 10.1.0.0/16             10.2.0.0/16                                                       c
//!                                                                                           v1, v4
//! ```
//!
//! Each link has what a file's has by default (delay 1, life 2000, no loss) and the cost that is drawn, or 10. In the row
//! both VRFs import and export the target 65000:100, so that each site reaches the other; elsewhere none has a target or
//! a prefix. The rooms:
//!
//! - `entries`: a link, a VRF, a site
//! - `nets`: the three networks
//! - `texts`: the row's file
#![tactic(auto)]

mod entries;
mod nets;
mod texts;

pub use nets::{pair, row, star};
pub use texts::{SiteText, row_text};
