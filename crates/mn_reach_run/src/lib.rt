//! `reach TOPOLOGY [FAILURES]`: what becomes of each pair of a topology at rest, with nothing failed and under each failure of a file.
//!
//! ```text
//! pair a 10.2.0.0/16 delivered b ttl 61 path pe1 p pe2
//! failure 1 line 1 link down p pe2
//! lost 1 a 10.2.0.0/16 NoLsp at pe1
//! total pairs 2 failures 1 verdicts 2 lost 2 part 0 moved 0
//! ```
//!
//! The pairs are planned once. For each failure its parts are switched off, the pairs that it may touch are looked at again, and its parts
//! are switched on again; a pair that isn't named is as with nothing failed.
//!
//! - `settings`: how failures are reported; `sums`: counts of what was told; `case`: where in the file, and which failure
//! - `line`: the texts of which lines are made
//! - `failing`: parts fail, and are mended; `found`: what becomes of each pair; `change`: what a failure changes for one
//! - `tell`: what is told of all pairs, and of one failure
//! - `sweep`: the failures for which a line stands; `play`: the lines of a file, and the report
//! - `load`: the file of failures; `run`: the whole command, over a shelf of files and a sink
#![tactic(auto)]

mod case;
mod change;
mod failing;
mod found;
mod line;
mod load;
mod play;
mod run;
mod settings;
mod sums;
mod sweep;
mod tell;

pub use run::reach;
